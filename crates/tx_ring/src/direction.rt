//! The transmit direction.

use crate::events::{TxControllerOwn, TxDriverOwn};
use shared_ring::{ControllerSeat, Direction, DriverSeat, Ring};

/// The rule of a transmit ring: between any two steps, the words, the slots and both records agree with one ring that a
/// schedule reaches. It is the same for both ways to report.
pub struct TxRule;

impl Direction<TxDriverOwn, TxControllerOwn> for TxRule {
    ghost use Rattle.ring_model.specs.shared.Frames.{Bytes};
    ghost use Rattle.ring_model.specs.transmit.Ring as transmit;
    ghost use Rattle.std.specs.Prelude.{ℕ};
    ghost use Rattle.tx_ring.specs.Form.{tx};

    ghost Ring = { transmit.TxRing Bytes };

    ghost Posted = { transmit.Posting Bytes };

    ghost Completed = { transmit.Posting Bytes };

    ghost Reaped = { ℕ };

    ghost form = { tx };
}

pub(crate) type TxShared = Ring<TxDriverOwn, TxControllerOwn, TxRule>;

pub(crate) type TxDriverSeat = DriverSeat<TxDriverOwn, TxControllerOwn, TxRule>;

pub(crate) type TxControllerSeat = ControllerSeat<TxDriverOwn, TxControllerOwn, TxRule>;
