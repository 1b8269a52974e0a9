//! The receive direction.

use crate::events::{RxControllerOwn, RxDriverOwn};
use shared_ring::{ControllerSeat, Direction, DriverSeat, Ring};

/// The rule of a receive ring: between any two steps, the words, the slots and both records agree with one ring that a
/// schedule reaches.
pub struct RxRule;

impl Direction<RxDriverOwn, RxControllerOwn> for RxRule {
    ghost use Rattle.ring_model.specs.shared.Frames.{Bytes};
    ghost use Rattle.ring_model.specs.receive.Ring as receive;
    ghost use Rattle.ring_model.specs.shared.Segments.{Segment};
    ghost use Rattle.std.specs.Prelude.{ℕ};
    ghost use Rattle.rx_ring.specs.Form.{rx};

    ghost Ring = { receive.RxRing Bytes };

    ghost Posted = { ℕ };

    ghost Completed = { Segment Bytes };

    ghost Reaped = { Segment Bytes };

    ghost form = { rx };
}

pub(crate) type RxShared = Ring<RxDriverOwn, RxControllerOwn, RxRule>;

pub(crate) type RxDriverSeat = DriverSeat<RxDriverOwn, RxControllerOwn, RxRule>;

pub(crate) type RxControllerSeat = ControllerSeat<RxDriverOwn, RxControllerOwn, RxRule>;
