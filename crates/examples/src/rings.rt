//! The rings of the examples, of 8 descriptors each.
ghost use Rattle.std.specs.Prelude.{IfOk};
ghost use Rattle.ring_model.specs.declared.states.Completion.TheVariants.{Status};
ghost use Rattle.rx_ring.specs.Meeting as receive;
ghost use Rattle.tx_ring.specs.Meeting as transmit;

use anyhow::Result;
use rx_ring::{RxControllerEnd, RxDriverEnd, RxRing};
use std::alloc::Global;
use tx_ring::{TxControllerEnd, TxDriverEnd, TxRing};

/// Makes a receive ring and its ends.
pub fn new_rx(alloc: Global) -> Result<(RxRing, RxDriverEnd, RxControllerEnd)>
    ensures { IfOk result (λ r. receive.MadeSeats 8 r.0 r.1 r.2) }
{
    Ok(RxRing::new(alloc, 8)?)
}

/// Makes a transmit ring and its ends.
pub fn new_tx(alloc: Global) -> Result<(TxRing, TxDriverEnd, TxControllerEnd)>
    ensures { IfOk result (λ r. transmit.MadeSeats 8 Status r.0 r.1 r.2) }
{
    Ok(TxRing::new(alloc, 8)?)
}
