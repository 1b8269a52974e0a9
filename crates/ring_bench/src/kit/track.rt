//! A receive ring and a transmit ring, with drivers that forward from one to the other.
ghost use Rattle.std.specs.Prelude.{◌≡◌, length, replicate, IfOk};
ghost use Rattle.limits.specs.RingLength.{IsRingLength};
ghost use Rattle.ring_model.specs.declared.states.Completion.TheVariants.{Status};
ghost use Rattle.rx_ring.specs.Calls as receive;
ghost use Rattle.rx_ring.specs.Meeting as received;
ghost use Rattle.tx_ring.specs.Calls as transmit;
ghost use Rattle.tx_ring.specs.Meeting as transmitted;
ghost use Rattle.ring_bench.specs.Copies.{IsFrameLength};
ghost use Rattle.ring_bench.specs.declared.kit.supply.TheConstants.{BYTE};
ghost use Rattle.ring_bench.specs.Forwarding.{CanForward};

use crate::kit::forwarding::Forwarder;
use crate::kit::outcome::both;
use crate::kit::supply::frame_of;
use crate::kit::words::BatchPlan;
use anyhow::{Result, ensure};
use driver::MOST_BATCH;
use rx_ring::{RxControllerEnd, RxDriverEnd, RxRing};
use std::alloc::Global;
use tx_ring::{TxControllerEnd, TxDriverEnd, TxRing};

/// The two rings, and the frame.
#[derive(Drop)]
pub struct Way {
    pub from: RxRing,
    pub to: TxRing,
    pub frame: Vec<u8>,
}

/// The controllers' ends of both rings, and the drivers.
#[derive(Drop)]
pub struct Parts {
    pub rx: RxControllerEnd,
    pub tx: TxControllerEnd,
    pub forwarder: Forwarder,
}

/// Two rings and the frame, with both sides.
#[derive(Drop)]
pub struct Track {
    pub way: Way,
    pub parts: Parts,
}

impl Track {
    /// Makes the plan's rings and both sides.
    pub fn new(alloc: Global, plan: BatchPlan) -> Result<Track>
        ensures frame { IfOk result (λ t. (t.way.frame.items ≡ replicate plan.load.size BYTE) × IsFrameLength (length t.way.frame.items)) }
        ensures size { IfOk result (λ t. IsRingLength t.way.from.slots) }
        ensures stores { IfOk result (λ t. (t.parts.rx.table ≡ t.way.from) × receive.IsFreshController t.parts.rx) }
        ensures sends { IfOk result (λ t. (t.parts.tx.table ≡ t.way.to) × transmit.IsFreshController t.parts.tx) }
        ensures forwards { IfOk result (λ t. CanForward t.way.from t.way.to t.parts.forwarder) }
    {
        let batch = plan.batch as usize;
        ensure!(1 <= batch && batch <= MOST_BATCH, "batch");
        let frame = frame_of(alloc, plan.load.size)?;
        let ring = plan.load.ring;
        let made = both(new_rx(alloc, ring), new_tx(alloc, ring));
        let (frame, (receiving, sending)) = both(Ok(frame), made)?;
        let (from, driver, rx) = receiving;
        let (to, sender, tx) = sending;
        Ok(Track {
            way: Way { from, to, frame },
            parts: Parts {
                rx,
                tx,
                forwarder: Forwarder::new(driver, sender, batch),
            },
        })
    }
}

/// Makes a receive ring and its ends.
fn new_rx(alloc: Global, ring: u32) -> Result<(RxRing, RxDriverEnd, RxControllerEnd)>
    ensures { IfOk result (λ r. received.MadeSeats ring r.0 r.1 r.2) }
{
    Ok(RxRing::new(alloc, ring)?)
}

/// Makes a transmit ring and its ends.
fn new_tx(alloc: Global, ring: u32) -> Result<(TxRing, TxDriverEnd, TxControllerEnd)>
    ensures { IfOk result (λ r. transmitted.MadeSeats ring Status r.0 r.1 r.2) }
{
    Ok(TxRing::new(alloc, ring)?)
}
