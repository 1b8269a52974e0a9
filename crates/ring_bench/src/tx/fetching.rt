//! The controller's thread of a transmit ring.
ghost use Rattle.ring_bench.specs.Enabling.{CanServe};
ghost use Rattle.ring_bench.specs.Fetching.{HasServed};

use crate::kit::{Patience, Tally, answer_enabling, send_next};
use std::sync::Wait;
use tx_ring::{TxControllerEnd, TxRing};

/// The result of the controller's thread, with a tally of the frames that it sent.
#[derive(Drop)]
pub struct Transmission {
    pub controller: TxControllerEnd,
    pub tally: Tally,
}

/// Answers the enabling, and sends `frames` frames, each as soon as it is ready. Loads the tail only when it knows of
/// none that is ready.
pub fn send_all<R: Wait>(
    rt: &R,
    ring: &TxRing,
    mut controller: TxControllerEnd,
    frames: u32,
) -> Transmission
    requires can { CanServe ring.now controller }
    ensures { HasServed ring.now controller.completion result.controller }
{
    answer_enabling(rt, ring, &mut controller);
    let mut patience = Patience::new();
    let mut tally = Tally::new();
    let mut left = frames;
    for _ in rt.forever() {
        if left == 0 {
            return Transmission { controller, tally };
        }
        if send_next(ring, &mut controller, &mut tally) {
            patience.reset();
            left -= 1;
        } else {
            patience.wait();
        }
    }
    unreachable!()
}
