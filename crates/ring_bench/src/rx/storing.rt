//! The controller's thread of a receive ring.
ghost use Rattle.std.specs.Prelude.{length};
ghost use Rattle.limits.specs.RingLength.{IsRingLength};
ghost use Rattle.ring_bench.specs.Copies.{IsFrameLength};
ghost use Rattle.ring_bench.specs.Enabling.{CanServe};
ghost use Rattle.ring_bench.specs.Storing.{StoredOnly};

use crate::kit::{Patience, answer_enabling, store_next};
use rx_ring::{RxControllerEnd, RxRing};
use std::sync::Wait;

/// Answers the enabling, and stores the frame `frames` times, each as soon as a descriptor is free. Loads the tail only
/// when it knows of no free descriptor.
pub fn store_all<R: Wait>(
    rt: &R,
    ring: &RxRing,
    mut controller: RxControllerEnd,
    frame: &[u8],
    frames: u32,
) -> RxControllerEnd
    requires size { IsRingLength ring.now.slots }
    requires can { CanServe ring.now controller }
    requires frame { IsFrameLength (length frame.now) }
    ensures { StoredOnly ring.now frame.now result }
{
    answer_enabling(rt, ring, &mut controller);
    let mut patience = Patience::new();
    let mut left = frames;
    for _ in rt.forever() {
        if left == 0 {
            return controller;
        }
        if store_next(ring, &mut controller, frame) {
            patience.reset();
            left -= 1;
        } else {
            patience.wait();
        }
    }
    unreachable!()
}
