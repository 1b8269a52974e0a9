//! The step of a receive ring's controller.
ghost use Rattle.std.specs.Prelude.{◌<◌, length};
ghost use Rattle.limits.specs.RingLength.{IsRingLength};
ghost use Rattle.rx_ring.specs.Ends.{known_free};
ghost use Rattle.ring_bench.specs.Copies.{IsFrameLength};
ghost use Rattle.ring_bench.specs.Storing.{CanStore};

use rx_ring::{ControllerEnd, RxControllerEnd, RxRing};

/// Stores the frame in the next descriptor.
#[inline]
fn store(ring: &RxRing, controller: &mut RxControllerEnd, frame: &[u8])
    requires size { IsRingLength ring.now.slots }
    requires can { CanStore ring.now frame.now controller.old }
    requires free { 0 < known_free controller.old }
    requires frame { IsFrameLength (length frame.now) }
    ensures { CanStore ring.now frame.now controller.new }
{
    let mut buf = controller.fetch(ring);
    buf.fill(frame);
    controller.write_back(ring, buf, true);
}

/// Stores the frame in the next descriptor, if one is free. Loads the tail only when it knows of none. Returns whether
/// it stored.
#[inline]
pub fn store_next(ring: &RxRing, controller: &mut RxControllerEnd, frame: &[u8]) -> bool
    requires size { IsRingLength ring.now.slots }
    requires can { CanStore ring.now frame.now controller.old }
    requires frame { IsFrameLength (length frame.now) }
    ensures { CanStore ring.now frame.now controller.new }
{
    if controller.free() == 0 && controller.look(ring) == 0 {
        return false;
    }
    store(ring, controller, frame);
    true
}
