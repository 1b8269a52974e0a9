//! The device's thread.
ghost use Rattle.std.specs.Prelude.{◌≡◌, ◌≤◌, length};

use rx_ring::{ControllerEnd, RxControllerEnd, RxRing};
use std::sync::Wait;
use std::thread;

/// Answers the driver's request, if it can.
fn answer(ring: &RxRing, controller: &mut RxControllerEnd)
    requires own { controller.old.table ≡ ring.now }
    ensures own { controller.new.table ≡ ring.now }
{
    controller.asked(ring);
    if controller.can_answer() {
        controller.answer(ring);
    }
}

/// Stores a frame in one segment. Returns whether a descriptor was free.
fn store(ring: &RxRing, controller: &mut RxControllerEnd, frame: &[u8]) -> bool
    requires own { controller.old.table ≡ ring.now }
    requires frame { (14 ≤ length frame.now) × (length frame.now ≤ 2048) }
    ensures own { controller.new.table ≡ ring.now }
{
    let _size = controller.size();
    if !controller.is_serving() || controller.is_holding() {
        return false;
    }
    if controller.has_finished() || !controller.is_between_frames() {
        return false;
    }
    if controller.look(ring) == 0 {
        return false;
    }
    let mut buf = controller.fetch(ring);
    buf.fill(frame);
    controller.write_back(ring, buf, true); // DD, EOP and the length
    controller.set_head(ring); // RDH
    true
}

/// Stores the frame `frames` times.
pub(crate) fn serve<R: Wait>(
    rt: &R,
    ring: &RxRing,
    frame: &[u8],
    frames: u32,
    mut controller: RxControllerEnd,
) -> RxControllerEnd
    requires own { controller.table ≡ ring.now }
    requires frame { (14 ≤ length frame.now) × (length frame.now ≤ 2048) }
    ensures own { result.table ≡ ring.now }
{
    let mut stored = 0u32;
    for _ in rt.forever() {
        if stored >= frames {
            break;
        }
        answer(ring, &mut controller);
        if store(ring, &mut controller, frame) {
            stored = stored.saturating_add(1);
        } else {
            thread::yield_now();
        }
    }
    controller
}
