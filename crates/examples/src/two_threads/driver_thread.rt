//! The driver's thread.
ghost use Rattle.std.specs.Prelude.{◌≡◌};

use buffer_pool::Stash;
use rx_ring::{DriverEnd, Poll, RxDriverEnd, RxRing};
use std::sync::Wait;
use std::thread;

/// Posts an empty buffer and stores the tail after it, if there is a buffer and the ring has room.
fn post_one(ring: &RxRing, driver: &mut RxDriverEnd, stash: &mut Stash)
    requires own { driver.old.table ≡ ring.now }
    ensures own { driver.new.table ≡ ring.now }
{
    if !driver.is_open() || driver.room() == 0 {
        return;
    }
    if let Some(buf) = stash.take() {
        driver.post(ring, buf);
        driver.publish(ring); // RDT
    }
}

/// Takes the next segment. Returns whether there was one.
fn take_one(ring: &RxRing, driver: &mut RxDriverEnd, stash: &mut Stash) -> bool
    requires own { driver.old.table ≡ ring.now }
    ensures own { driver.new.table ≡ ring.now }
{
    let Poll::Segment { buf, .. } = driver.poll(ring) else {
        return false;
    };
    let _full = stash.put(buf); // DD was set; the buffer is cleared, to be posted again
    true
}

/// Enables the queue, and takes `frames` frames of one segment. Returns its end, and how many it took.
pub(crate) fn drive<R: Wait>(
    rt: &R,
    ring: &RxRing,
    mut driver: RxDriverEnd,
    mut stash: Stash,
    frames: u32,
) -> (RxDriverEnd, u32)
    requires own { driver.table ≡ ring.now }
    ensures own { result.0.table ≡ ring.now }
{
    if driver.is_new() {
        driver.ask_enable(ring);
    }
    let mut taken = 0u32;
    for _ in rt.forever() {
        if taken >= frames {
            break;
        }
        post_one(ring, &mut driver, &mut stash);
        driver.state(ring); // sees the queue enabled
        if take_one(ring, &mut driver, &mut stash) {
            taken = taken.saturating_add(1);
        } else {
            thread::yield_now();
        }
    }
    (driver, taken)
}
