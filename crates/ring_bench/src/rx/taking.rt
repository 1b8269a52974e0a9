//! The driver's thread of a receive ring.
ghost use Rattle.std.specs.Prelude.{◌≡◌, ◌+◌, ◌≤◌, true, false, length};
ghost use Rattle.rx_ring.specs.Ends.{taken};
ghost use Rattle.ring_bench.specs.Passing.{CanAsk, CanTake, TookAll};

use crate::kit::{Patience, Tally, await_enabling};
use crate::rx::passing::RxRun;
use rx_ring::{DriverEnd, Poll, RxDriverEnd, RxRing};
use std::sync::Wait;

/// The result of the driver's thread.
#[derive(Drop)]
pub struct Reception {
    pub driver: RxDriverEnd,
    pub tally: Tally,
}

/// Enables the queue, takes the planned frames and posts each buffer again. Publishes the postings once a batch, and when
/// no more frames are done.
pub fn take_all<R: Wait>(rt: &R, run: RxRun<'_>, mut driver: RxDriverEnd) -> Reception
    requires can { CanAsk run.ring.now driver }
    ensures { TookAll run.entry.ring.now run.entry.plan.load.frames result.driver }
{
    let RxRun { ring, plan, .. } = run;
    await_enabling(rt, ring, &mut driver);
    let mut patience = Patience::new();
    let mut tally = Tally::new();
    let mut left = plan.load.frames;
    for _ in rt.forever() {
        if left == 0 {
            return Reception { driver, tally };
        }
        let got = take_batch(ring, &mut driver, plan.batch.min(left), &mut tally);
        if got == 0 {
            patience.wait();
            continue;
        }
        patience.reset();
        driver.publish(ring);
        left -= got;
    }
    unreachable!()
}

/// Takes up to `most` frames that are done, and posts their buffers again. Returns how many.
#[inline]
fn take_batch(ring: &RxRing, driver: &mut RxDriverEnd, most: u32, tally: &mut Tally) -> u32
    requires can { CanTake ring.now driver.old }
    ensures can { CanTake ring.now driver.new }
    ensures most { result ≤ most }
    ensures taken { length (taken driver.new) ≡ length (taken driver.old) + result }
{
    for got in 0..most {
        if !take_one(ring, driver, tally) {
            return got;
        }
    }
    most
}

/// Takes the next frame, if it is done, and posts its buffer again. Returns whether there was one.
#[inline]
fn take_one(ring: &RxRing, driver: &mut RxDriverEnd, tally: &mut Tally) -> bool
    requires can { CanTake ring.now driver.old }
    ensures can { CanTake ring.now driver.new }
    ensures taken { result ≡ true → length (taken driver.new) ≡ length (taken driver.old) + 1 }
    ensures none { result ≡ false → taken driver.new ≡ taken driver.old }
{
    let Poll::Segment { mut buf, .. } = driver.poll(ring) else {
        return false;
    };
    tally.add(buf.bytes());
    buf.clear();
    driver.post(ring, buf);
    true
}
