//! The driver's thread of a transmit ring.
ghost use Rattle.std.specs.Prelude.{◌≡◌, ◌<◌, ◌≤◌, [], length};
ghost use Rattle.buffer_pool.specs.Stocked.{Shares};
ghost use Rattle.tx_ring.specs.Ends.{driver_size, driver_record};
ghost use Rattle.ring_bench.specs.Copies.{IsFrameLength};
ghost use Rattle.ring_bench.specs.Sending.{CanEnable, IsUnderWay, OnlyCleaned, PostedAll, Supplies};

use crate::kit::{Patience, await_enabling};
use crate::tx::asking::Course;
use crate::tx::words::TxPlan;
use buffer_pool::Stock;
use std::sync::Wait;
use tx_ring::{DriverEnd, TxDriverEnd, TxRing};

/// The result of the driver's thread. All buffers are in the stock again.
#[derive(Drop)]
pub struct Posted {
    pub driver: TxDriverEnd,
    pub stock: Stock,
}

/// Enables the queue, posts the frames of the plan while there is room, and cleans the reported ones, until all are
/// cleaned.
pub fn post_all<R: Wait>(
    rt: &R,
    ring: &TxRing,
    mut driver: TxDriverEnd,
    mut stock: Stock,
    frame: &[u8],
    plan: TxPlan,
) -> Posted
    requires can { CanEnable ring.now driver }
    requires way { driver.completion ≡ plan.completion }
    requires full { Shares stock [] }
    requires enough { ring.now.slots ≤ length stock.numbers }
    requires frame { IsFrameLength (length frame.now) }
    requires some { 0 < plan.report }
    ensures { PostedAll ring.now plan frame.now result.driver }
{
    await_enabling(rt, ring, &mut driver);
    let mut course = Course::new(plan);
    let mut patience = Patience::new();
    for _ in rt.forever() {
        post_more(ring, &mut driver, &mut stock, frame, &mut course);
        if clean(ring, &mut driver, &mut stock) {
            patience.reset();
        } else {
            patience.wait();
        }
        if course.left() == 0 && driver.room() == driver.size() - 1 {
            return Posted { driver, stock };
        }
    }
    unreachable!()
}

/// Posts the frame as often as there is room, each time in a buffer of the stock, and publishes these postings.
#[inline]
fn post_more(
    ring: &TxRing,
    driver: &mut TxDriverEnd,
    stock: &mut Stock,
    frame: &[u8],
    course: &mut Course,
)
    requires run { IsUnderWay ring.now frame.now driver.old stock.old course.old }
    requires frame { IsFrameLength (length frame.now) }
    ensures run { IsUnderWay ring.now frame.now driver.new stock.new course.new }
    ensures plan { course.new.plan ≡ course.old.plan }
{
    let more = driver.room().min(course.left());
    if more == 0 {
        return;
    }
    for _ in 0..more {
        let _size = driver.size();
        let Some(mut buf) = stock.take() else {
            unreachable!()
        };
        buf.fill(frame);
        let asks = course.next();
        driver.post(ring, buf, true, asks, frame.len() as u16);
    }
    driver.publish(ring);
}

/// Looks for the oldest outstanding report. If it is made, takes back all buffers that it covers. Returns whether it is
/// made.
#[inline]
fn clean(ring: &TxRing, driver: &mut TxDriverEnd, stock: &mut Stock) -> bool
    requires own { driver.old.table ≡ ring.now }
    requires stock { Supplies stock.old (driver_size driver.old) (driver_record driver.old) }
    ensures only { OnlyCleaned driver.old driver.new }
    ensures stock { Supplies stock.new (driver_size driver.new) (driver_record driver.new) }
{
    if !driver.poll_report(ring) {
        return false;
    }
    for _ in 0..driver.reported() {
        stock.give(driver.clean(ring));
    }
    true
}
