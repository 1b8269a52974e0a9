//! Closing a ring after more than one lap, with buffers in it, all of which return to their stock.
ghost use Rattle.std.specs.Prelude.{◌≡◌, [], None, IfOk};
ghost use Rattle.buffer_pool.specs.Stocked.{Shares};
ghost use Rattle.limits.specs.RingLength.{IsRingLength};
ghost use Rattle.rx_ring.specs.Calls.{IsFreshController, IsFreshDriver};
ghost use Rattle.rx_ring.specs.Ends.{held};
ghost use Rattle.rx_ring.specs.Meeting.{out_of};

use anyhow::Result;
use arrayvec::ArrayVec;
use buffer_pool::Stock;
use rx_ring::{ControllerEnd, DriverEnd, Poll, RxControllerEnd, RxDriverEnd, RxRing, close};
use std::alloc::Global;

/// How many frames go through the ring.
const FRAMES: u32 = 10;

/// How many buffers are in the ring between two frames.
const POSTED: u32 = 3;

/// The numbers of the buffers that were in a closed ring, in the order of their places.
pub type Numbers = ArrayVec<u16, 8>;

/// Passes 10 frames through a ring of 8 that holds 3 buffers of a stock of 16, and closes the ring. Returns the stock,
/// which has all of its buffers again, and the numbers of those that were in the ring.
pub fn closed(alloc: Global, frame: &[u8; 60]) -> Result<(Stock, Numbers)>
    ensures { IfOk result (λ r. Shares r.0 []) }
{
    let mut stock = Stock::new(alloc, 0, 16)?;
    let (ring, mut driver, mut controller) = RxRing::new(alloc, 8)?;
    enable(&ring, &mut driver, &mut controller);
    for _ in 0..POSTED {
        post_one(&ring, &mut driver, &mut stock);
    }
    for _ in 0..FRAMES {
        store_one(&ring, &mut controller, frame);
        take_one(&ring, &mut driver, &mut stock);
        post_one(&ring, &mut driver, &mut stock);
    }
    let numbers = give_back(ring, driver, controller, &mut stock);
    Ok((stock, numbers))
}

/// Enables a new ring.
fn enable(ring: &RxRing, driver: &mut RxDriverEnd, controller: &mut RxControllerEnd)
    requires driver { driver.old.table ≡ ring.now }
    requires new_driver { IsFreshDriver driver.old }
    requires controller { controller.old.table ≡ ring.now }
    requires new_controller { IsFreshController controller.old }
    ensures driver { driver.new.table ≡ ring.now }
    ensures none_out { out_of driver.new ≡ [] }
    ensures controller { controller.new.table ≡ ring.now }
    ensures none_held { held controller.new ≡ None }
{
    driver.ask_enable(ring);
    controller.asked(ring);
    if controller.can_answer() {
        controller.answer(ring);
    }
    driver.state(ring);
}

/// Posts the stock's next buffer, if there is room.
fn post_one(ring: &RxRing, driver: &mut RxDriverEnd, stock: &mut Stock)
    requires own { driver.old.table ≡ ring.now }
    requires shared { Shares stock.old (out_of driver.old) }
    ensures own { driver.new.table ≡ ring.now }
    ensures shared { Shares stock.new (out_of driver.new) }
{
    if !driver.is_open() || driver.room() == 0 {
        return;
    }
    if let Some(buf) = stock.take() {
        driver.post(ring, buf);
        driver.publish(ring);
    }
}

/// Stores a frame, if a descriptor is free.
fn store_one(ring: &RxRing, controller: &mut RxControllerEnd, frame: &[u8; 60])
    requires own { controller.old.table ≡ ring.now }
    requires size { IsRingLength ring.now.slots }
    requires none_held { held controller.old ≡ None }
    ensures own { controller.new.table ≡ ring.now }
    ensures none_held { held controller.new ≡ None }
{
    if !controller.is_serving() || controller.has_finished() || !controller.is_between_frames() {
        return;
    }
    if 0 < controller.look(ring) {
        let mut buf = controller.fetch(ring);
        buf.fill(frame);
        controller.write_back(ring, buf, true);
        controller.set_head(ring);
    }
}

/// Takes a frame, if one is done, and gives its buffer back.
fn take_one(ring: &RxRing, driver: &mut RxDriverEnd, stock: &mut Stock)
    requires own { driver.old.table ≡ ring.now }
    requires shared { Shares stock.old (out_of driver.old) }
    ensures own { driver.new.table ≡ ring.now }
    ensures shared { Shares stock.new (out_of driver.new) }
{
    if let Poll::Segment { buf, .. } = driver.poll(ring) {
        stock.give(buf);
    }
}

/// Closes a ring whose controller holds no buffer, and returns each buffer in it to the stock. Returns their numbers.
fn give_back(
    ring: RxRing,
    driver: RxDriverEnd,
    controller: RxControllerEnd,
    stock: &mut Stock,
) -> Numbers
    requires driver { driver.table ≡ ring }
    requires controller { controller.table ≡ ring }
    requires free { held controller ≡ None }
    requires shared { Shares stock.old (out_of driver) }
    ensures { Shares stock.new [] }
{
    let mut numbers = Numbers::new();
    for slot in close(ring, driver, controller) {
        if let Some(buf) = slot {
            let _ = numbers.try_push(buf.number());
            stock.give(buf); // it is out of the stock, and no blank
        }
    }
    numbers
}
