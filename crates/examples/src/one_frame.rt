//! One frame through a receive ring, on one thread.
ghost use Rattle.std.specs.Prelude.{◌≡◌};
ghost use Rattle.limits.specs.RingLength.{IsRingLength};
ghost use Rattle.rx_ring.specs.Calls.{IsFreshController, IsFreshDriver};

use anyhow::Result;
use buffer_pool::{Buf, Stock};
use rx_ring::{ControllerEnd, DriverEnd, Poll, RxControllerEnd, RxDriverEnd, RxRing, meet_rx};
use std::alloc::Global;

/// Passes a frame of 60 bytes through a ring of 8. Returns the buffer that the driver took.
pub fn passed(alloc: Global, frame: &[u8; 60]) -> Result<Option<Buf>> {
    let mut stock = Stock::new(alloc, 0, 16)?;
    let (ring, mut driver, mut controller) = RxRing::new(alloc, 8)?;
    post(&ring, &mut driver, &mut stock);
    store(&ring, &mut controller, frame);
    let taken = take(&ring, &mut driver);
    meet_rx(&ring, &mut driver, &mut controller); // both ends together: their ledger is lawful
    drop((ring, driver, controller));
    Ok(taken)
}

/// Posts a buffer, and asks for the queue to be enabled.
fn post(ring: &RxRing, driver: &mut RxDriverEnd, stock: &mut Stock)
    requires own { driver.old.table ≡ ring.now }
    requires fresh { IsFreshDriver driver.old }
    requires size { IsRingLength ring.now.slots }
    ensures own { driver.new.table ≡ ring.now }
{
    if let Some(buf) = stock.take() {
        driver.post(ring, buf); // the descriptor becomes 0, the buffer lies in its slot
        driver.publish(ring); // RDT
    }
    driver.ask_enable(ring); // RXDCTL.ENABLE
}

/// Answers the enabling, and stores the frame if a descriptor is free.
fn store(ring: &RxRing, controller: &mut RxControllerEnd, frame: &[u8; 60])
    requires own { controller.old.table ≡ ring.now }
    requires fresh { IsFreshController controller.old }
    requires size { IsRingLength ring.now.slots }
    ensures own { controller.new.table ≡ ring.now }
{
    controller.asked(ring);
    if controller.can_answer() {
        controller.answer(ring); // the queue is enabled
    }
    if controller.is_serving() && 0 < controller.look(ring) {
        let mut buf = controller.fetch(ring);
        buf.fill(frame);
        controller.write_back(ring, buf, true); // DD, EOP and the length
        controller.set_head(ring); // RDH
    }
}

/// Sees the queue enabled, and takes the frame if it is done.
fn take(ring: &RxRing, driver: &mut RxDriverEnd) -> Option<Buf>
    requires own { driver.old.table ≡ ring.now }
    ensures own { driver.new.table ≡ ring.now }
{
    driver.state(ring);
    match driver.poll(ring) {
        Poll::Segment { buf, .. } => Some(buf), // DD was set
        Poll::NotDone | Poll::Empty | Poll::Off => None,
    }
}
