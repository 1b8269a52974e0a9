//! One frame passed through a receive ring, whose two ends take turns.
ghost use Rattle.std.specs.Prelude.{◌≡◌, ◌≢◌, ◌<◌, ◌⊎◌, ◌↔◌, true, false, length, IfSome};
ghost use Rattle.commands.specs.Frame.{IsFrameLength};
ghost use Rattle.commands.specs.Passing.{CanPass, Fits, HasStored, Offers, StoredOnly, TookPacket};
ghost use Rattle.c_data.specs.Once.{Drives, HasCome, IsWritten};

use arrayvec::ArrayVec;
use buffer_pool::{Packet, Stash, Stock};
use controller::{Offer, RxController};
use driver::{MOST_BATCH, QueueDriver, RxDriver};
use limits::{BUFFER_BYTES, LEAST_FRAME};
use rx_ring::{RxControllerEnd, RxDriverEnd, RxRing, meet_rx};
use std::alloc::Global;

/// The number of descriptors of the ring.
const DESCRIPTORS: u32 = 8;

/// The most bytes of a frame: those of 7 buffers, as many as the ring can have free at once.
const MOST_BYTES: usize = 14_336;

/// The number of the driver's buffers.
const BUFFERS: u32 = 16;

/// The most packets that the driver takes at once.
const BATCH: usize = 1;

/// Passes a frame through a receive ring of 8 descriptors, whose controller and driver take turns on the caller's
/// thread, and copies the packet that the driver took to the beginning of `room`. Returns 0: done; 1: the length is not
/// 14 to 14,336; 4: `room` has fewer bytes than the frame; 2: memory was refused. Only 0 changes the room.
#[unsafe(no_mangle)]
pub extern "C" fn poll82599_once(alloc: Global, frame: &[u8], room: &mut [u8]) -> u32
    ensures written { (result ≡ 0) → IsWritten frame.now room.old room.new }
    ensures length { (result ≡ 1) ↔ ¬ IsFrameLength (length frame.now) }
    ensures small { (result ≡ 4) ↔ IsFrameLength (length frame.now) × (length room.old < length frame.now) }
    ensures answers { (result ≡ 0) ⊎ (result ≡ 1) ⊎ (result ≡ 2) ⊎ (result ≡ 4) }
    ensures kept { (result ≢ 0) → room.new ≡ room.old }
{
    if frame.len() < LEAST_FRAME || MOST_BYTES < frame.len() {
        return 1;
    }
    if room.len() < frame.len() {
        return 4;
    }
    match passed(alloc, frame) {
        Some(packet) => {
            packet.copy_to(room);
            0
        }
        None => 2,
    }
}

/// Passes a frame through a new ring. Returns the packet, unless memory was refused.
fn passed(alloc: Global, frame: &[u8]) -> Option<Packet>
    requires { IsFrameLength (length frame.now) }
    ensures { IfSome result (λ packet. HasCome frame.now packet) }
{
    let stash = full_stash(alloc)?;
    let (ring, driver, controller) = RxRing::new(alloc, DESCRIPTORS).ok()?;
    let (mut driver, mut controller, packet) = in_turns(&ring, driver, controller, stash, frame);
    meet_rx(&ring, &mut driver, &mut controller);
    packet
}

/// Makes a stash of the driver's buffers, unless memory is refused.
fn full_stash(alloc: Global) -> Option<Stash> {
    let mut stock = Stock::new(alloc, 0, BUFFERS).ok()?;
    let mut stash = Stash::new();
    for _ in 0..BUFFERS {
        if let Some(buf) = stock.take() {
            let _full = stash.put(buf);
        }
    }
    Some(stash)
}

/// Lets both ends take turns: the driver asks for an enabling, the controller answers, the driver posts its buffers,
/// the controller stores the frame, and the driver takes it. Returns both ends, and the packet if the driver took one.
fn in_turns(
    ring: &RxRing,
    driver: RxDriverEnd,
    controller: RxControllerEnd,
    mut stash: Stash,
    frame: &[u8],
) -> (RxDriverEnd, RxControllerEnd, Option<Packet>)
    requires { CanPass ring.now driver controller frame.now }
    ensures own { result.0.table ≡ ring.now }
    ensures driver { IfSome result.2 (λ packet. TookPacket ring.now result.0 packet) }
    ensures controller { StoredOnly ring.now frame.now result.1 }
{
    let mut driver = RxDriver::new(driver, BATCH);
    let mut packets = ArrayVec::new();
    let mut controller = RxController::new(controller, BUFFER_BYTES, false);
    take(ring, &mut driver, &mut stash, &mut packets);
    controller.turn_control(ring);
    take(ring, &mut driver, &mut stash, &mut packets);
    let end = store(ring, controller, frame);
    take(ring, &mut driver, &mut stash, &mut packets);
    let (driver, begun) = driver.into_end();
    drop(begun);
    (driver, end, packets.pop())
}

/// A turn of the driver: asks for an enabling, if it did not before, and takes a batch if the queue is on.
fn take(
    ring: &RxRing,
    driver: &mut RxDriver,
    stash: &mut Stash,
    packets: &mut ArrayVec<Packet, MOST_BATCH>,
)
    requires { Drives ring.now driver.old.end driver.old.chain packets.old.items }
    ensures { Drives ring.now driver.new.end driver.new.chain packets.new.items }
{
    let Ok(true) = driver.enable(ring) else {
        return;
    };
    let Ok(_) = driver.rx_batch(ring, stash, packets) else {
        return;
    };
}

/// Offers the frame after the controller's turns, and returns its end.
fn store(ring: &RxRing, mut controller: RxController, frame: &[u8]) -> RxControllerEnd
    requires offers { Offers ring.now controller }
    requires fits { Fits ring.now frame.now }
    ensures { StoredOnly ring.now frame.now result }
{
    if is_stored(ring, &mut controller, frame) {
        return controller.into_end();
    }
    controller.into_end()
}

/// Offers the frame. Returns whether it was stored: not if the queue is off or too few descriptors are free.
fn is_stored(ring: &RxRing, controller: &mut RxController, frame: &[u8]) -> bool
    requires offers { Offers ring.now controller.old }
    requires fits { Fits ring.now frame.now }
    ensures stored { result ≡ true → HasStored ring.now frame.now controller.new.end }
    ensures waits { result ≡ false → Offers ring.now controller.new }
{
    match controller.offer(ring, frame) {
        Ok(Offer::Stored) => true,
        Ok(Offer::Off | Offer::Held) => false,
        Ok(Offer::Oversize | Offer::Dropped) | Err(_) => unreachable!(),
    }
}
