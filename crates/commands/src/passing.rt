//! Passes one frame through a receive ring, whose two sides run on separate threads.
ghost use Rattle.std.specs.Prelude.{◌≡◌, true, false, [], length, IfOk, IfErr};
ghost use Rattle.refusals.specs.declared.errors.PoolError.TheVariants.{Memory};
ghost use Rattle.ring_model.specs.shared.Handshakes.{is_live, is_open};
ghost use Rattle.limits.specs.RingLength.{IsRingLength};
ghost use Rattle.rx_ring.specs.Calls.{IsFreshController, IsFreshDriver};
ghost use Rattle.rx_ring.specs.Ends.{driver_state, taken};
ghost use Rattle.commands.specs.Frame.{IsFrameLength};
ghost use Rattle.requests.specs.Refusals.{IsUnmade};
ghost use Rattle.commands.specs.Passing.{CanPass, Fits, HasPassed, HasStored, Offers, StoredOnly, TookPacket};

use arrayvec::ArrayVec;
use buffer_pool::{Packet, PoolError, Stash, Stock};
use controller::{Offer, RxController};
use driver::{QueueDriver, RxDriver};
use limits::BUFFER_BYTES;
use requests::Refusal;
use rx_ring::{RxControllerEnd, RxDriverEnd, RxRing, meet_rx};
use std::alloc::Global;
use std::sync::Wait;
use std::sync::atomic::{AtomicBool, Ordering};
use std::thread;
use std::thread::{Promise, Threads};

/// Number of descriptors of the ring.
const DESCRIPTORS: u32 = 8;

/// The longest frame that is passed, in bytes: it fills as many buffers of `BUFFER_BYTES` as the ring can have free at
/// once, one less than its descriptors. A longer frame would be oversize for the ring, and is never offered.
pub const MOST_PASSED: usize = (DESCRIPTORS as usize - 1) * BUFFER_BYTES;

const _: () = prove!(MOST_PASSED == 14_336);

/// Number of buffers in the driver's stash.
const BUFFERS: u32 = 16;

/// The most packets that the driver takes in one batch.
const BATCH: usize = 1;

/// The result of the driver's thread: its end of the ring, and the packet that it took.
#[derive(Drop)]
pub struct TakenPacket {
    driver: RxDriverEnd,
    packet: Packet,
}

/// The promise of the driver's thread: it takes a packet at this ring.
#[derive(Clone, Copy)]
struct TakesPacket<'a>(&'a RxRing);

impl<'a> Promise<TakenPacket> for TakesPacket<'a> {
    ghost kept_by = { λ p r. TookPacket p.0.now r.driver r.packet };
}

/// The promise of the controller's thread: it stores nothing but this frame at this ring.
#[derive(Clone, Copy)]
struct StoresOnly<'a>(&'a RxRing, &'a [u8]);

impl<'a> Promise<RxControllerEnd> for StoresOnly<'a> {
    ghost kept_by = { λ p controller. StoredOnly p.0.now p.1.now controller };
}

/// A frame that was passed: the two ends of the ring, and the packet that the driver took.
#[derive(Drop)]
pub struct PassedFrame {
    pub driver: RxDriverEnd,
    pub controller: RxControllerEnd,
    pub packet: Packet,
}

/// Passes a frame through a receive ring, between a controller and a driver on separate threads. Returns the ring's or
/// the stock's `Memory`, or `Thread` if a thread cannot be started.
pub fn pass<R: Threads + Wait + Sync>(
    rt: &R,
    alloc: Global,
    frame: &[u8],
) -> Result<PassedFrame, Refusal>
    requires { IsFrameLength (length frame.now) }
    ensures passed { IfOk result (λ p. HasPassed frame.now p.driver p.controller p.packet) }
    ensures refused { IfErr result IsUnmade }
{
    let (ring, driver, controller) = RxRing::new(alloc, DESCRIPTORS)?;
    let stash = full_stash(alloc)?;
    let (reception, mut controller) = in_threads(rt, &ring, driver, controller, stash, frame)?;
    let TakenPacket { mut driver, packet } = reception;
    meet_rx(&ring, &mut driver, &mut controller);
    Ok(PassedFrame {
        driver,
        controller,
        packet,
    })
}

/// Creates a stash of the driver's buffers.
fn full_stash(alloc: Global) -> Result<Stash, PoolError>
    ensures full { IfOk result (λ stash. length stash ≡ BUFFERS) }
    ensures refused { IfErr result (λ e. e ≡ Memory) }
{
    let mut stock = Stock::new(alloc, 0, BUFFERS)?;
    let mut stash = Stash::new();
    for _ in 0..BUFFERS {
        if let Some(buf) = stock.take() {
            let _full = stash.put(buf);
        }
    }
    Ok(stash)
}

/// Runs both sides on separate threads, and joins both threads.
fn in_threads<R: Threads + Wait + Sync>(
    rt: &R,
    ring: &RxRing,
    driver: RxDriverEnd,
    controller: RxControllerEnd,
    stash: Stash,
    frame: &[u8],
) -> Result<(TakenPacket, RxControllerEnd), Refusal>
    requires { CanPass ring.now driver controller frame.now }
    ensures driver { IfOk result (λ ends. TookPacket ring.now ends.0.driver ends.0.packet) }
    ensures controller { IfOk result (λ ends. StoredOnly ring.now frame.now ends.1) }
    ensures refused { IfErr result (λ e. e ≡ Refusal.Thread) }
{
    let stop = AtomicBool::new(false);
    let stop = &stop;
    thread::scope(
        thread::scope_env(),
        rt,
        move |scope| -> Result<(TakenPacket, RxControllerEnd), Refusal>
            requires { CanPass ring.now driver controller frame.now }
            ensures driver { IfOk result (λ ends. TookPacket ring.entry.now ends.0.driver ends.0.packet) }
            ensures controller { IfOk result (λ ends. StoredOnly ring.entry.now frame.entry.now ends.1) }
            ensures refused { IfErr result (λ e. e ≡ Refusal.Thread) }
        {
            let serving = scope
                .spawn_with(StoresOnly(ring, frame), move || {
                    serve(rt, ring, controller, frame, stop)
                })
                .map_err(|_| Refusal::Thread)?;
            let receiving = scope.spawn_with(TakesPacket(ring), move || {
                receive(rt, ring, driver, stash)
            });
            let Ok(receiving) = receiving else {
                stop.store(true, Ordering::SeqCst);
                serving.join(rt);
                return Err(Refusal::Thread);
            };
            let controller = serving.join(rt);
            Ok((receiving.join(rt), controller))
        },
    )
}

/// The driver's thread: enables the queue, and takes batches until a packet arrives. The first batch is empty; it posts
/// and publishes the buffers of the stash.
fn receive<R: Wait>(rt: &R, ring: &RxRing, end: RxDriverEnd, mut stash: Stash) -> TakenPacket
    requires own { end.table ≡ ring.now }
    requires fresh { IsFreshDriver end }
    ensures { TookPacket ring.now result.driver result.packet }
{
    let mut driver = RxDriver::new(end, BATCH);
    enable(rt, ring, &mut driver);
    let packet = take_packet(rt, ring, &mut driver, &mut stash);
    let (driver, _begun) = driver.into_end();
    TakenPacket { driver, packet }
}

/// Asks the controller to enable the queue, and waits until it has done so.
fn enable<R: Wait>(rt: &R, ring: &RxRing, driver: &mut RxDriver)
    requires own { driver.old.end.table ≡ ring.now }
    requires open { is_open (driver_state driver.old.end) ≡ true }
    ensures own { driver.new.end.table ≡ ring.now }
    ensures live { is_live (driver_state driver.new.end) ≡ true }
    ensures taken { taken driver.new.end ≡ taken driver.old.end }
    ensures chain { driver.new.chain ≡ driver.old.chain }
{
    for _ in rt.forever() {
        match driver.enable(ring) {
            Ok(true) => return,
            Ok(false) => thread::yield_now(),
            Err(_) => unreachable!(),
        }
    }
    unreachable!()
}

/// Takes batches until a packet arrives.
fn take_packet<R: Wait>(rt: &R, ring: &RxRing, driver: &mut RxDriver, stash: &mut Stash) -> Packet
    requires own { driver.old.end.table ≡ ring.now }
    requires live { is_live (driver_state driver.old.end) ≡ true }
    requires none_taken { taken driver.old.end ≡ [] }
    requires no_chain { driver.old.chain ≡ [] }
    ensures { TookPacket ring.now driver.new.end result }
{
    let mut packets = ArrayVec::new();
    for _ in rt.forever() {
        let Ok(_) = driver.rx_batch(ring, stash, &mut packets) else {
            unreachable!()
        };
        if let Some(packet) = packets.pop() {
            return packet;
        }
        thread::yield_now();
    }
    unreachable!()
}

/// The controller's thread: serves the handshake, and offers the frame until it is stored. If `stop` is set first,
/// there is no driver, and nothing is stored.
fn serve<R: Wait>(
    rt: &R,
    ring: &RxRing,
    end: RxControllerEnd,
    frame: &[u8],
    stop: &AtomicBool,
) -> RxControllerEnd
    requires size { IsRingLength ring.now.slots }
    requires own { end.table ≡ ring.now }
    requires fresh { IsFreshController end }
    requires fits { Fits ring.now frame.now }
    ensures { StoredOnly ring.now frame.now result }
{
    let mut controller = RxController::new(end, BUFFER_BYTES, false);
    for _ in rt.forever() {
        if turn(ring, &mut controller, frame) || stop.load(Ordering::SeqCst) {
            return controller.into_end();
        }
        thread::yield_now();
    }
    unreachable!()
}

/// Serves the handshake, offers the frame, and returns whether it was stored. If not, the queue is not enabled yet, or
/// too few descriptors are free.
fn turn(ring: &RxRing, controller: &mut RxController, frame: &[u8]) -> bool
    requires offers { Offers ring.now controller.old }
    requires fits { Fits ring.now frame.now }
    ensures stored { result ≡ true → HasStored ring.now frame.now controller.new.end }
    ensures waits { result ≡ false → Offers ring.now controller.new }
{
    controller.turn_control(ring);
    match controller.offer(ring, frame) {
        Ok(Offer::Stored) => true,
        Ok(Offer::Off | Offer::Held) => false,
        Ok(Offer::Oversize | Offer::Dropped) | Err(_) => unreachable!(),
    }
}
