//! Passes frames through a receive ring, both drivers and a transmit ring, on one thread. The device uses the rings'
//! ends directly.
ghost use Rattle.std.specs.Prelude.{◌<◌, ◌≤◌, length, replicate, IfOk, OnOk};
ghost use Rattle.limits.specs.RingLength.{IsRingLength};
ghost use Rattle.ring_bench.specs.Copies.{IsFrameLength};
ghost use Rattle.ring_bench.specs.Relaying.{CanBegin, CanRelay, HasRelayed, RelayedAll};
ghost use Rattle.ring_bench.specs.Storing.{CanStore};
ghost use Rattle.ring_bench.specs.Fetching.{CanFetch};
ghost use Rattle.ring_bench.specs.declared.kit.supply.TheConstants.{BYTE};

use crate::kit::{
    BatchPlan, Ends, Forwarder, Tally, Timed, Track, Way, answer_enabling, both, meet, now, send,
    since, store_next,
};
use anyhow::Result;
use rx_ring::{ControllerEnd, RxControllerEnd, RxRing};
use std::alloc::Global;
use std::rt::Clock;
use std::sync::Wait;
use std::time::Duration;
use tx_ring::{TxControllerEnd, TxRing};

/// The device's side, and a tally of the frames that it sent.
#[derive(Drop)]
struct Device {
    rx: RxControllerEnd,
    tx: TxControllerEnd,
    tally: Tally,
}

/// The device and the drivers.
#[derive(Drop)]
struct Sides {
    device: Device,
    forwarder: Forwarder,
}

/// Relays the plan's frames from one ring to another, and returns the time.
pub fn relay<R: Wait + Clock>(rt: &R, alloc: Global, plan: BatchPlan) -> Result<Timed<Ends>>
    ensures { IfOk result (λ r. HasRelayed plan.load.frames (replicate plan.load.size BYTE) r.done) }
{
    let Track { way, parts } = Track::new(alloc, plan)?;
    let sides = Sides {
        device: Device {
            rx: parts.rx,
            tx: parts.tx,
            tally: Tally::new(),
        },
        forwarder: parts.forwarder,
    };
    let relayed = relay_run(rt, alloc, &way, plan, sides);
    drop(way);
    relayed
}

/// Relays the plan's frames, and lets the ends meet.
fn relay_run<R: Wait + Clock>(
    rt: &R,
    alloc: Global,
    way: &Way,
    plan: BatchPlan,
    mut sides: Sides,
) -> Result<Timed<Ends>>
    requires { CanBegin way.now.from way.now.to way.now.frame.items sides.device.rx sides.device.tx sides.forwarder }
    ensures { IfOk result (λ r. HasRelayed plan.load.frames way.now.frame.items r.done) }
{
    let spent = timed(rt, alloc, way, plan, &mut sides);
    let (spent, sides) = both(spent, Ok(sides))?;
    let done = finish(way, plan, sides);
    Ok(Timed::new(done, plan.load.frames, spent))
}

/// Enables both queues, and fills the receive ring.
fn begin<R: Wait>(
    rt: &R,
    alloc: Global,
    way: &Way,
    plan: BatchPlan,
    sides: &mut Sides,
) -> Result<()>
    requires { CanBegin way.now.from way.now.to way.now.frame.items sides.old.device.rx sides.old.device.tx sides.old.forwarder }
    ensures { OnOk result (CanRelay way.now.from way.now.to way.now.frame.items sides.new.device.rx sides.new.device.tx sides.new.forwarder) }
{
    sides.forwarder.enable(&way.from, &way.to)?;
    answer_enabling(rt, &way.from, &mut sides.device.rx);
    answer_enabling(rt, &way.to, &mut sides.device.tx);
    sides.forwarder.see_enabled(&way.from, &way.to)?;
    sides
        .forwarder
        .supply(alloc, &way.from, &way.to, plan.load.ring)
}

/// Relays all frames, and checks that the frames sent are the frames stored. Returns the time, which starts when the
/// queues are enabled and the receive ring is full.
fn timed<R: Wait + Clock>(
    rt: &R,
    alloc: Global,
    way: &Way,
    plan: BatchPlan,
    sides: &mut Sides,
) -> Result<Duration>
    requires { CanBegin way.now.from way.now.to way.now.frame.items sides.old.device.rx sides.old.device.tx sides.old.forwarder }
    ensures { OnOk result (RelayedAll plan.load.frames way.now.from way.now.to way.now.frame.items sides.new.device.rx sides.new.device.tx sides.new.forwarder) }
{
    begin(rt, alloc, way, plan, sides)?;
    let start = now(rt)?;
    relay_all(rt, way, plan, sides)?;
    let spent = since(rt, start)?;
    sides
        .device
        .tally
        .check(way.frame.as_slice(), plan.load.frames)?;
    Ok(spent)
}

/// Lets the ends meet.
fn finish(way: &Way, plan: BatchPlan, sides: Sides) -> Ends
    requires { RelayedAll plan.load.frames way.now.from way.now.to way.now.frame.items sides.device.rx sides.device.tx sides.forwarder }
    ensures { HasRelayed plan.load.frames way.now.frame.items result }
{
    let Sides { device, forwarder } = sides;
    meet(&way.from, &way.to, forwarder, device.rx, device.tx)
}

/// Stores, forwards and sends in turn, until all frames of the plan are sent.
fn relay_all<R: Wait>(rt: &R, way: &Way, plan: BatchPlan, sides: &mut Sides) -> Result<()>
    requires { CanRelay way.now.from way.now.to way.now.frame.items sides.old.device.rx sides.old.device.tx sides.old.forwarder }
    ensures { OnOk result (RelayedAll plan.load.frames way.now.from way.now.to way.now.frame.items sides.new.device.rx sides.new.device.tx sides.new.forwarder) }
{
    let Sides { device, forwarder } = sides;
    let mut to_store = plan.load.frames;
    let mut to_send = plan.load.frames as usize;
    for _ in rt.forever() {
        if to_send == 0 {
            return Ok(());
        }
        let most = plan.batch.min(to_store);
        to_store -= store_more(&way.from, &mut device.rx, way.frame.as_slice(), most);
        let moved = forwarder.forward(&way.from, &way.to)?;
        send_ready(&way.to, &mut device.tx, &mut device.tally);
        to_send = to_send.saturating_sub(moved.sent);
    }
    unreachable!()
}

/// Stores the frame while descriptors are free, at most `most` times. Returns how often.
#[inline]
fn store_more(ring: &RxRing, controller: &mut RxControllerEnd, frame: &[u8], most: u32) -> u32
    requires size { IsRingLength ring.now.slots }
    requires can { CanStore ring.now frame.now controller.old }
    requires frame { IsFrameLength (length frame.now) }
    ensures can { CanStore ring.now frame.now controller.new }
    ensures most { result ≤ most }
{
    for stored in 0..most {
        if !store_next(ring, controller, frame) {
            return stored;
        }
    }
    most
}

/// Sends the frames that are ready.
#[inline]
fn send_ready(ring: &TxRing, controller: &mut TxControllerEnd, tally: &mut Tally)
    requires can { CanFetch ring.now controller.old }
    ensures can { CanFetch ring.now controller.new }
{
    for _ in 0..controller.look(ring) {
        send(ring, controller, tally);
    }
}
