//! Passes frames through both layers: they are offered to a controller, received and sent on by the drivers, and put
//! onto a wire.
ghost use Rattle.std.specs.Prelude.{◌≡◌, true, length, replicate, IfOk, Ok, OnOk};
ghost use Rattle.ring_model.specs.shared.Handshakes.{is_serving};
ghost use Rattle.tx_ring.specs.Ends.{controller_state};
ghost use Rattle.ring_bench.specs.Forwarding.{CanForward};
ghost use Rattle.ring_bench.specs.Serving.{AreAtWork, HasGone, HasNothing, Serves};
ghost use Rattle.ring_bench.specs.declared.kit.supply.TheConstants.{BYTE};

use crate::kit::{
    BatchPlan, Ends, Forwarder, Patience, Timed, Track, Way, beside, both, meet, now, since,
};
use crate::pass::serving::Device;
use crate::pass::words::Threading;
use anyhow::{Result, bail};
use controller::Wire;
use std::alloc::Global;
use std::rt::Clock;
use std::sync::Wait;
use std::sync::atomic::{AtomicBool, Ordering};
use std::thread::{Promise, Threads};
use std::time::{Duration, Instant};

/// The ends of both rings, and the wire.
#[derive(Drop)]
pub struct Gone {
    pub ends: Ends,
    pub wire: Wire,
}

/// The promise of the controllers' thread: they serve these rings, and store nothing but this frame.
#[derive(Clone, Copy)]
struct ServesOn<'a>(&'a Way);

impl<'a> Promise<Result<Device>> for ServesOn<'a> {
    ghost kept_by = { λ p done. IfOk done (λ d. Serves p.0.now.from p.0.now.to p.0.now.frame.items d) };
}

/// The controllers and the drivers.
#[derive(Drop)]
struct Sides {
    device: Device,
    forwarder: Forwarder,
}

/// Passes the plan's frames through both layers, and returns the time.
pub fn pass_layers<R: Threads + Wait + Clock + Sync>(
    rt: &R,
    alloc: Global,
    planned: (BatchPlan, Threading),
) -> Result<Timed<Gone>>
    ensures { IfOk result (λ p. HasGone planned.0.load.frames (replicate planned.0.load.size BYTE) p.done.ends p.done.wire) }
{
    let (plan, threading) = planned;
    let Track { way, parts } = Track::new(alloc, plan)?;
    let sides = Sides {
        device: Device::new(alloc, parts.rx, parts.tx),
        forwarder: parts.forwarder,
    };
    let passed = pass_run(rt, alloc, &way, plan, threading, sides);
    drop(way);
    passed
}

/// Passes the plan's frames. The time starts when the queues are enabled and the receive ring is full.
fn pass_run<R: Threads + Wait + Clock + Sync>(
    rt: &R,
    alloc: Global,
    way: &Way,
    plan: BatchPlan,
    threading: Threading,
    mut sides: Sides,
) -> Result<Timed<Gone>>
    requires begun { HasNothing way.now.from way.now.to sides.device }
    requires forwards { CanForward way.now.from way.now.to sides.forwarder }
    ensures { IfOk result (λ p. HasGone plan.load.frames way.now.frame.items p.done.ends p.done.wire) }
{
    let start = begin(rt, alloc, way, plan, &mut sides);
    let (start, sides) = both(start, Ok(sides))?;
    let passed = pass_all(rt, way, plan, threading, sides);
    let (sides, spent) = both(passed, since(rt, start))?;
    finish(way, plan, sides, spent)
}

/// Enables both queues and fills the receive ring. Returns the time at the end.
fn begin<R: Clock>(
    rt: &R,
    alloc: Global,
    way: &Way,
    plan: BatchPlan,
    sides: &mut Sides,
) -> Result<Instant>
    requires begun { HasNothing way.now.from way.now.to sides.old.device }
    requires forwards { CanForward way.now.from way.now.to sides.old.forwarder }
    ensures begun { OnOk result (HasNothing way.now.from way.now.to sides.new.device) }
    ensures forwards { OnOk result (CanForward way.now.from way.now.to sides.new.forwarder) }
{
    let Sides { device, forwarder } = sides;
    forwarder.enable(&way.from, &way.to)?;
    device.answer(&way.from, &way.to);
    forwarder.see_enabled(&way.from, &way.to)?;
    forwarder.supply(alloc, &way.from, &way.to, plan.load.ring)?;
    now(rt)
}

/// Checks that all frames are on the wire, and lets the ends meet.
fn finish(way: &Way, plan: BatchPlan, sides: Sides, spent: Duration) -> Result<Timed<Gone>>
    requires { AreAtWork way.now.from way.now.to way.now.frame.items sides.device sides.forwarder }
    ensures { IfOk result (λ p. HasGone plan.load.frames way.now.frame.items p.done.ends p.done.wire) }
{
    let sent = see_all_sent(plan.load.frames, &sides.device);
    let (_, sides) = both(sent, Ok(sides))?;
    let done = close(way, plan, sides);
    Ok(Timed::new(done, plan.load.frames, spent))
}

/// Checks that `frames` frames are on the wire, and that the queue is enabled.
fn see_all_sent(frames: u32, device: &Device) -> Result<()>
    ensures sent { OnOk result (length device.now.wire ≡ frames) }
    ensures serving { OnOk result (is_serving (controller_state device.now.tx) ≡ true) }
{
    if device.wire.len() != frames as usize {
        bail!("not all frames are on the wire");
    }
    if !device.tx.is_serving() {
        bail!("the queue is not enabled");
    }
    Ok(())
}

/// Lets the ends meet.
fn close(way: &Way, plan: BatchPlan, sides: Sides) -> Gone
    requires work { AreAtWork way.now.from way.now.to way.now.frame.items sides.device sides.forwarder }
    requires sent { length sides.device.wire ≡ plan.load.frames }
    requires serving { is_serving (controller_state sides.device.tx) ≡ true }
    ensures { HasGone plan.load.frames way.now.frame.items result.ends result.wire }
{
    let Sides { device, forwarder } = sides;
    let Device { rx, tx, wire } = device;
    let ends = meet(&way.from, &way.to, forwarder, rx.into_end(), tx.into_end());
    Gone { ends, wire }
}

/// Lets both sides work until all frames are on the wire.
fn pass_all<R: Threads + Wait + Sync>(
    rt: &R,
    way: &Way,
    plan: BatchPlan,
    threading: Threading,
    mut sides: Sides,
) -> Result<Sides>
    requires { AreAtWork way.now.from way.now.to way.now.frame.items sides.device sides.forwarder }
    ensures { IfOk result (λ s. AreAtWork way.now.from way.now.to way.now.frame.items s.device s.forwarder) }
{
    match threading {
        Threading::Apart => in_threads(rt, way, plan, sides),
        Threading::Shared => {
            let passed = alone(rt, way, plan, &mut sides);
            let (_, sides) = both(passed, Ok(sides))?;
            Ok(sides)
        }
    }
}

/// Lets both sides work in turn, until all frames are on the wire.
fn alone<R: Wait>(rt: &R, way: &Way, plan: BatchPlan, sides: &mut Sides) -> Result<()>
    requires { AreAtWork way.now.from way.now.to way.now.frame.items sides.old.device sides.old.forwarder }
    ensures { OnOk result (AreAtWork way.now.from way.now.to way.now.frame.items sides.new.device sides.new.forwarder) }
{
    let Sides { device, forwarder } = sides;
    let frames = plan.load.frames;
    let mut left = frames;
    for _ in rt.forever() {
        if device.wire.len() == frames as usize {
            return Ok(());
        }
        left -= device.serve(way, plan, left)?.stored;
        forwarder.forward(&way.from, &way.to)?;
    }
    unreachable!()
}

/// Runs both sides, the controllers in their own thread, and joins it.
fn in_threads<R: Threads + Wait + Sync>(
    rt: &R,
    way: &Way,
    plan: BatchPlan,
    sides: Sides,
) -> Result<Sides>
    requires { AreAtWork way.now.from way.now.to way.now.frame.items sides.device sides.forwarder }
    ensures { IfOk result (λ s. AreAtWork way.now.from way.now.to way.now.frame.items s.device s.forwarder) }
{
    let Sides { device, forwarder } = sides;
    let stop = AtomicBool::new(false);
    let stop = &stop;
    let (device, forwarder) = beside(
        rt,
        ServesOn(way),
        move || serve_all(rt, way, plan, device, stop),
        move || forward_all(rt, way, plan, forwarder, stop),
    )?;
    joined(device, forwarder)
}

/// Returns both sides, or the first error.
fn joined(device: Result<Device>, forwarder: Result<Forwarder>) -> Result<Sides>
    ensures { IfOk result (λ s. (device ≡ Ok s.device) × (forwarder ≡ Ok s.forwarder)) }
{
    let (device, forwarder) = both(device, forwarder)?;
    Ok(Sides { device, forwarder })
}

/// Serves as the controllers' side, and stops the other side if that fails.
fn serve_all<R: Wait>(
    rt: &R,
    way: &Way,
    plan: BatchPlan,
    mut device: Device,
    stop: &AtomicBool,
) -> Result<Device>
    requires { Serves way.now.from way.now.to way.now.frame.items device }
    ensures { IfOk result (λ d. Serves way.now.from way.now.to way.now.frame.items d) }
{
    let served = failing(stop, serve_until(rt, way, plan, &mut device, stop));
    let (_, device) = both(served, Ok(device))?;
    Ok(device)
}

/// Forwards as the drivers' side, and stops the other side if that fails.
fn forward_all<R: Wait>(
    rt: &R,
    way: &Way,
    plan: BatchPlan,
    mut forwarder: Forwarder,
    stop: &AtomicBool,
) -> Result<Forwarder>
    requires { CanForward way.now.from way.now.to forwarder }
    ensures { IfOk result (λ f. CanForward way.now.from way.now.to f) }
{
    let forwarded = failing(stop, forward_until(rt, way, plan, &mut forwarder, stop));
    let (_, forwarder) = both(forwarded, Ok(forwarder))?;
    Ok(forwarder)
}

/// Stops the other side if this one has failed.
fn failing<T>(stop: &AtomicBool, done: Result<T>) -> Result<T>
    ensures { result ≡ done }
{
    if done.is_err() {
        stop.store(true, Ordering::SeqCst);
    }
    done
}

/// Offers the frames and serves the wire, until all frames are on it. After a long idle time it checks whether the other
/// side has failed.
fn serve_until<R: Wait>(
    rt: &R,
    way: &Way,
    plan: BatchPlan,
    device: &mut Device,
    stop: &AtomicBool,
) -> Result<()>
    requires serves { Serves way.now.from way.now.to way.now.frame.items device.old }
    ensures serves { OnOk result (Serves way.now.from way.now.to way.now.frame.items device.new) }
{
    let mut patience = Patience::new();
    let frames = plan.load.frames;
    let mut left = frames;
    for _ in rt.forever() {
        let served = device.serve(way, plan, left)?;
        left -= served.stored;
        if served.stored != 0 || served.sent != 0 {
            patience.reset();
            continue;
        }
        if device.wire.len() == frames as usize {
            return Ok(());
        }
        if patience.wait() && stop.load(Ordering::SeqCst) {
            return Ok(());
        }
    }
    unreachable!()
}

/// Forwards until all frames are sent on. After a long idle time it checks whether the other side has failed.
fn forward_until<R: Wait>(
    rt: &R,
    way: &Way,
    plan: BatchPlan,
    forwarder: &mut Forwarder,
    stop: &AtomicBool,
) -> Result<()>
    requires forwards { CanForward way.now.from way.now.to forwarder.old }
    ensures forwards { OnOk result (CanForward way.now.from way.now.to forwarder.new) }
{
    let mut patience = Patience::new();
    let mut left = plan.load.frames as usize;
    for _ in rt.forever() {
        let moved = forwarder.forward(&way.from, &way.to)?;
        left = left.saturating_sub(moved.sent);
        if left == 0 {
            return Ok(());
        }
        if moved.received != 0 || moved.sent != 0 {
            patience.reset();
            continue;
        }
        if patience.wait() && stop.load(Ordering::SeqCst) {
            return Ok(());
        }
    }
    unreachable!()
}
