//! Makes a receive ring, runs each end in its own thread, and measures the time.
ghost use Rattle.std.specs.Prelude.{◌≡◌, ◌≤◌, length, replicate, IfOk};
ghost use Rattle.limits.specs.RingLength.{IsRingLength};
ghost use Rattle.rx_ring.specs.Calls.{IsFreshDriver};
ghost use Rattle.ring_bench.specs.Enabling.{CanServe};
ghost use Rattle.ring_bench.specs.Storing.{StoredOnly};
ghost use Rattle.ring_bench.specs.declared.kit.supply.TheConstants.{BYTE};
ghost use Rattle.ring_bench.specs.Passing.{CanAsk, CanPass, HasPassed, TookAll};

use crate::kit::{BatchPlan, Run, Timed, beside, both, frame_of, now, since, stock_for};
use crate::rx::storing::store_all;
use crate::rx::taking::{Reception, take_all};
use anyhow::Result;
use buffer_pool::Stock;
use rx_ring::{DriverEnd, RxControllerEnd, RxDriverEnd, RxRing, meet_rx};
use std::alloc::Global;
use std::rt::Clock;
use std::sync::Wait;
use std::thread::{Promise, Threads};
use std::time::Duration;

/// The two ends of a ring.
#[derive(Drop)]
pub struct Ends {
    pub driver: RxDriverEnd,
    pub controller: RxControllerEnd,
}

/// A ring with a buffer posted at each place, and its ends.
#[derive(Drop)]
struct Track {
    ring: RxRing,
    ends: Ends,
}

/// A run of this ring.
pub type RxRun<'a> = Run<'a, RxRing, BatchPlan>;

/// The results of both threads.
#[derive(Drop)]
struct Passage {
    reception: Reception,
    controller: RxControllerEnd,
}

/// The promise of the controller's thread: it stores nothing but this frame at this ring.
#[derive(Clone, Copy)]
struct StoresOnly<'a>(&'a RxRing, &'a [u8]);

impl<'a> Promise<RxControllerEnd> for StoresOnly<'a> {
    ghost kept_by = { λ p controller. StoredOnly p.0.now p.1.now controller };
}

/// Passes the plan's frames through a ring. Returns the time from the start of the controller's thread. The driver runs
/// in the caller's thread.
pub fn pass<R: Threads + Wait + Clock + Sync>(
    rt: &R,
    alloc: Global,
    plan: BatchPlan,
) -> Result<Timed<Ends>>
    ensures { IfOk result (λ p. HasPassed plan.load.frames (replicate plan.load.size BYTE) p.done.driver p.done.controller) }
{
    let frame = frame_of(alloc, plan.load.size)?;
    let Track { ring, ends } = supplied(alloc, plan.load.ring)?;
    let run = Run::new(&ring, frame.as_slice(), plan);
    let passed = pass_run(rt, run, ends);
    drop(ring);
    passed
}

/// Makes a ring of `size` descriptors, with a buffer posted at each free place.
fn supplied(alloc: Global, size: u32) -> Result<Track>
    ensures size { IfOk result (λ t. IsRingLength t.ring.slots) }
    ensures driver { IfOk result (λ t. CanAsk t.ring t.ends.driver) }
    ensures controller { IfOk result (λ t. CanServe t.ring t.ends.controller) }
{
    let mut stock = stock_for(alloc, size)?;
    let (ring, mut driver, controller) = RxRing::new(alloc, size)?;
    post_all(&ring, &mut driver, &mut stock);
    let ends = Ends { driver, controller };
    Ok(Track { ring, ends })
}

/// Passes the run's frames, and returns the time.
fn pass_run<R: Threads + Wait + Clock + Sync>(
    rt: &R,
    run: RxRun<'_>,
    ends: Ends,
) -> Result<Timed<Ends>>
    requires { CanPass run.ring.now run.frame.now ends.driver ends.controller }
    ensures { IfOk result (λ p. HasPassed run.entry.plan.load.frames run.entry.frame.now p.done.driver p.done.controller) }
{
    let (start, ends) = both(now(rt), Ok(ends))?;
    let passed = in_threads(rt, run, ends);
    let (passage, spent) = both(passed, since(rt, start))?;
    finish(run, passage, spent)
}

/// Lets the ends meet, and checks that the frames taken are the frames stored.
fn finish(run: RxRun<'_>, passage: Passage, spent: Duration) -> Result<Timed<Ends>>
    requires driver { TookAll run.ring.now run.plan.load.frames passage.reception.driver }
    requires controller { StoredOnly run.ring.now run.frame.now passage.controller }
    ensures { IfOk result (λ p. HasPassed run.entry.plan.load.frames run.entry.frame.now p.done.driver p.done.controller) }
{
    let tally = passage.reception.tally;
    let done = meet(run, passage);
    Timed::checked(tally, run.frame, run.plan.load.frames, done, spent)
}

/// Lets the ends meet.
fn meet(run: RxRun<'_>, passage: Passage) -> Ends
    requires driver { TookAll run.ring.now run.plan.load.frames passage.reception.driver }
    requires controller { StoredOnly run.ring.now run.frame.now passage.controller }
    ensures { HasPassed run.entry.plan.load.frames run.entry.frame.now result.driver result.controller }
{
    let Passage {
        reception,
        mut controller,
    } = passage;
    let mut driver = reception.driver;
    meet_rx(run.ring, &mut driver, &mut controller);
    Ends { driver, controller }
}

/// Runs both ends, the controller's in its own thread, and joins it.
fn in_threads<R: Threads + Wait + Sync>(rt: &R, run: RxRun<'_>, ends: Ends) -> Result<Passage>
    requires { CanPass run.ring.now run.frame.now ends.driver ends.controller }
    ensures driver { IfOk result (λ p. TookAll run.entry.ring.now run.entry.plan.load.frames p.reception.driver) }
    ensures controller { IfOk result (λ p. StoredOnly run.entry.ring.now run.entry.frame.now p.controller) }
{
    let Run { ring, frame, plan } = run;
    let Ends { driver, controller } = ends;
    let (controller, reception) = beside(
        rt,
        StoresOnly(ring, frame),
        move || store_all(rt, ring, controller, frame, plan.load.frames),
        move || -> Reception
            requires { CanAsk ring.now driver }
            ensures { TookAll ring.entry.now plan.load.frames result.driver }
        { take_all(rt, Run::new(ring, frame, plan), driver) },
    )?;
    Ok(Passage {
        reception,
        controller,
    })
}

/// Posts a buffer of the stock at each free place, and publishes them.
fn post_all(ring: &RxRing, driver: &mut RxDriverEnd, stock: &mut Stock)
    requires own { driver.old.table ≡ ring.now }
    requires fresh { IsFreshDriver driver.old }
    requires stock { ring.now.slots ≤ length stock.old.numbers }
    ensures { CanAsk ring.now driver.new }
{
    for _ in 0..driver.room() {
        let Some(buf) = stock.take() else {
            unreachable!()
        };
        driver.post(ring, buf);
    }
    driver.publish(ring);
}
