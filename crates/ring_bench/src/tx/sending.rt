//! Makes a transmit ring, runs each end in its own thread, and measures the time.
ghost use Rattle.std.specs.Prelude.{◌≡◌, ◌≤◌, [], length, replicate, IfOk};
ghost use Rattle.buffer_pool.specs.Stocked.{Shares};
ghost use Rattle.ring_bench.specs.Enabling.{CanServe};
ghost use Rattle.ring_bench.specs.Fetching.{HasServed};
ghost use Rattle.ring_bench.specs.declared.kit.supply.TheConstants.{BYTE};
ghost use Rattle.ring_bench.specs.Sending.{CanEnable, CanSend, HasSent, PostedAll};

use crate::kit::{Run, Timed, beside, both, frame_of, now, since, stock_for};
use crate::tx::fetching::{Transmission, send_all};
use crate::tx::posting::{Posted, post_all};
use crate::tx::words::TxPlan;
use anyhow::{Result, ensure};
use buffer_pool::Stock;
use std::alloc::Global;
use std::rt::Clock;
use std::sync::Wait;
use std::thread::{Promise, Threads};
use std::time::Duration;
use tx_ring::{Completion, TxControllerEnd, TxDriverEnd, TxRing, meet_tx};

/// The two ends of a ring.
#[derive(Drop)]
pub struct Ends {
    pub driver: TxDriverEnd,
    pub controller: TxControllerEnd,
}

/// The two ends of a ring, and the driver's buffers.
#[derive(Drop)]
struct Sides {
    ends: Ends,
    stock: Stock,
}

/// A ring, and the ends and buffers with which its threads begin.
#[derive(Drop)]
struct Track {
    ring: TxRing,
    sides: Sides,
}

/// A run of this ring.
type TxRun<'a> = Run<'a, TxRing, TxPlan>;

/// The results of both threads.
#[derive(Drop)]
struct Dispatch {
    posted: Posted,
    sent: Transmission,
}

/// The promise of the controller's thread: it serves this ring, reports in this way, and owes no report.
#[derive(Clone, Copy)]
struct Serves<'a>(&'a TxRing, Completion);

impl<'a> Promise<Transmission> for Serves<'a> {
    ghost kept_by = { λ p done. HasServed p.0.now p.1 done.controller };
}

/// Sends the plan's frames through a ring. Returns the time from the start of the controller's thread. The driver runs
/// in the caller's thread.
pub fn send_frames<R: Threads + Wait + Clock + Sync>(
    rt: &R,
    alloc: Global,
    plan: TxPlan,
) -> Result<Timed<Ends>>
    ensures { IfOk result (λ p. HasSent plan (replicate plan.load.size BYTE) p.done.driver p.done.controller) }
{
    ensure!(plan.report != 0, "report");
    let frame = frame_of(alloc, plan.load.size)?;
    let Track { ring, sides } = supplied(alloc, plan)?;
    let run = Run::new(&ring, frame.as_slice(), plan);
    let sent = send_run(rt, run, sides);
    drop(ring);
    sent
}

/// Makes the plan's ring, and a stock of at least as many buffers as it has descriptors.
fn supplied(alloc: Global, plan: TxPlan) -> Result<Track>
    ensures driver { IfOk result (λ t. CanEnable t.ring t.sides.ends.driver) }
    ensures controller { IfOk result (λ t. CanServe t.ring t.sides.ends.controller) }
    ensures ways { IfOk result (λ t. (t.sides.ends.driver.completion ≡ plan.completion) × (t.sides.ends.controller.completion ≡ plan.completion)) }
    ensures full { IfOk result (λ t. Shares t.sides.stock []) }
    ensures enough { IfOk result (λ t. t.ring.slots ≤ length t.sides.stock.numbers) }
{
    let stock = stock_for(alloc, plan.load.ring)?;
    let (ring, driver, controller) = TxRing::new_with(alloc, plan.load.ring, plan.completion)?;
    let ends = Ends { driver, controller };
    let sides = Sides { ends, stock };
    Ok(Track { ring, sides })
}

/// Sends the run's frames, and returns the time.
fn send_run<R: Threads + Wait + Clock + Sync>(
    rt: &R,
    run: TxRun<'_>,
    sides: Sides,
) -> Result<Timed<Ends>>
    requires { CanSend run.ring.now run.plan run.frame.now sides.ends.driver sides.ends.controller sides.stock }
    ensures { IfOk result (λ p. HasSent run.entry.plan run.entry.frame.now p.done.driver p.done.controller) }
{
    let (start, sides) = both(now(rt), Ok(sides))?;
    let sent = in_threads(rt, run, sides);
    let (dispatch, spent) = both(sent, since(rt, start))?;
    finish(run, dispatch, spent)
}

/// Lets the ends meet, and checks that the frames sent are the frames posted.
fn finish(run: TxRun<'_>, dispatch: Dispatch, spent: Duration) -> Result<Timed<Ends>>
    requires driver { PostedAll run.ring.now run.plan run.frame.now dispatch.posted.driver }
    requires controller { HasServed run.ring.now run.plan.completion dispatch.sent.controller }
    ensures { IfOk result (λ p. HasSent run.entry.plan run.entry.frame.now p.done.driver p.done.controller) }
{
    let tally = dispatch.sent.tally;
    let done = meet(run, dispatch);
    Timed::checked(tally, run.frame, run.plan.load.frames, done, spent)
}

/// Lets the ends meet.
fn meet(run: TxRun<'_>, dispatch: Dispatch) -> Ends
    requires driver { PostedAll run.ring.now run.plan run.frame.now dispatch.posted.driver }
    requires controller { HasServed run.ring.now run.plan.completion dispatch.sent.controller }
    ensures { HasSent run.entry.plan run.entry.frame.now result.driver result.controller }
{
    let Dispatch { posted, sent } = dispatch;
    let (mut driver, mut controller) = (posted.driver, sent.controller);
    meet_tx(run.ring, &mut driver, &mut controller);
    Ends { driver, controller }
}

/// Runs both ends, the controller's in its own thread, and joins it.
fn in_threads<R: Threads + Wait + Sync>(rt: &R, run: TxRun<'_>, sides: Sides) -> Result<Dispatch>
    requires { CanSend run.ring.now run.plan run.frame.now sides.ends.driver sides.ends.controller sides.stock }
    ensures driver { IfOk result (λ d. PostedAll run.entry.ring.now run.entry.plan run.entry.frame.now d.posted.driver) }
    ensures controller { IfOk result (λ d. HasServed run.entry.ring.now run.entry.plan.completion d.sent.controller) }
{
    let Run { ring, frame, plan } = run;
    let Sides { ends, stock } = sides;
    let Ends { driver, controller } = ends;
    let (sent, posted) = beside(
        rt,
        Serves(ring, plan.completion),
        move || send_all(rt, ring, controller, plan.load.frames),
        move || post_all(rt, ring, driver, stock, frame, plan),
    )?;
    Ok(Dispatch { posted, sent })
}
