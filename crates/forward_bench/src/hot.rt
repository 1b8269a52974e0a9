//! Forwards a few frames on each flow again and again, and empties the wires.
ghost use Rattle.settings.specs.Configs.{IsLawful};

use crate::hot_flow::HotFlow;
use crate::pace::Pace;
use crate::sides::make_sides;
use crate::workload::Workload;
use anyhow::{Context, Result, ensure};
use flows::{DriverFlow, Served, serve_flows};
use forwarder::{Config, make_rings};
use forwarding::Open;
use pool::Pool;
use std::alloc::Global;
use std::rt::Clock;
use std::sync::Wait;
use std::thread::Threads;
use std::time::{Duration, Instant};

/// The number of different frames that are offered to a flow.
const FRAMES: usize = 256;

/// Whether all frames of a flow were stored, taken, posted and sent.
fn all_went(driver: &DriverFlow<'_>, controller: &HotFlow<'_>, count: u64) -> bool {
    let (tally, sent) = controller.counts();
    let counts = driver.counts();
    [tally.stored, counts.taken, counts.posted, sent] == [count; 4]
}

/// Whether all frames of the workload were sent, each on its flow.
fn is_whole(served: &Served<DriverFlow<'_>, HotFlow<'_>>, workload: &Workload) -> bool {
    let sides = served.drivers.iter().zip(served.controllers.iter());
    let mut rest = u64::from(workload.frames);
    for ((driver, controller), number) in sides.zip(0..usize::MAX) {
        let count = workload.frames_of(number);
        if !all_went(driver, controller, count) {
            return false;
        }
        rest = rest.saturating_sub(count);
    }
    rest == 0 && served.refusal.is_none()
}

/// Makes a pool, and the rings and both sides of each flow. The first flow has this pace. Workers serve the flows as in
/// the forwarder. Returns the time of their work, from their start to the last one's end, and the pace.
fn forward_hot<R: Threads + Wait + Clock + Sync>(
    rt: &R,
    alloc: Global,
    workload: &Workload,
    config: &Config,
    frames: &[Vec<u8>],
    pace: Option<Pace>,
) -> Result<(Duration, Option<Pace>)>
    requires { IsLawful config.now }
{
    let workers = config.workers as usize;
    let (pool, mut pass) = Pool::new(rt, alloc, config.buffers)?;
    let (flow_rings, ends) = make_rings(alloc, config)?;
    let sides = make_sides(
        rt,
        alloc,
        workload,
        config,
        frames,
        pace,
        &flow_rings,
        ends,
        &pool,
        &mut pass,
    )?;
    let start = Instant::now(rt)?;
    let served = serve_flows(rt, alloc, &Open, sides.drivers, sides.controllers, workers);
    let spent = start.elapsed(rt)?;
    ensure!(is_whole(&served, workload), "not all frames were sent");
    let first = served.controllers.into_iter().next();
    Ok((spent, first.and_then(HotFlow::into_pace)))
}

/// Forwards the workload by hot flows, the first with this pace. Returns the time of the workers' work, and the pace.
fn run<R: Threads + Wait + Clock + Sync>(
    rt: &R,
    alloc: Global,
    workload: &Workload,
    pace: Option<Pace>,
) -> Result<(Duration, Option<Pace>)> {
    let config = workload.config();
    ensure!(config.is_lawful(), "the configuration is not valid");
    let frames = workload.bytes(alloc, FRAMES)?;
    forward_hot(rt, alloc, workload, &config, &frames, pace)
}

/// Forwards the workload by hot flows, and returns the time of the workers' work.
pub(crate) fn run_hot<R: Threads + Wait + Clock + Sync>(
    rt: &R,
    alloc: Global,
    workload: &Workload,
) -> Result<Duration> {
    let (spent, _) = run(rt, alloc, workload, None)?;
    Ok(spent)
}

/// Forwards the workload by hot flows, the first one at a pace. Returns the time of the workers' work, and the latencies
/// of the first flow's frames, the shortest first.
pub(crate) fn run_paced<R: Threads + Wait + Clock + Sync>(
    rt: &R,
    alloc: Global,
    workload: &Workload,
    pace: Pace,
) -> Result<(Duration, Vec<Duration>)> {
    let (spent, pace) = run(rt, alloc, workload, Some(pace))?;
    let pace = pace.context("there is no flow")?;
    Ok((spent, pace.into_latencies()))
}
