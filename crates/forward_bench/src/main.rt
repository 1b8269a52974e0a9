//! The program `forward_bench`: the cost of forwarding a frame, and the latency of a frame.
//! Depends on `forwarder`, the crates below it, and `anyhow`.
//! Guarantees what a measurement needs to run a flow, and nothing else.
//!
//! It forwards a script of frames of one size, shared out to the flows in turn, and keeps the wires: the time is that of
//! the whole call, which also makes the pool and the rings. Or it offers a few frames to each flow again and again, and
//! empties the wires: the time is that of the workers' work alone. Or it offers them to one flow at a constant rate: the
//! latency of a frame is the time from its first offer until its controller has sent it.
#![tactic(auto)]

mod hot;
mod hot_flow;
mod latency;
mod pace;
mod sides;
mod workload;

use anyhow::{Result, ensure};
use flows::{Ended, FlowReport};
use forwarder::{Config, Report, forward};
use forwarding::Open;
use hot::run_hot;
use latency::print_latency;
use std::alloc::Global;
use std::env;
use std::process::ExitCode;
use std::rt::Clock;
use std::sync::Wait;
use std::thread::Threads;
use std::time::{Duration, Instant};
use wire_script::Script;
use workload::Workload;

const USAGE: &str =
    "Usage: forward_bench --ring N --frames N --size N --batch N --flows N --workers N --keep N
       forward_bench --latency N --ring N --size N --batch N

Forwards frames and prints the cost of a frame.

With --latency, forwards frames over one flow with one worker on each side, first at the maximum rate, and then
at 10, 50, 90 and 100 % of it. Prints a line for each of these four rates: the frames per second, and the
median, the 99th percentile and the maximum of the latency in nanoseconds. The latency of a frame is the time
from its first offer until it is on the wire.

  --ring     descriptors of each ring, a power of two from 8 to 4096
  --frames   number of frames of all flows together, 1 to 1000000
  --size     bytes of each frame, 14 to 15000
  --batch    the most packets that a driver takes at once, 1 to 32
  --flows    number of flows that have frames: 1, 2, 4, 8 or 16
  --workers  worker threads on each side, 1 to the number of flows; with one flow 1 or 2
  --keep     1: the frames of a script, wires are kept; 0: 256 frames again and again, wires are dropped
  --latency  number of frames at each rate, 1 to 1000000

Examples:
  forward_bench --ring 512 --frames 200000 --size 60 --batch 32 --flows 2 --workers 1 --keep 1
  forward_bench --latency 200000 --ring 512 --size 60 --batch 32";

/// Whether all frames of a flow were sent.
fn is_whole(flow: &FlowReport, count: u64) -> bool {
    let counts = [
        flow.tally.offered,
        flow.tally.stored,
        flow.driven.taken,
        flow.driven.posted,
        flow.wire.len() as u64,
    ];
    counts == [count; 5] && flow.ended == Ended::Drained
}

/// Whether all frames of the workload were sent, each on its flow.
fn all_went(report: &Report, workload: &Workload) -> bool {
    let mut rest = u64::from(workload.frames);
    for (flow, k) in report.flows.iter().zip(0..workload.flows) {
        let count = workload.frames_of(k as usize);
        if !is_whole(flow, count) {
            return false;
        }
        rest = rest.saturating_sub(count);
    }
    rest == 0
}

/// Forwards the workload as a script, and returns the time.
fn run_script<R: Threads + Wait + Clock + Sync>(
    rt: &R,
    alloc: Global,
    workload: &Workload,
) -> Result<Duration> {
    let script: Script = workload.script(alloc)?;
    let config: Config = workload.config();
    let start = Instant::now(rt)?;
    let report = forward(rt, alloc, &script, &config, &Open)?;
    let spent = start.elapsed(rt)?;
    ensure!(all_went(&report, workload), "not all frames were sent");
    Ok(spent)
}

/// Forwards the workload, and prints the cost of a frame.
fn print_cost<R: Threads + Wait + Clock + Sync + Print>(
    rt: &R,
    alloc: Global,
    workload: &Workload,
) -> Result<()> {
    let spent = if workload.keeps {
        run_script(rt, alloc, workload)?
    } else {
        run_hot(rt, alloc, workload)?
    };
    let spent = spent.as_secs_f64();
    let frames = f64::from(workload.frames);
    println!(rt; "frames {}", workload.frames)?;
    println!(rt; "ns/frame {:.1}", spent * 1e9 / frames)?;
    println!(rt; "Mframes/s {:.3}", frames / spent / 1e6)?;
    Ok(())
}

fn main(rt: HostRuntime) -> Result<ExitCode> {
    let words: Vec<String> = env::args(&rt)?.skip(1).collect(rt.alloc())?;
    if let Some(workload) = Workload::of(words.as_slice()) {
        print_cost(&rt, rt.alloc(), &workload)?;
        return Ok(ExitCode::SUCCESS);
    }
    if let Some(workload) = Workload::of_latency(words.as_slice()) {
        print_latency(&rt, rt.alloc(), rt, &workload)?;
        return Ok(ExitCode::SUCCESS);
    }
    eprintln!(rt; "{USAGE}")?;
    Ok(ExitCode::from(2))
}
