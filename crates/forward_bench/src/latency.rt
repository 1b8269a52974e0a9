//! Measures the latency of frames at several rates.

use crate::hot::{run_hot, run_paced};
use crate::pace::Pace;
use crate::workload::Workload;
use anyhow::Result;
use std::alloc::Global;
use std::rt::Clock;
use std::sync::Wait;
use std::thread::Threads;
use std::time::Duration;

/// The rates of the runs, in percent of the maximum rate.
const RATES: [u32; 4] = [10, 50, 90, 100];

/// The time between two frames at `rate` percent of the rate of `frames` frames in `spent`.
fn gap_at(rate: u32, frames: u32, spent: Duration) -> Duration {
    let parts = frames.saturating_mul(rate).max(1);
    spent.saturating_mul(100) / parts
}

/// The least time that is at least as long as `percent` percent of the times, in nanoseconds; 0 of no times.
fn percentile(sorted: &[Duration], percent: usize) -> u128 {
    let rank = sorted.len().saturating_mul(percent).div_ceil(100);
    let time = sorted.get(rank.saturating_sub(1)).copied();
    time.unwrap_or(Duration::ZERO).as_nanos()
}

/// Forwards the workload at the maximum rate, and then at a part of it, again and again. Prints the latencies of each
/// rate.
pub(crate) fn print_latency<R: Threads + Wait + Clock + Sync + Print>(
    rt: &R,
    alloc: Global,
    clock: HostRuntime,
    workload: &Workload,
) -> Result<()> {
    let fastest = run_hot(rt, alloc, workload)?;
    for rate in RATES {
        let gap = gap_at(rate, workload.frames, fastest);
        let pace = Pace::new(alloc, clock, gap, workload.frames as usize)?;
        let (spent, latencies) = run_paced(rt, alloc, workload, pace)?;
        let offered = f64::from(workload.frames) / spent.as_secs_f64() / 1e6;
        let sorted = latencies.as_slice();
        let (median, most) = (percentile(sorted, 50), percentile(sorted, 100));
        let p99 = percentile(sorted, 99);
        println!(rt;
            "rate {rate} % offered {offered:.3} Mframes/s median {median} p99 {p99} max {most}"
        )?;
    }
    Ok(())
}
