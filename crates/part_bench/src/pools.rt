//! The cost of taking a buffer from a pool and giving it back, and of taking a packet from the front of a list.

mod lists;
mod timing;

use crate::plan::each;
use anyhow::Result;
use lists::compared;
use part_tests::{BATCH, Job, Manner};
use std::alloc::Global;
use std::rt::Clock;
use std::sync::Wait;
use std::thread::Threads;
use timing::timed;

/// Prints the cost of a buffer.
pub fn run_pool<R>(rt: &R, alloc: Global, threads: u32, buffers: u32) -> Result<()>
where
    R: Threads + Wait + Clock + Print + Sync,
{
    let batches = buffers.div_ceil(BATCH as u32);
    let singles = Job {
        manner: Manner::Single,
        turns: buffers,
    };
    let bulks = Job {
        manner: Manner::Bulk,
        turns: batches,
    };
    let single = timed(rt, alloc, threads, singles)?;
    let bulk = timed(rt, alloc, threads, bulks)?;
    println!(rt; "threads {threads}")?;
    println!(rt; "single ns/buffer {:.1}", each(single, f64::from(buffers)))?;
    println!(rt;
        "bulk ns/buffer {:.1}",
        each(bulk, f64::from(batches) * 32.0)
    )?;
    Ok(())
}

/// Prints the cost of a packet.
pub fn run_lists<R: Clock + Print>(rt: &R, packets: u32) -> Result<()> {
    let (lean, rows) = compared(rt, packets)?;
    println!(rt;
        "list of packets: {:.1} ns/packet",
        each(lean, f64::from(packets))
    )?;
    println!(rt;
        "list of rows of buffers: {:.1} ns/packet",
        each(rows, f64::from(packets))
    )?;
    Ok(())
}
