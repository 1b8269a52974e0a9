//! The program `part_bench`: the cost of parts other than the rings. Scripts in `bench/` compare it with plain Rust.
//! Depends on the measured crates, `part_tests` and `anyhow`.
//! Guarantees nothing.
//!
//! With `--writes` one thread writes a counter cell, while `--readers` threads read it until they see the last write.
//! The time is that of all threads. With `--reads` one thread reads a cell without a writer.
//!
//! With `--threads` each thread takes `--buffers` buffers from one pool and gives them back, first one by one, then in
//! batches of 32 through a stash. The time is that of all threads, divided by the buffers of one thread. `--packets`
//! measures taking a packet from the front of a list of 32.
//!
//! `script` makes a script of FRAMES frames of BYTES bytes each, and reads and writes it ROUNDS times; `capture` does
//! the same with a capture. They print by how many bytes per frame reading enlarges the process, and the slowest and
//! the fastest round in MB of text per second of processor time.
#![tactic(auto)]

mod counting;
mod plan;
mod pools;
mod texts;

use anyhow::Result;
use counting::{run_reads, run_writes};
use plan::{Plan, plan_of};
use pools::{run_lists, run_pool};
use std::env;
use std::process::ExitCode;
use std::rt::{Clock, Files};
use std::sync::Wait;
use std::thread::Threads;
use std::time::CpuClock;
use texts::run_texts;

const USAGE: &str = "Usage: part_bench --writes N --readers N
       part_bench --reads N
       part_bench --threads N --buffers N
       part_bench --packets N
       part_bench script|capture FRAMES BYTES ROUNDS

Measures writing and reading a counter cell, taking buffers from a pool and giving them back, taking packets
from the front of a list of 32, or reading and writing a script or a capture.

  --writes   how many times one thread writes the cell, from 1
  --readers  how many threads read it meanwhile, 0 to 3
  --reads    how many times one thread reads the cell without a writer, from 1
  --threads  how many threads use the pool: 1, 2 or 4
  --buffers  how many buffers each thread takes and gives back, from 1
  --packets  how many packets are taken from the list, from 1
  FRAMES     number of frames, 1 to 1000000
  BYTES      bytes of each frame, 14 to 15000
  ROUNDS     how many times the script or capture is read and written, from 1

Examples:
  part_bench --writes 1000000 --readers 2
  part_bench --threads 4 --buffers 3200000
  part_bench capture 1000000 60 5";

fn carry_out<R>(rt: &R, plan: Plan) -> Result<()>
where
    R: Threads + Wait + Clock + CpuClock + Files + Print + AllocGlobal + Sync,
{
    match plan {
        Plan::Writes { writes, readers } => run_writes(rt, rt.alloc(), writes, readers),
        Plan::Reads { reads } => run_reads(rt, rt.alloc(), reads),
        Plan::Pool { threads, buffers } => run_pool(rt, rt.alloc(), threads, buffers),
        Plan::Lists { packets } => run_lists(rt, packets),
        Plan::Texts(plan) => run_texts(rt, plan),
    }
}

fn main(rt: HostRuntime) -> Result<ExitCode> {
    let words: Vec<String> = env::args(&rt)?.skip(1).collect(rt.alloc())?;
    let Some(plan) = plan_of(words.as_slice()) else {
        eprintln!(rt; "{USAGE}")?;
        return Ok(ExitCode::from(2));
    };
    carry_out(&rt, plan)?;
    Ok(ExitCode::SUCCESS)
}
