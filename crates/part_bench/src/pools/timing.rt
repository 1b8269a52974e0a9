//! Makes a pool, and times its threads.
use anyhow::Result;
use part_tests::{Job, in_two, share_out, work};
use pool::{Pool, WHOLE_SHARE};
use std::alloc::Global;
use std::rt::Clock;
use std::sync::Wait;
use std::thread::Threads;
use std::time::{Duration, Instant};

/// The buffers of the pool: more than all threads take at once.
const BUFFERS: u32 = 1_024;

/// Times 1, 2 or 4 threads, each with this job.
pub fn timed<R: Threads + Wait + Clock + Sync>(
    rt: &R,
    alloc: Global,
    threads: u32,
    job: Job,
) -> Result<Duration> {
    let (pool, mut pass) = Pool::new(rt, alloc, BUFFERS)?;
    let start = Instant::now(rt)?;
    match threads {
        1 => {
            work(rt, &pool, pass, job);
        }
        2 => {
            let _idle = pass.split(&pool, WHOLE_SHARE / 2);
            in_two(rt, &pool, pass, job);
        }
        _ => {
            share_out(rt, &pool, pass, job);
        }
    }
    Ok(start.elapsed(rt)?)
}
