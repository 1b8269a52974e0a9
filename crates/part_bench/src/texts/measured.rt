//! The cost of reading and writing.

use crate::texts::subject::Text;
use anyhow::{Context, Result};
use std::fs;
use std::rt::Files;
use std::time::CpuClock;

/// The slowest and the fastest of some rounds, in MB of text per second.
#[derive(Clone, Copy)]
pub struct Speed {
    pub slowest: u64,
    pub fastest: u64,
}

impl Speed {
    const fn none() -> Self {
        Speed {
            slowest: u64::MAX,
            fastest: 0,
        }
    }

    // Bytes per microsecond are megabytes per second.
    fn add(&mut self, bytes: usize, micros: u64) {
        let speed = bytes as u64 / micros.max(1);
        self.slowest = self.slowest.min(speed);
        self.fastest = self.fastest.max(speed);
    }
}

/// By how many bytes per frame reading enlarges the process, and the speed of reading and writing.
#[derive(Clone, Copy)]
pub struct Costs {
    pub grown: u64,
    pub read: Speed,
    pub written: Speed,
}

// The second number of this text, a number of pages.
fn pages_in(status: &str) -> Option<u64> {
    let pages = status.split(' ').nth(1)?;
    pages.parse::<u64>().ok()
}

// The resident memory of the process, in bytes.
fn resident<R: Files + AllocGlobal>(rt: &R) -> Result<u64> {
    let status = fs::read_to_string(rt, "/proc/self/statm")?;
    let pages = pages_in(status.as_str()).context("no resident pages")?;
    Ok(pages.saturating_mul(4096))
}

// The processor time that this thread has used, in microseconds.
fn micros(rt: &impl CpuClock) -> Result<u64> {
    Ok(u64::try_from(rt.thread_cpu_time()?.as_micros())?)
}

// By how many bytes per frame reading enlarges the process, without the text itself. Includes the allocator's own
// memory and rounding to pages.
fn growth<'a, R: Files + AllocGlobal, T: Text<'a>>(rt: &R, bytes: &'a [u8]) -> Result<u64> {
    let before = resident(rt)?;
    let text = T::read(rt.alloc(), bytes)?;
    let after = resident(rt)?;
    let count = text.count() as u64;
    Ok(after.saturating_sub(before) / count.max(1))
}

// Measures how fast a text is read. The time ends before the result is dropped.
fn reading<'a, R: CpuClock + AllocGlobal, T: Text<'a>>(
    rt: &R,
    bytes: &'a [u8],
    rounds: u32,
) -> Result<Speed> {
    let mut speed = Speed::none();
    for _ in 0..rounds {
        let start = micros(rt)?;
        let _text = T::read(rt.alloc(), bytes)?;
        speed.add(bytes.len(), micros(rt)?.saturating_sub(start));
    }
    Ok(speed)
}

// Measures how fast a text is written.
fn writing<'a, R: CpuClock + AllocGlobal, T: Text<'a>>(
    rt: &R,
    bytes: &'a [u8],
    rounds: u32,
) -> Result<Speed> {
    let text = T::read(rt.alloc(), bytes)?;
    let mut speed = Speed::none();
    for _ in 0..rounds {
        let start = micros(rt)?;
        let written = text.written(rt.alloc())?;
        speed.add(written.len(), micros(rt)?.saturating_sub(start));
    }
    Ok(speed)
}

/// Measures the cost of reading and writing a text in `rounds` rounds.
pub fn costs_of<'a, R: Files + CpuClock + AllocGlobal, T: Text<'a>>(
    rt: &R,
    bytes: &'a [u8],
    rounds: u32,
) -> Result<Costs> {
    let grown = growth::<R, T>(rt, bytes)?;
    let read = reading::<R, T>(rt, bytes, rounds)?;
    let written = writing::<R, T>(rt, bytes, rounds)?;
    Ok(Costs {
        grown,
        read,
        written,
    })
}
