//! Makes a cell, and times its threads.
ghost use Rattle.std.specs.Prelude.{◌≡◌};
ghost use Rattle.counters.specs.Kinds.{nothing};

use anyhow::Result;
use counters::{StatCell, StatPass, StatPen, Tally};
use std::alloc::Global;
use std::rt::Clock;
use std::sync::Wait;
use std::thread::{Threads, join};
use std::time::{Duration, Instant};

/// The counts after `frames` frames, if all of them were stored.
fn all_stored(frames: u64) -> Tally
    ensures { result ≡ record { offered = frames; stored = frames; dropped = 0; oversize = 0 } }
{
    Tally {
        offered: frames,
        stored: frames,
        dropped: 0,
        oversize: 0,
    }
}

/// Times `reads` reads without a writer.
pub fn reads_alone<R: Wait + Clock>(rt: &R, alloc: Global, reads: u32) -> Result<Duration> {
    let (cell, mut pen, _) = StatCell::new(alloc)?;
    cell.write(rt, &mut pen, all_stored(1));
    let pass = pen.pass();
    let start = Instant::now(rt)?;
    read_all(rt, &cell, pass, reads);
    Ok(start.elapsed(rt)?)
}

/// Times `writes` writes with up to three readers. Also returns the number of their reads.
pub fn writes_beside<R: Threads + Wait + Clock + Sync>(
    rt: &R,
    alloc: Global,
    writes: u32,
    readers: u32,
) -> Result<(Duration, u32)> {
    let (cell, pen, pass) = StatCell::new(alloc)?;
    let start = Instant::now(rt)?;
    let reads = write_beside(rt, &cell, pen, pass, writes, readers);
    Ok((start.elapsed(rt)?, reads))
}

/// Writes `writes` times with up to three readers. Returns the number of their reads.
fn write_beside<R: Threads + Wait + Sync>(
    rt: &R,
    cell: &StatCell,
    pen: StatPen,
    pass: StatPass,
    writes: u32,
    readers: u32,
) -> u32
    requires pen { pen.cell ≡ cell.now }
    requires opening { pen.last ≡ nothing }
    requires pass { pass.cell ≡ cell.now }
{
    if readers == 0 {
        write_all(rt, cell, pen, writes);
        return 0;
    }
    let (_, reads) = join(
        rt,
        || write_all(rt, cell, pen, writes),
        move || -> u32
            requires { pass.cell ≡ cell.now }
        { read_in(rt, cell, pass, readers, writes) },
    );
    reads
}

/// Reads in one, two or three threads until each sees the last write. Returns the total number of reads.
fn read_in<R: Threads + Wait + Sync>(
    rt: &R,
    cell: &StatCell,
    mut pass: StatPass,
    readers: u32,
    writes: u32,
) -> u32
    requires own { pass.cell ≡ cell.now }
{
    if readers == 1 {
        return read_until(rt, cell, pass, writes);
    }
    let second = cell.split(&mut pass);
    if readers == 2 {
        return read_in_two(rt, cell, pass, second, writes);
    }
    let third = cell.split(&mut pass);
    let (one, others) = join(
        rt,
        || read_until(rt, cell, pass, writes),
        move || -> u32
            requires { (second.cell ≡ cell.now) × (third.cell ≡ cell.now) }
        { read_in_two(rt, cell, second, third, writes) },
    );
    one.saturating_add(others)
}

/// Writes `writes` times, each time with one more frame.
fn write_all<R: Wait>(rt: &R, cell: &StatCell, mut pen: StatPen, writes: u32)
    requires own { pen.cell ≡ cell.now }
    requires opening { pen.last ≡ nothing }
{
    for written in 0..writes {
        cell.write(rt, &mut pen, all_stored(u64::from(written) + 1));
    }
}

/// Reads `reads` times.
fn read_all<R: Wait>(rt: &R, cell: &StatCell, mut pass: StatPass, reads: u32)
    requires own { pass.cell ≡ cell.now }
{
    for _ in 0..reads {
        cell.read(rt, &mut pass);
    }
}

/// Reads until the last write is seen. Returns the number of reads.
fn read_until<R: Wait>(rt: &R, cell: &StatCell, mut pass: StatPass, writes: u32) -> u32
    requires own { pass.cell ≡ cell.now }
{
    let mut reads: u32 = 0;
    for _ in rt.forever() {
        let now = cell.read(rt, &mut pass);
        reads = reads.saturating_add(1);
        if u64::from(writes) <= now.offered {
            return reads;
        }
    }
    unreachable!()
}

/// Reads in two threads. Returns the total number of reads.
fn read_in_two<R: Threads + Wait + Sync>(
    rt: &R,
    cell: &StatCell,
    first: StatPass,
    second: StatPass,
    writes: u32,
) -> u32
    requires first { first.cell ≡ cell.now }
    requires second { second.cell ≡ cell.now }
{
    let (one, two) = join(
        rt,
        || read_until(rt, cell, first, writes),
        || read_until(rt, cell, second, writes),
    );
    one.saturating_add(two)
}
