//! The cost of writing and reading a counter cell.

mod measured;

use crate::plan::each;
use anyhow::Result;
use measured::{reads_alone, writes_beside};
use std::alloc::Global;
use std::rt::Clock;
use std::sync::Wait;
use std::thread::Threads;

/// Prints the cost of a write and, if there are readers, of a read.
pub fn run_writes<R>(rt: &R, alloc: Global, writes: u32, readers: u32) -> Result<()>
where
    R: Threads + Wait + Clock + Print + Sync,
{
    let (spent, reads) = writes_beside(rt, alloc, writes, readers)?;
    println!(rt; "readers {readers}")?;
    println!(rt; "write ns {:.1}", each(spent, f64::from(writes)))?;
    if 0 < readers {
        let share = f64::from(reads) / f64::from(readers);
        println!(rt; "read ns {:.1}", each(spent, share))?;
    }
    Ok(())
}

/// Prints the cost of a read.
pub fn run_reads<R: Wait + Clock + Print>(rt: &R, alloc: Global, reads: u32) -> Result<()> {
    let spent = reads_alone(rt, alloc, reads)?;
    println!(rt; "read ns {:.1}", each(spent, f64::from(reads)))?;
    Ok(())
}
