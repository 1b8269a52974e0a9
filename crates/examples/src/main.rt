//! The program `examples`: the library examples that the README and docs/GUIDE.md quote. The gate proves it and runs
//! it.
//! Depends on the crates that a user would use, from `buffer_pool` to `forwarder`.
//! Guarantees what the contracts of each example say.
#![tactic(auto)]

mod closing;
mod device;
mod gated;
mod lent;
mod moves;
mod one_frame;
mod outcome;
mod ports;
mod queue_pair;
mod rings;
mod rounds;
mod stash;
mod two_threads;
mod watched;
mod worker;

use anyhow::Result;
use closing::closed;
use device::{Frame, served};
use gated::Batches;
use lent::lent_and_returned;
use moves::told;
use one_frame::passed;
use pool::Pool;
use queue_pair::forwarded;
use std::alloc::Global;
use std::rt::Clock;
use std::sync::Wait;
use std::thread::Threads;
use two_threads::{FRAME, FRAMES, pass};
use watched::watched;
use worker::work;

const MOVES: [&str; 3] = ["r0 A1 5", "r0 A2", "r0 A6"];

/// Lets a worker of a pool of 64 buffers take four batches and give them back.
fn given<R: Wait>(rt: &R, alloc: Global, frame: &Frame) -> Result<usize> {
    let (pool, mut pass) = Pool::new(rt, alloc, 64)?;
    Ok(work(rt, &pool, &mut pass, frame, 4))
}

/// Lets a worker forward in buffers of a pool of 64.
fn lent_out<R: Wait>(rt: &R, alloc: Global, frame: &Frame) -> Result<usize> {
    let (pool, pass) = Pool::new(rt, alloc, 64)?;
    lent_and_returned(rt, alloc, &pool, pass, frame)
}

/// Prints which buffers were in a closed ring, and how many its stock has then.
fn tell_closed<R: Print>(rt: &R, alloc: Global, frame: &Frame) -> Result<()> {
    let (stock, numbers) = closed(alloc, frame)?;
    print!(rt; "the closed ring had buffers")?;
    for number in &numbers {
        print!(rt; " {number}")?;
    }
    println!(rt; "; {} are in the stock again", stock.len())?;
    Ok(())
}

/// Prints how many frames go through one ring between two threads.
fn tell_threads<R: Threads + Wait + Clock + Sync + Print>(rt: &R, alloc: Global) -> Result<()> {
    let taken = pass(rt, alloc, &FRAME, FRAMES)?;
    println!(rt; "{taken} frames of {} bytes were taken", FRAME.len())?;
    Ok(())
}

/// Prints how many frames a custom forwarder sent, and in how many turns.
fn tell_gated<R: Print>(rt: &R, alloc: Global, frame: &Frame) -> Result<()> {
    let gate = Batches::new();
    let count = gated::forwarded(alloc, frame, &gate)?;
    println!(rt; "forwarded {count} frames in {} turns", gate.count())?;
    Ok(())
}

/// Prints the numbers that a watcher saw while a forwarder ran.
fn tell_watched<R: Threads + Wait + Clock + Sync + Print>(rt: &R, alloc: Global) -> Result<()> {
    let seen = watched(rt, alloc, b"0 0 fill 60 01\n0 0 fill 60 02\n", 2)?;
    println!(rt;
        "saw {} frames stored, and {} went out",
        seen.offered.stored, seen.sent
    )?;
    Ok(())
}

fn main(rt: HostRuntime) -> Result<()> {
    let (alloc, frame) = (rt.alloc(), [0xab; 60]);
    if let Some(buf) = passed(alloc, &frame)? {
        println!(rt; "took {} bytes in buffer {}", buf.len(), buf.number())?;
    }
    println!(rt; "gave {} buffers back", given(&rt, alloc, &frame)?)?;
    tell_closed(&rt, alloc, &frame)?;
    println!(rt; "forwarded {} frames", forwarded(alloc, &frame)?)?;
    let count = lent_out(&rt, alloc, &frame)?;
    println!(rt; "forwarded {count} frames in buffers of a pool")?;
    let (stored, sent) = served(alloc, &frame)?;
    println!(rt; "stored {stored} frame of 2, sent {sent}")?;
    print!(rt; "{}", told(alloc, MOVES.as_slice())?)?;
    tell_threads(&rt, alloc)?;
    tell_gated(&rt, alloc, &frame)?;
    tell_watched(&rt, alloc)
}
