//! The speed and memory of reading and writing scripts and captures.

mod made;
mod measured;
mod subject;

use crate::plan::{Subject, TextPlan};
use anyhow::{Result, bail};
use capture::Capture;
use limits::{LEAST_FRAME, MOST_FRAME};
use measured::{Costs, Speed, costs_of};
use std::alloc::Global;
use std::rt::Files;
use std::time::CpuClock;
use wire_script::Script;

/// Makes the text to measure.
fn bytes_of(alloc: Global, plan: TextPlan) -> Result<Vec<u8>> {
    if plan.length < LEAST_FRAME || plan.length > MOST_FRAME {
        bail!("frames have {LEAST_FRAME} to {MOST_FRAME} bytes");
    }
    match plan.subject {
        Subject::Script => made::script(alloc, plan.frames, plan.length),
        Subject::Capture => made::capture(alloc, plan.frames, plan.length),
    }
}

fn print_size<R: Print>(rt: &R, plan: TextPlan, length: usize) -> Result<()> {
    println!(rt;
        "{}: {} frames, {length} bytes",
        plan.subject.name(),
        plan.frames
    )?;
    Ok(())
}

fn print_memory<R: Print>(rt: &R, plan: TextPlan, grown: u64) -> Result<()> {
    println!(rt; "memory: {grown} bytes {}", plan.subject.per_frame())?;
    Ok(())
}

fn print_speed<R: Print>(rt: &R, name: &str, speed: Speed) -> Result<()> {
    println!(rt; "{name}: {} to {} MB/s", speed.slowest, speed.fastest)?;
    Ok(())
}

/// Measures the cost of reading and writing a text.
fn costs<R: Files + CpuClock + AllocGlobal>(rt: &R, plan: TextPlan, bytes: &[u8]) -> Result<Costs> {
    match plan.subject {
        Subject::Script => costs_of::<R, Script>(rt, bytes, plan.rounds),
        Subject::Capture => costs_of::<R, Capture<'_>>(rt, bytes, plan.rounds),
    }
}

/// Measures a text, and prints its cost.
fn measure<R: Files + CpuClock + Print + AllocGlobal>(
    rt: &R,
    plan: TextPlan,
    bytes: &[u8],
) -> Result<()> {
    print_size(rt, plan, bytes.len())?;
    let costs = costs(rt, plan, bytes)?;
    print_memory(rt, plan, costs.grown.saturating_sub(plan.own()))?;
    print_speed(rt, "read", costs.read)?;
    print_speed(rt, "written", costs.written)
}

/// Makes the plan's text, and measures it.
pub fn run_texts<R: Files + CpuClock + Print + AllocGlobal>(rt: &R, plan: TextPlan) -> Result<()> {
    let bytes = bytes_of(rt.alloc(), plan)?;
    measure(rt, plan, bytes.as_slice())
}
