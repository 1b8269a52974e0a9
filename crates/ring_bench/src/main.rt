//! The program `ring_bench`: the cost of a frame through a ring, and through the layers above the rings.
//! Depends on the ring crates, `driver`, `controller` and `anyhow`.
//! Guarantees what a measurement needs to call a ring, and nothing else.
//!
//! `rx` and `tx` measure a ring that two threads share, `batch` both drivers, and `pass` controllers and drivers. `kit`
//! has their common parts.
#![tactic(auto)]

mod batch;
mod kit;
mod pass;
mod rx;
mod tx;

use anyhow::Result;
use kit::{measure, refuse, words_of};
use std::process::ExitCode;

/// The usage, printed if the first word names no benchmark.
const USAGE: &str = "Usage: ring_bench rx|tx|batch|pass OPTION..

Passes frames through rings and prints the cost of a frame. A benchmark without options prints its usage.

  rx     a receive ring with a thread at each end
  tx     a transmit ring with a thread at each end
  batch  a receive ring, both drivers and a transmit ring on one thread
  pass   controllers and drivers of both rings, to a wire";

fn main(rt: HostRuntime) -> Result<ExitCode> {
    let words = words_of(&rt)?;
    let words = words.as_slice();
    let (Some(name), Some(options)) = (words.first(), words.get(1..)) else {
        return refuse(&rt, USAGE);
    };
    let alloc = rt.alloc();
    match name.as_str() {
        "rx" => measure(&rt, rx::plan_of(options), |plan| rx::pass(&rt, alloc, plan)),
        "tx" => measure(
            &rt,
            tx::plan_of(options),
            |plan| tx::send_frames(&rt, alloc, plan),
        ),
        "batch" => measure(
            &rt,
            batch::plan_of(options),
            |plan| batch::relay(&rt, alloc, plan),
        ),
        "pass" => measure(
            &rt,
            pass::plan_of(options),
            |plan| pass::pass_layers(&rt, alloc, plan),
        ),
        _ => refuse(&rt, USAGE),
    }
}
