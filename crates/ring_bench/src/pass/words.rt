//! The command line.

use crate::kit::{BatchPlan, batch_plan, number_of};
use driver::MOST_BATCH;

/// Which side runs in which thread.
#[derive(Clone, Copy)]
pub enum Threading {
    /// Controllers and drivers in one thread.
    Shared,
    /// Controllers in one thread, and drivers in another.
    Apart,
}

/// The usage, printed when the command line is wrong.
const USAGE: &str = "Usage: ring_bench pass --ring N --frames N --size N --batch N --threads 1|2

Passes frames through the controllers and drivers of a receive ring and a transmit ring to a wire. Prints the cost of a
frame.

  --ring        descriptors of each ring, a power of two from 8 to 4096
  --frames      number of frames, from 1
  --size        bytes of each frame, 14 to 2048
  --batch       how many frames are offered, received and sent at once, 1 to 32
  --threads     1: one thread for all; 2: a thread for the controllers and a thread for the drivers

Example:
  ring_bench pass --ring 512 --frames 1000000 --size 60 --batch 32 --threads 2";

/// Parses the options, each once with its value. The error is the usage.
pub fn plan_of(options: &[String]) -> Result<(BatchPlan, Threading), &'static str> {
    parsed(options).ok_or(USAGE)
}

fn parsed(options: &[String]) -> Option<(BatchPlan, Threading)> {
    let plan = batch_plan(options, 10, MOST_BATCH as u32)?;
    Some((plan, threading_of(options)?))
}

fn threading_of(options: &[String]) -> Option<Threading> {
    let threads = number_of(options, "--threads", 2)?;
    Some(if threads == 1 {
        Threading::Shared
    } else {
        Threading::Apart
    })
}
