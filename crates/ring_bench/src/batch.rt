//! The cost of a frame through both drivers, between a receive ring and a transmit ring.
//!
//! `relaying` does everything on one thread. The device uses the rings' ends directly.
//!
//! All frames that it counts have passed: at the end the two ends of each ring meet, and all frames that were sent are
//! copies of the one frame.

mod relaying;

use crate::kit::{BatchPlan, batch_plan};
use driver::MOST_BATCH;
pub use relaying::relay;

/// The usage, printed when the command line is wrong.
const USAGE: &str = "Usage: ring_bench batch --ring N --frames N --size N --batch N

Passes frames through a receive ring, both drivers and a transmit ring on one thread. Prints the cost of a frame.

  --ring        descriptors of each ring, a power of two from 8 to 4096
  --frames      number of frames, from 1
  --size        bytes of each frame, 14 to 2048
  --batch       how many frames are stored, received and sent at once, 1 to 32

Example:
  ring_bench batch --ring 512 --frames 1000000 --size 60 --batch 32";

/// Parses the options, each once with its value. The error is the usage.
pub fn plan_of(options: &[String]) -> Result<BatchPlan, &'static str> {
    batch_plan(options, 8, MOST_BATCH as u32).ok_or(USAGE)
}
