//! The cost of a frame through a receive ring that two threads share.
//!
//! `storing` and `taking` are the threads of the controller and the driver. `passing` makes the ring, runs both and
//! measures the time.
//!
//! All frames that it counts have passed: at the end the two ends meet, and the driver's record has that many frames,
//! each byte for byte the frame that the controller stored.

mod passing;
mod storing;
mod taking;

use crate::kit::{BatchPlan, batch_plan};
use limits::MOST_RING;
pub use passing::pass;

/// The usage, printed when the command line is wrong.
const USAGE: &str = "Usage: ring_bench rx --ring N --frames N --size N --batch N

Passes frames through a receive ring with a thread at each end. Prints the cost of a frame.

  --ring        descriptors of the ring, a power of two from 8 to 4096
  --frames      number of frames, from 1
  --size        bytes of each frame, 14 to 2048
  --batch       the driver publishes posted buffers after at most this many frames, 1 to 4096

Example:
  ring_bench rx --ring 512 --frames 1000000 --size 60 --batch 32";

/// Parses the options, each once with its value. The error is the usage.
pub fn plan_of(options: &[String]) -> Result<BatchPlan, &'static str> {
    batch_plan(options, 8, MOST_RING as u32).ok_or(USAGE)
}
