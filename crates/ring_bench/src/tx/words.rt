//! The command line.

use crate::kit::{Workload, load_of, number_of, value_of};
use ring_model::Completion;

/// A run of a transmit ring.
#[derive(Clone, Copy)]
pub struct TxPlan {
    pub load: Workload,
    /// One in this many frames asks for a report, and so does the last frame.
    pub report: u32,
    pub completion: Completion,
}

/// The usage, printed when the command line is wrong.
const USAGE: &str =
    "Usage: ring_bench tx --ring N --frames N --size N --report N --completion status|head

Passes frames through a transmit ring with a thread at each end. Prints the cost of a frame.

  --ring        descriptors of the ring, a power of two from 8 to 4096
  --frames      number of frames, from 1
  --size        bytes of each frame, 14 to 2048
  --report      frames per report, from 1 to the number of descriptors minus one
  --completion  how sent frames are reported: status, in their descriptors; head, by the head

Example:
  ring_bench tx --ring 512 --frames 1000000 --size 60 --report 32 --completion status";

/// Parses the options, each once with its value. The error is the usage.
pub fn plan_of(options: &[String]) -> Result<TxPlan, &'static str> {
    parsed(options).ok_or(USAGE)
}

fn parsed(options: &[String]) -> Option<TxPlan> {
    let load = load_of(options, 10)?;
    Some(TxPlan {
        load,
        report: number_of(options, "--report", load.ring.saturating_sub(1))?,
        completion: completion_of(value_of(options, "--completion")?)?,
    })
}

fn completion_of(word: &str) -> Option<Completion> {
    match word {
        "status" => Some(Completion::Status),
        "head" => Some(Completion::Head),
        _ => None,
    }
}
