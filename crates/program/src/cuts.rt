//! Explains which frames a cut flow was not offered.

use flows::{Ended, FlowReport};
use limits::{MOST_PAIRS, PORTS};
use std::alloc::AllocError;
use wire_script::Script;

/// The number of frames that are to be offered to each flow.
#[derive(Drop)]
pub(crate) struct Due {
    frames: [[u64; MOST_PAIRS]; PORTS],
}

impl Due {
    /// Counts the frames of a script that is offered this many times.
    pub(crate) fn of(script: &Script, repeat: u32) -> Due {
        let mut frames = [[0u64; MOST_PAIRS]; PORTS];
        for frame in script.frames() {
            let count = &mut frames[frame.port() as usize][frame.queue() as usize];
            *count = count.saturating_add(u64::from(repeat));
        }
        Due { frames }
    }

    /// The number of frames for this port and queue.
    fn at(&self, port: usize, queue: usize) -> u64 {
        match self.frames.get(port) {
            Some(queues) => queues.get(queue).copied().unwrap_or(0),
            None => 0,
        }
    }
}

/// Writes a line for each flow that was cut before all its frames were offered.
pub(crate) fn explain_cuts(
    why: &mut String,
    pairs: usize,
    turns: u32,
    due: &Due,
    flows: &[FlowReport],
) -> Result<(), AllocError> {
    let mut port = 0usize;
    let mut queue = 0usize;
    for flow in flows {
        let due = due.at(port, queue);
        if flow.ended == Ended::Cut && flow.tally.offered < due {
            explain_cut(why, (port, queue), turns, due, flow.tally.offered)?;
        }
        queue = queue.saturating_add(1);
        if queue == pairs {
            queue = 0;
            port = port.saturating_add(1);
        }
    }
    Ok(())
}

/// Writes the line of a cut flow.
fn explain_cut(
    why: &mut String,
    (port, queue): (usize, usize),
    turns: u32,
    due: u64,
    offered: u64,
) -> Result<(), AllocError> {
    if !why.is_empty() {
        why.push_str("\nnote: ")?;
    }
    write!(
        why,
        "flow {port} {queue} was cut after {turns} turns: {} of its {due} frames were not offered",
        due.saturating_sub(offered)
    )
}
