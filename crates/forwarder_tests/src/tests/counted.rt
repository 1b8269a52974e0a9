//! The expected reports, flow by flow.

use controller::Wire;
use flows::{Ended, FlowReport};
use forwarder::{Config, Report, forward};
use forwarding::Gate;
use std::alloc::Global;
use std::process::Abort;
use std::rt::Clock;
use std::sync::Wait;
use std::thread::Threads;
use wire_script::Script;

/// A flow's counts in the order of its line: offered, stored, dropped, oversize, taken, posted, dropped at the transmit
/// ring, on the wire, left.
pub(crate) type Counts = [u64; 9];

/// No frame was offered.
pub(crate) const NONE: Counts = [0; 9];

pub(crate) fn counts_of(flow: &FlowReport) -> Counts {
    [
        flow.tally.offered,
        flow.tally.stored,
        flow.tally.dropped,
        flow.tally.oversize,
        flow.driven.taken,
        flow.driven.posted,
        flow.driven.tx_dropped,
        flow.wire.len() as u64,
        flow.left,
    ]
}

/// Whether one equals the other with the byte at offset 1 incremented.
pub(crate) fn is_touched(before: &[u8], after: &[u8]) -> bool {
    let grows = match (before.get(1), after.get(1)) {
        (Some(old), Some(new)) => *new == old.wrapping_add(1),
        _ => false,
    };
    grows && before.first() == after.first() && before.get(2..) == after.get(2..)
}

/// Whether the wire has the first frames of the script for this port and queue, touched.
pub(crate) fn carries(wire: &Wire, script: &Script, port: usize, queue: usize) -> bool {
    let mut sent = wire.iter();
    let mut next = sent.next();
    for frame in script.frames() {
        if usize::from(frame.port()) != port || usize::from(frame.queue()) != queue {
            continue;
        }
        let Some(bytes) = next else {
            return true;
        };
        if !is_touched(frame.bytes(), bytes) {
            return false;
        }
        next = sent.next();
    }
    next.is_none()
}

/// Whether each flow of `pairs` pairs is drained with these counts, and has its frames on its wire.
pub(crate) fn is_drained(report: &Report, script: &Script, pairs: u32, wanted: &[Counts]) -> bool {
    if report.flows.len() != wanted.len() {
        return false;
    }
    let (mut port, mut queue) = (0, 0);
    for (flow, counts) in report.flows.iter().zip(wanted) {
        if queue == pairs as usize {
            (port, queue) = (1, 0);
        }
        if counts_of(flow) != *counts || flow.ended != Ended::Drained {
            return false;
        }
        if flow.sent != counts[7] || !carries(&flow.wire, script, port, queue) {
            return false;
        }
        queue = queue.saturating_add(1);
    }
    true
}

/// Checks that a script is forwarded by flows that are drained with these counts, and have their frames on their wires.
pub(crate) fn comes_to<R: Threads + Wait + Clock + Sync + Abort, G: Gate + Sync>(
    rt: &R,
    alloc: Global,
    script: &Script,
    config: &Config,
    gate: &G,
    wanted: &[Counts],
) -> bool {
    let report = forward(rt, alloc, script, config, gate).expect(rt, "a report");
    is_drained(&report, script, config.pairs, wanted)
}
