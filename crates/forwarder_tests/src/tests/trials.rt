//! The properties of a forwarder with each number of workers.

use crate::tests::bursts::{Burst, script_of};
use crate::tests::gathered::{are_back, are_back_at_the_end};
use crate::tests::refusing::{is_left, is_refused};
use crate::tests::wanted::same;
use crate::tests::watched::are_shown;
use std::alloc::Global;
use std::process::Abort;
use std::rt::Clock;
use std::sync::Wait;
use std::thread::Threads;
use wire_script::Script;

/// How a script is forwarded.
#[derive(Clone, Copy)]
pub(crate) struct Trial<'a> {
    pub alloc: Global,
    pub script: &'a Script,
    pub workers: u32,
    /// The number that a test varies: passes of a gate, turns, or frames of a batch.
    pub number: u32,
}

/// For a test that varies only the number of workers.
pub(crate) const ONCE: &[u32] = &[0];

/// The property that a trial checks.
#[derive(Clone, Copy, Drop)]
pub(crate) enum Asked {
    IsRefused,
    IsLeft,
    AreBack,
    AreBackAtTheEnd,
    AreShown,
}

impl Asked {
    fn is_so<R: Threads + Wait + Clock + Sync + Abort>(self, rt: &R, trial: Trial<'_>) -> bool {
        match self {
            Asked::IsRefused => is_refused(rt, trial),
            Asked::IsLeft => is_left(rt, trial),
            Asked::AreBack => are_back(rt, trial),
            Asked::AreBackAtTheEnd => are_back_at_the_end(rt, trial),
            Asked::AreShown => are_shown(rt, trial),
        }
    }
}

/// Checks the property with 1 to 4 workers and each of the numbers.
pub(crate) fn each_is_so<R: Threads + Wait + Clock + Sync + Abort>(
    rt: &R,
    alloc: Global,
    asked: Asked,
    bursts: &[Burst],
    numbers: &[u32],
) {
    let script = script_of(rt, alloc, bursts);
    for number in numbers {
        let first = Trial {
            alloc,
            script: &script,
            workers: 1,
            number: *number,
        };
        by_each_is_so(rt, asked, first);
    }
}

fn by_each_is_so<R: Threads + Wait + Clock + Sync + Abort>(rt: &R, asked: Asked, first: Trial<'_>) {
    let number = first.number;
    for workers in 1..=4 {
        let good = asked.is_so(rt, Trial { workers, ..first });
        same(rt, (workers, number, good), (workers, number, true));
    }
}
