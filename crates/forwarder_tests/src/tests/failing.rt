//! Runs on failing streams.

use crate::tests::runs::{Host, Streams, run_on};
use crate::tests::streams::{Input, Output};
use crate::tests::wanted::{holds, same};
use std::alloc::Global;

/// A run with these streams is refused with this line. Returns what it wrote to the output.
pub fn is_refused<R: Host>(
    rt: &R,
    alloc: Global,
    words: &[&str],
    (input, output): (Input<'_>, Output),
    line: &str,
) -> Vec<u8> {
    let streams = Streams {
        output,
        ..Streams::of(alloc, input)
    };
    let told = run_on(rt, alloc, words, streams);
    same(rt, (words, told.faults(), told.status), (words, line, 1));
    told.output
}

const NO_OUTPUT: &str = "refused 84 output\n";

/// An output with room for `room` bytes gets the beginning of what the run writes.
pub fn has_beginning<R: Host>(
    rt: &R,
    alloc: Global,
    (words, input): (&[&str], &[u8]),
    whole: &[u8],
    room: usize,
) {
    let streams = (Input::of(input), Output::narrow(alloc, room));
    let taken = is_refused(rt, alloc, words, streams, NO_OUTPUT);
    same(rt, Some(taken.as_slice()), whole.get(..room));
}

/// The run is refused with an output that fails to flush.
pub fn is_stuck<R: Host>(rt: &R, alloc: Global, words: &[&str], input: &[u8]) {
    let streams = (Input::of(input), Output::stuck(alloc));
    is_refused(rt, alloc, words, streams, NO_OUTPUT);
}

/// The run is refused with an output of each of these rooms, with room for all but one byte, and with one that fails to
/// flush.
pub fn each_beginning<R: Host>(
    rt: &R,
    alloc: Global,
    (words, input): (&[&str], &str),
    whole: &[u8],
    rooms: &[usize],
) {
    let input = input.as_bytes();
    for room in rooms {
        has_beginning(rt, alloc, (words, input), whole, *room);
    }
    let last = whole.len().saturating_sub(1);
    has_beginning(rt, alloc, (words, input), whole, last);
    is_stuck(rt, alloc, words, input)
}

/// A run on an input that yields these bytes and then fails is refused, and writes nothing.
fn is_cut<R: Host>(rt: &R, alloc: Global, words: &[&str], left: &[u8]) {
    let streams = (Input::broken(left), Output::new(alloc));
    let taken = is_refused(rt, alloc, words, streams, "refused 82 input\n");
    holds(rt, taken.is_empty());
}

/// The same for each of these words and inputs.
pub fn each_cut<R: Host>(rt: &R, alloc: Global, rows: &[(&[&str], &[u8])]) {
    for (words, left) in rows {
        is_cut(rt, alloc, words, left);
    }
}
