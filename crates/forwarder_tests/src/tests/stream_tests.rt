//! Failing streams and allocations.

use crate::tests::failing::{each_cut, is_refused, is_stuck};
use crate::tests::runs::{Host, Streams, run_on};
use crate::tests::streams::{Input, Output};
use crate::tests::wanted::{holds, same};
use commands::{NOTES, QueuePlan, Request, perform};
use ring_machine::Completion;
use std::alloc::Global;

const FRAME: &str = "000102030405060708090a0b0c0d";

const TX_READ: &str = "00280000000000003c00302b00000f00";

const RX_BACK: &str = "0000000000000000030000003c000000";

/// Words whose output is longer than 28 bytes.
const LONG: &[&[&str]] = &[
    &["once", FRAME],
    &["decode", "tx", "read", TX_READ],
    &["replay"],
    &["--help"],
];

/// Words and their exit status, whether or not the faults can be written.
const STATUSES: &[(&[&str], u8)] = &[
    (&["decode", "rx", "back", RX_BACK], 0),
    (&["decode", "rx", "back", "0"], 1),
    (&["decode", "rx", "back", "00"], 1),
    (&["once", FRAME], 0),
    (&["once", "0"], 1),
    (&["once", "00"], 1),
    (&["once"], 2),
];

const MOVES: &str = "r0 A2\nr0 A2\nr0 A2\n";

const NO_OUTPUT: &str = "refused 84 output\n";

/// With room for `room` bytes, the output is refused, and full.
fn is_full<R: Host>(rt: &R, alloc: Global, words: &[&str], room: usize) {
    let streams = (Input::of(MOVES.as_bytes()), Output::narrow(alloc, room));
    let taken = is_refused(rt, alloc, words, streams, NO_OUTPUT);
    same(rt, (words, taken.len()), (words, room));
}

/// An output that takes too little, or fails to flush, is refused.
fn each_output_is_refused<R: Host>(rt: &R, alloc: Global, words: &[&str]) {
    for room in [0, 1, 27, 28] {
        is_full(rt, alloc, words, room);
    }
    is_stuck(rt, alloc, words, MOVES.as_bytes())
}

#[test]
fn an_output_that_fails_is_refused(rt: HostRuntime) {
    for words in LONG {
        each_output_is_refused(&rt, rt.alloc(), words);
    }
}

/// With room for `room` bytes of faults, the status is this.
fn has_status<R: Host>(rt: &R, alloc: Global, words: &[&str], room: usize, status: u8) {
    let streams = Streams {
        faults: Output::narrow(alloc, room),
        ..Streams::of(alloc, Input::of(b""))
    };
    let told = run_on(rt, alloc, words, streams);
    same(rt, (words, room, told.status), (words, room, status));
}

#[test]
fn faults_that_fail_change_no_status(rt: HostRuntime) {
    for (words, status) in STATUSES {
        has_status(&rt, rt.alloc(), words, 0, *status);
        has_status(&rt, rt.alloc(), words, 3, *status);
    }
}

/// A list that breaks off after a faulty line.
const CUT: &[(&[&str], &[u8])] = &[(&["replay"], b"r0 A2\nr0 A9\n")];

#[test]
fn an_input_that_fails_in_mid_stream_is_refused(rt: HostRuntime) {
    each_cut(&rt, rt.alloc(), CUT)
}

const QUEUES: QueuePlan = QueuePlan {
    pairs: 1,
    ring: 8,
    enabled: true,
    completion: Completion::Status,
    lists: false,
    shown: NOTES,
};

#[test]
fn want_of_memory(rt: HostRuntime) {
    let mut input = Input::of(b"r0 A1 5\nt0 B2\n");
    let mut output = Output::narrow(rt.alloc(), 100);
    let mut why = String::new(rt.alloc());
    match perform(
        &rt,
        rt.alloc(),
        Request::Replay { plan: QUEUES },
        &mut input,
        &mut output,
        &mut why,
    ) {
        Ok(()) => same(&rt, output.taken.len(), 40),
        Err(refusal) => {
            let number = refusal.number();
            holds(&rt, number == 13 || number == 83 || number == 84);
            holds(&rt, output.taken.is_empty());
        }
    }
}
