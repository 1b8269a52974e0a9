//! Worked rows of a transmit queue's controller, and of the wire.

use crate::tests::controllers::expected::{Expected, Walked, add};
use crate::tests::controllers::transmit::{Step, Transmit};
use crate::tests::wanted::same;
use controller::Turn;
use std::alloc::Global;
use std::process::Abort;
use tx_ring::Completion;

const BOTH_WAYS: &[Completion] = &[Completion::Status, Completion::Head];

const OFF: Expected = Expected::Turned(Turn::Off);

const IDLE: Expected = Expected::Turned(Turn::Idle);

const SENT: Expected = Expected::Turned(Turn::Sent);

/// A step, and its expected result.
type Row = (Step, Expected);

/// Makes the rows' steps on a ring that is not enabled. No other function here owns a queue, since each one that does
/// is costly to prove.
fn walk<R: Abort>(
    rt: &R,
    alloc: Global,
    (n, completion): (u32, Completion),
    rows: &[Row],
) -> Walked {
    let transmit = Transmit::new(rt, alloc, n, completion);
    transmit.walk(rows)
}

/// Checks all rows on a ring that is not enabled.
fn each_tells<R: Abort>(rt: &R, alloc: Global, queue: (u32, Completion), rows: &[Row]) {
    let walked = walk(rt, alloc, queue, rows);
    same(rt, walked.told, rows.len());
}

const TWO: &[Row] = &[
    (Step::Post(60, 1, 2_048, false), Expected::True),
    (Step::Post(14, 2, 2_048, true), Expected::True),
    (Step::Turn, OFF),
    (Step::HasSent(0), Expected::True),
    (Step::Enable, Expected::True),
    (Step::Turn, SENT),
    (Step::HasReport, Expected::False),
    (Step::Turn, SENT),
    (Step::Turn, IDLE),
    (Step::HasReport, Expected::True),
    (Step::Clean, Expected::Count(2)),
    (Step::HasSent(2), Expected::True),
    (Step::IsOnWire(0, 60, 1), Expected::True),
    (Step::IsOnWire(1, 14, 2), Expected::True),
];

#[test]
fn frames_go_onto_the_wire(rt: HostRuntime) {
    for completion in BOTH_WAYS {
        each_tells(&rt, rt.alloc(), (8, *completion), TWO);
    }
}

/// An enabled queue with four frames.
const FOUR: &[Row] = &[
    (Step::Enable, Expected::True),
    (Step::Post(60, 5, 2_048, true), Expected::True),
    (Step::Post(60, 6, 2_048, true), Expected::True),
    (Step::Post(60, 7, 2_048, true), Expected::True),
    (Step::Post(60, 8, 2_048, true), Expected::True),
];

/// The rows of a queue that is disabled.
const DISABLED: &[Row] = &[(Step::Disable, Expected::True), (Step::Turn, OFF)];

/// The rows of one that is renewed, and sends one frame.
const ANEW: &[Row] = &[
    (Step::Renew, Expected::True),
    (Step::Post(60, 9, 2_048, true), Expected::True),
    (Step::Turn, OFF),
    (Step::Enable, Expected::True),
    (Step::Turn, SENT),
    (Step::Turn, IDLE),
];

/// The rows of a queue that is disabled after `before` of four frames were sent, and then renewed: no other is sent
/// before that, and one is sent after it.
fn over_after<R: Abort>(rt: &R, alloc: Global, before: usize) -> Vec<Row> {
    let mut rows = Vec::new(alloc);
    add(rt, &mut rows, FOUR);
    for _ in 0..before {
        add(rt, &mut rows, &[(Step::Turn, SENT)]);
    }
    add(rt, &mut rows, DISABLED);
    add(rt, &mut rows, &[(Step::HasSent(before), Expected::True)]);
    add(rt, &mut rows, ANEW);
    let sent = [
        (Step::HasSent(before.saturating_add(1)), Expected::True),
        (Step::IsOnWire(before, 60, 9), Expected::True),
    ];
    add(rt, &mut rows, &sent);
    rows
}

/// Checks these rows, which end between two frames.
fn is_over_after<R: Abort>(rt: &R, alloc: Global, before: usize) {
    let rows = over_after(rt, alloc, before);
    let walked = walk(rt, alloc, (8, Completion::Status), &rows);
    let told = (walked.told, walked.ends_between_frames);
    same(rt, (before, told), (before, (rows.len(), true)));
}

#[test]
fn nothing_is_sent_once_it_is_disabled(rt: HostRuntime) {
    for before in 0..4 {
        is_over_after(&rt, rt.alloc(), before);
    }
}

const GROWN: &[Row] = &[
    (Step::Enable, Expected::True),
    (Step::Send(300), Expected::Count(300)),
    (Step::Turn, IDLE),
    (Step::AreSent(300), Expected::True),
];

#[test]
fn a_wire_grows(rt: HostRuntime) {
    each_tells(&rt, rt.alloc(), (8, Completion::Status), GROWN);
}

const LONG: &[Row] = &[
    (Step::Enable, Expected::True),
    (
        Step::SendSeldomGrowing(100_000, 60),
        Expected::Count(100_000),
    ),
    (Step::HasSent(100_000), Expected::True),
];

#[test]
fn a_long_wire_grows_seldom(rt: HostRuntime) {
    each_tells(&rt, rt.alloc(), (8, Completion::Status), LONG);
}

/// The length of a frame, the length of its segments except the last, and their number.
type Joined = (usize, usize, u32);

const JOINED: &[Joined] = &[
    (14, 7, 2),
    (1_025, 1_024, 2),
    (2_500, 1_024, 3),
    (9_000, 2_048, 5),
    (15_000, 1_024, 15),
    (15_000, 2_048, 8),
];

/// Checks that a frame goes onto the wire as one.
fn is_joined<R: Abort>(rt: &R, alloc: Global, completion: Completion, row: Joined) {
    let (len, bsize, segments) = row;
    let rows = [
        (Step::Enable, Expected::True),
        (Step::Post(len, 3, bsize, true), Expected::True),
        (Step::Turn, SENT),
        (Step::HasReport, Expected::True),
        (Step::Turn, IDLE),
        (Step::HasSent(1), Expected::True),
        (Step::IsOnWire(0, len, 3), Expected::True),
        (Step::Clean, Expected::Count(segments)),
    ];
    let walked = walk(rt, alloc, (16, completion), &rows);
    same(rt, (len, walked.told), (len, rows.len()));
}

#[test]
fn segments_are_joined(rt: HostRuntime) {
    for row in JOINED {
        is_joined(&rt, rt.alloc(), Completion::Status, *row);
        is_joined(&rt, rt.alloc(), Completion::Head, *row);
    }
}
