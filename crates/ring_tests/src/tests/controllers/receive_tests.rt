//! Worked rows of a receive queue's controller.

use crate::tests::controllers::expected::{Expected, Walked, add};
use crate::tests::controllers::receive::{Receive, Step};
use crate::tests::wanted::same;
use controller::{CtlError, Offer, is_fill_size};
use std::alloc::Global;
use std::process::Abort;

const STORED: Expected = Expected::Offered(Offer::Stored);

const DROPPED: Expected = Expected::Offered(Offer::Dropped);

const HELD: Expected = Expected::Offered(Offer::Held);

const OVERSIZE: Expected = Expected::Offered(Offer::Oversize);

const OFF: Expected = Expected::Offered(Offer::Off);

const REFUSED: Expected = Expected::Refused(CtlError::FrameLength);

/// The number of places of a ring, whether its buffers are filled to 2,048 bytes or to 1,024, and whether a frame that
/// finds no descriptor is dropped.
type Queue = (u32, bool, bool);

/// A step, and its expected result.
type Row = (Step, Expected);

/// Makes the rows' steps on a ring that is not enabled. No other function here owns a queue, since each one that does
/// is costly to prove.
fn walk<R: Abort>(rt: &R, alloc: Global, (n, large, drop_en): Queue, rows: &[Row]) -> Walked {
    let receive = Receive::new(rt, alloc, n, large, drop_en);
    receive.walk(rows)
}

/// Checks all rows on a ring that is not enabled.
fn each_tells<R: Abort>(rt: &R, alloc: Global, queue: Queue, rows: &[Row]) {
    let walked = walk(rt, alloc, queue, rows);
    same(rt, walked.told, rows.len());
}

/// The rows that enable and fill a queue of 8.
const READY: &[Row] = &[
    (Step::Enable, Expected::True),
    (Step::Fill, Expected::Count(7)),
];

/// The rows of `count` frames of 60 bytes, each taken before the next is offered.
fn going_round<R: Abort>(rt: &R, alloc: Global, count: usize) -> Vec<Row> {
    let mut rows = Vec::new(alloc);
    add(rt, &mut rows, READY);
    for k in 0..count {
        let round = [
            (Step::Offer(60, k), STORED),
            (Step::Take(k, 0, 60), Expected::True),
            (Step::Fill, Expected::Count(1)),
        ];
        add(rt, &mut rows, &round);
    }
    let all = count as u64;
    let counted = (Step::Counted(all, all, 0, 0), Expected::True);
    add(rt, &mut rows, &[counted]);
    rows
}

#[test]
fn frames_go_round(rt: HostRuntime) {
    let rows = going_round(&rt, rt.alloc(), 21);
    each_tells(&rt, rt.alloc(), (8, true, true), &rows);
}

const SEVEN: &[Row] = &[
    (Step::Offer(60, 0), STORED),
    (Step::Offer(60, 1), STORED),
    (Step::Offer(60, 2), STORED),
    (Step::Offer(60, 3), STORED),
    (Step::Offer(60, 4), STORED),
    (Step::Offer(60, 5), STORED),
    (Step::Offer(60, 6), STORED),
];

const DROPPING: &[Row] = &[
    (Step::Offer(60, 7), DROPPED),
    (Step::Counted(8, 7, 1, 0), Expected::True),
];

const HOLDING: &[Row] = &[
    (Step::Offer(60, 7), HELD),
    (Step::Counted(7, 7, 0, 0), Expected::True),
    (Step::Take(0, 0, 60), Expected::True),
    (Step::Fill, Expected::Count(1)),
    (Step::Offer(60, 7), STORED),
    (Step::Counted(8, 8, 0, 0), Expected::True),
];

/// Checks the rows on a ready ring of 8 with seven frames.
fn each_tells_of_the_eighth<R: Abort>(rt: &R, alloc: Global, drop_en: bool, rows: &[Row]) {
    let mut all = Vec::new(alloc);
    add(rt, &mut all, READY);
    add(rt, &mut all, SEVEN);
    add(rt, &mut all, rows);
    each_tells(rt, alloc, (8, true, drop_en), &all);
}

#[test]
fn the_eighth_is_dropped_or_held(rt: HostRuntime) {
    each_tells_of_the_eighth(&rt, rt.alloc(), true, DROPPING);
    each_tells_of_the_eighth(&rt, rt.alloc(), false, HOLDING);
}

/// The number of places of a ring, whether its buffers are filled to 2,048 bytes or to 1,024, the length of a frame,
/// and the number of full segments and the length of the last one in which it is stored.
type Cut = (u32, bool, usize, usize, usize);

const CUTS: &[Cut] = &[
    (8, false, 14, 0, 14),
    (8, false, 1_024, 0, 1_024),
    (8, false, 1_025, 1, 1),
    (8, false, 2_500, 2, 452),
    (8, false, 2_048, 1, 1_024),
    (8, true, 2_048, 0, 2_048),
    (16, false, 9_000, 8, 808),
    (16, false, 15_000, 14, 664),
    (16, true, 15_000, 7, 664),
    (8, true, 14_336, 6, 2_048),
];

/// Checks that a frame is stored in a ready ring as the row says.
fn is_cut<R: Abort>(rt: &R, alloc: Global, row: Cut) {
    let (n, large, len, full, last) = row;
    let rows = [
        (Step::Enable, Expected::True),
        (Step::Fill, Expected::Count(n.saturating_sub(1))),
        (Step::Offer(len, 3), STORED),
        (Step::Take(3, full, last), Expected::True),
        (Step::FindsNone, Expected::True),
    ];
    let walked = walk(rt, alloc, (n, large, true), &rows);
    same(rt, (len, walked.told), (len, rows.len()));
}

#[test]
fn frames_are_cut(rt: HostRuntime) {
    for row in CUTS {
        is_cut(&rt, rt.alloc(), *row);
    }
}

const TOO_LONG: &[(bool, usize)] = &[(false, 9_000), (true, 15_000), (true, 14_337)];

/// Checks that frames of this length are oversize in a ready ring of 8, and counted so.
fn is_oversize<R: Abort>(rt: &R, alloc: Global, (large, len): (bool, usize)) {
    let rows = [
        (Step::Enable, Expected::True),
        (Step::Fill, Expected::Count(7)),
        (Step::Offer(len, 0), OVERSIZE),
        (Step::Counted(1, 0, 0, 1), Expected::True),
        (Step::Offer(len, 0), OVERSIZE),
        (Step::Counted(2, 0, 0, 2), Expected::True),
        (Step::Offer(len, 0), OVERSIZE),
        (Step::Counted(3, 0, 0, 3), Expected::True),
        (Step::FindsNone, Expected::True),
    ];
    let walked = walk(rt, alloc, (8, large, false), &rows);
    same(rt, (len, walked.told), (len, rows.len()));
}

#[test]
fn what_does_not_fit_is_oversize(rt: HostRuntime) {
    for row in TOO_LONG {
        is_oversize(&rt, rt.alloc(), *row);
    }
}

const REFUSALS: &[Row] = &[
    (Step::Enable, Expected::True),
    (Step::Fill, Expected::Count(15)),
    (Step::Offer(0, 0), REFUSED),
    (Step::Offer(1, 0), REFUSED),
    (Step::Offer(13, 0), REFUSED),
    (Step::Offer(15_001, 0), REFUSED),
    (Step::Offer(20_000, 0), REFUSED),
    (Step::Counted(0, 0, 0, 0), Expected::True),
];

#[test]
fn lengths_are_refused(rt: HostRuntime) {
    each_tells(&rt, rt.alloc(), (16, false, false), REFUSALS);
}

/// Checks the number and the text of a refusal.
fn reads<R: Abort>(rt: &R, alloc: Global, refusal: CtlError, want: &str) {
    let text = format!(in alloc; "{} {refusal}", refusal.number()).expect(rt, "memory");
    same(rt, text.as_str(), want);
}

/// Sizes, and whether buffers are filled to them.
const FILL_SIZES: &[(usize, bool)] = &[
    (0, false),
    (1_023, false),
    (1_024, true),
    (1_025, false),
    (2_047, false),
    (2_048, true),
    (4_096, false),
];

#[test]
fn refusals_have_a_number_and_a_text(rt: HostRuntime) {
    reads(&rt, rt.alloc(), CtlError::FrameLength, "41 frame length");
    reads(&rt, rt.alloc(), CtlError::Memory, "42 memory");
    for (bsize, wanted) in FILL_SIZES {
        same(&rt, (*bsize, is_fill_size(*bsize)), (*bsize, *wanted));
    }
}

/// Adds rows of `count` frames of 60 bytes, from place `first` on, each after one that is oversize.
fn alternate<R: Abort>(rt: &R, rows: &mut Vec<Row>, first: usize, count: usize) {
    for k in 0..count {
        let pair = [
            (Step::Offer(9_000, 0), OVERSIZE),
            (Step::Offer(60, first.saturating_add(k)), STORED),
        ];
        add(rt, rows, &pair);
    }
}

/// Adds rows that take `count` frames of 60 bytes, from place `first` on, and post as many buffers.
fn take<R: Abort>(rt: &R, rows: &mut Vec<Row>, first: usize, count: u32) {
    for k in 0..count as usize {
        let place = first.saturating_add(k);
        add(rt, rows, &[(Step::Take(place, 0, 60), Expected::True)]);
    }
    add(rt, rows, &[(Step::Fill, Expected::Count(count))]);
}

/// The rows of 100 frames, each after one that is oversize; each eighth is held until the seven before it are taken.
fn alternating<R: Abort>(rt: &R, alloc: Global) -> Vec<Row> {
    let mut rows = Vec::new(alloc);
    add(rt, &mut rows, READY);
    for round in 0..14 {
        let first = round * 7;
        alternate(rt, &mut rows, first, 7);
        add(rt, &mut rows, &[(Step::Offer(60, first + 7), HELD)]);
        take(rt, &mut rows, first, 7);
    }
    alternate(rt, &mut rows, 98, 2);
    take(rt, &mut rows, 98, 2);
    let counted = (Step::Counted(200, 100, 0, 100), Expected::True);
    add(rt, &mut rows, &[counted]);
    rows
}

#[test]
fn oversize_frames_between_others(rt: HostRuntime) {
    let rows = alternating(&rt, rt.alloc());
    each_tells(&rt, rt.alloc(), (8, false, false), &rows);
}

/// The rows of a queue whose controller announces that it is quiet, and of one that the driver disables: nothing more
/// is stored.
const QUIET: &[Row] = &[
    (Step::Finish, Expected::True),
    (Step::IsQuiet, Expected::True),
    (Step::Offer(60, 9), OFF),
    (Step::Finish, Expected::False),
];

const DISABLED: &[Row] = &[
    (Step::Disable, Expected::True),
    (Step::IsOff, Expected::True),
    (Step::Offer(60, 9), OFF),
    (Step::Finish, Expected::False),
];

/// The rows of a quiet queue whose frames are all taken.
const TAKEN: &[Row] = &[
    (Step::IsNotDone, Expected::True),
    (Step::Disable, Expected::True),
];

/// The rows of a disabled queue, whose frames stay.
const LEFT: &[Row] = &[];

/// The rows of a queue that is renewed.
const ANEW: &[Row] = &[
    (Step::Offer(60, 9), OFF),
    (Step::Fill, Expected::Count(7)),
    (Step::Enable, Expected::True),
    (Step::Offer(60, 9), STORED),
    (Step::Take(9, 0, 60), Expected::True),
];

/// Adds a row `times` times.
fn repeat<R: Abort>(rt: &R, rows: &mut Vec<Row>, row: Row, times: u32) {
    for _ in 0..times {
        add(rt, rows, &[row]);
    }
}

/// The rows of a queue that is quiet or disabled after `before` frames, and then renewed: nothing more is stored before
/// that, and the tally continues after it. The frames of a quiet one are taken first.
fn over_after<R: Abort>(rt: &R, alloc: Global, before: u32, quiet: bool) -> Vec<Row> {
    let (over, taken, then) = if quiet {
        (QUIET, before, TAKEN)
    } else {
        (DISABLED, 0, LEFT)
    };
    let mut rows = Vec::new(alloc);
    add(rt, &mut rows, READY);
    repeat(rt, &mut rows, (Step::Offer(60, 9), STORED), before);
    add(rt, &mut rows, over);
    let stored = u64::from(before);
    let counted = (Step::Counted(stored, stored, 0, 0), Expected::True);
    add(rt, &mut rows, &[counted]);
    repeat(rt, &mut rows, (Step::Take(9, 0, 60), Expected::True), taken);
    add(rt, &mut rows, then);
    let left = 7u32.saturating_sub(taken);
    add(rt, &mut rows, &[(Step::Renew, Expected::Count(left))]);
    add(rt, &mut rows, ANEW);
    let stored = stored.saturating_add(1);
    let counted = (Step::Counted(stored, stored, 0, 0), Expected::True);
    add(rt, &mut rows, &[counted]);
    rows
}

fn is_over_after<R: Abort>(rt: &R, alloc: Global, before: u32, quiet: bool) {
    let rows = over_after(rt, alloc, before, quiet);
    let walked = walk(rt, alloc, (8, true, true), &rows);
    let row = (before, quiet);
    same(rt, (row, walked.told), (row, rows.len()));
}

#[test]
fn nothing_is_stored_once_it_is_over(rt: HostRuntime) {
    for before in 0..5 {
        is_over_after(&rt, rt.alloc(), before, true);
        is_over_after(&rt, rt.alloc(), before, false);
    }
}

const BEFORE: &[Row] = &[
    (Step::Fill, Expected::Count(7)),
    (Step::Offer(15_000, 0), OFF),
    (Step::Finish, Expected::False),
    (Step::Enable, Expected::True),
    (Step::Offer(15_000, 0), OVERSIZE),
];

#[test]
fn nothing_is_done_before_the_enabling(rt: HostRuntime) {
    let walked = walk(&rt, rt.alloc(), (8, true, true), BEFORE);
    let told = (walked.told, walked.ends_between_frames);
    same(&rt, told, (BEFORE.len(), true));
}
