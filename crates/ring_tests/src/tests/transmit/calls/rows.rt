//! Worked rows by calls in one thread, in both completions.

use crate::tests::expected::{Expected, NOTHING, noted};
use crate::tests::steps::TxNamed;
use crate::tests::transmit::calls::both::{Both, Step, step_of};
use crate::tests::wanted::same;
use crate::{Beside, Tells, YesOrNo, disable, enable, makes, told_so};
use ring_machine::SegmentDescriptor;
use ring_model::{FetchedSegment, Note, TxStep};
use std::alloc::Global;
use std::process::Abort;
use tx_ring::{
    Completion, ControllerEnd, DriverEnd, RingError, TxControllerEnd, TxDriverEnd, TxRing,
};

const BOTH_WAYS: [Completion; 2] = [Completion::Status, Completion::Head];

/// An action of a row on a ring, or a look at it.
#[derive(Clone, Copy)]
pub(crate) enum Act {
    /// Makes a step that posts nothing.
    Make(TxNamed),
    /// Posts a whole frame of 60 bytes, with RS or without.
    Post(bool),
    /// Makes a step that returns a buffer, until none is left: whether it returned these.
    Returns(TxNamed, &'static [u16]),
    /// Makes a report in the way of the ring's completion.
    Report,
    Enable,
    Disable,
    /// The number of postings left to send.
    Left,
    /// Enables the queue, and posts and sends the frame, checking its words.
    Words(Worded),
    /// Lets the ends meet.
    Meet,
}

/// A posting with these values.
fn posting(len: u16, eop: bool, rs: bool, paylen: u16) -> Step {
    SegmentDescriptor::new(0, len, eop, rs, paylen).map_or(TxStep::ClearTail, TxStep::Post)
}

/// Whether a report returns what it should: a place, or a head.
fn is_reported(both: &mut Both) -> bool {
    let wanted = match both.completion {
        Completion::Status => Note::Place(0),
        Completion::Head => Note::Head(0),
    };
    both.call(TxStep::Report) == Some(wanted)
}

/// Whether the step returns these buffers, and no other.
fn returns(both: &mut Both, step: TxNamed, buffers: &[u16]) -> bool {
    for number in buffers {
        if both.call(step_of(step)) != Some(Note::Buffer(*number)) {
            return false;
        }
    }
    both.call(step_of(step)).is_none()
}

impl Tells for Both {
    type Step = Act;

    type Expected = Expected;

    fn make(&mut self, act: Act) -> Expected {
        match act {
            Act::Make(step) => Expected::Note(self.call(step_of(step))),
            Act::Post(rs) => Expected::Note(self.call(posting(60, true, rs, 60))),
            Act::Returns(step, buffers) => Expected::whether(returns(self, step, buffers)),
            Act::Report => Expected::whether(is_reported(self)),
            Act::Enable => Expected::whether(enable(self)),
            Act::Disable => Expected::whether(disable(self)),
            Act::Left => Expected::Counts(self.left()),
            Act::Words(frame) => Expected::whether(has_words(self, &frame)),
            Act::Meet => {
                self.meet();
                Expected::True
            }
        }
    }
}

/// An action on a new ring, and its expected result.
type Row = (Act, Expected);

/// Returns how many rows agreed before the first that did not. Generic, since an owner of a queue is expensive to
/// prove.
fn walked<B: Tells<Step = Act, Expected = Expected> + Drop>(mut both: B, rows: &[Row]) -> usize {
    told_so(&mut both, rows)
}

/// Checks the rows on a new ring of `n` places, in both completions.
fn come_out<R: Abort>(rt: &R, alloc: Global, n: u32, rows: &[Row]) {
    for completion in BOTH_WAYS {
        let told = walked(Both::new(rt, alloc, n, completion), rows);
        same(rt, told, rows.len());
    }
}

/// The report is made. Its place is 0, since no call returns one.
const REPORTED: Expected = Expected::Note(Some(Note::Reported(Some(0))));

/// A fetched frame of 60 bytes in the buffer of this number, with RS or without.
macro_rules! sending {
    ($buffer:expr, $rs:expr) => {
        Expected::Note(Some(Note::Sending(
            0,
            FetchedSegment {
                buffer: $buffer,
                len: 60,
                eop: true,
                rs: $rs,
            },
        )))
    };
}

/// A frame that asks for a report is sent, and cleaned once the report is made.
const ONE: &[Row] = &[
    (Act::Enable, Expected::True),
    (Act::Post(true), Expected::Note(Some(Note::Place(0)))),
    noted!(TxStep::Publish, Note::Tail(0)),
    (Act::Make(TxStep::LoadReport), NOTHING),
    noted!(TxStep::Look, Note::Ready(1)),
    (Act::Make(TxStep::Fetch), sending!(31, true)),
    noted!(TxStep::Send, Note::Head(0)),
    (Act::Make(TxStep::LoadReport), NOTHING),
    (Act::Report, Expected::True),
    (Act::Make(TxStep::LoadReport), REPORTED),
    noted!(TxStep::Clean, Note::Buffer(31)),
    (Act::Meet, Expected::True),
];

/// The first of two frames asks for no report: the second's covers it.
const TWO: &[Row] = &[
    (Act::Enable, Expected::True),
    (Act::Post(false), Expected::Note(Some(Note::Place(0)))),
    (Act::Post(true), Expected::Note(Some(Note::Place(0)))),
    noted!(TxStep::Publish, Note::Tail(0)),
    noted!(TxStep::Look, Note::Ready(2)),
    (Act::Make(TxStep::Fetch), sending!(31, false)),
    noted!(TxStep::Send, Note::Head(0)),
    (Act::Make(TxStep::Report), NOTHING),
    (Act::Make(TxStep::Fetch), sending!(30, true)),
    noted!(TxStep::Send, Note::Head(0)),
    (Act::Make(TxStep::Clean), NOTHING),
    (Act::Report, Expected::True),
    (Act::Make(TxStep::LoadReport), REPORTED),
    (Act::Make(TxStep::LoadReport), NOTHING),
    (Act::Returns(TxStep::Clean, &[31, 30]), Expected::True),
    (Act::Meet, Expected::True),
];

#[test]
fn reports(rt: HostRuntime) {
    come_out(&rt, rt.alloc(), 8, ONE);
    come_out(&rt, rt.alloc(), 8, TWO)
}

/// A frame is posted without RS.
const POSTED: Row = (Act::Post(false), Expected::Note(Some(Note::Place(0))));

/// Three frames are posted without RS, and the first is sent: two are left, three buffers come back, and nothing else
/// can be done.
const TWO_LEFT: &[Row] = &[
    (Act::Enable, Expected::True),
    POSTED,
    POSTED,
    POSTED,
    noted!(TxStep::Publish, Note::Tail(0)),
    noted!(TxStep::Look, Note::Ready(3)),
    (Act::Make(TxStep::Fetch), sending!(31, false)),
    noted!(TxStep::Send, Note::Head(0)),
    (Act::Disable, Expected::True),
    (Act::Left, Expected::Counts(Some((2, 2)))),
    (Act::Make(TxStep::LoadReport), NOTHING),
    (Act::Make(TxStep::Look), NOTHING),
    (Act::Returns(TxStep::Reclaim, &[31, 30, 29]), Expected::True),
    (Act::Meet, Expected::True),
];

#[test]
fn two_are_left_of_three(rt: HostRuntime) {
    come_out(&rt, rt.alloc(), 8, TWO_LEFT)
}

/// A frame and the second words of its descriptors.
#[derive(Clone, Copy)]
pub(crate) struct Worded {
    paylen: u16,
    /// The number of full segments of 1,024 bytes before the last, and the word of each.
    full: u16,
    word: u64,
    /// The length of the last segment, and its word.
    len: u16,
    last: u64,
}

/// Posts the frame on an enabled queue and publishes it. Returns whether it could be published, and not before its last
/// segment.
fn posts(both: &mut Both, frame: &Worded) -> bool {
    for _ in 0..frame.full {
        both.call(posting(1_024, false, false, frame.paylen));
    }
    let is_begun = both.call(TxStep::Publish).is_none();
    both.call(posting(frame.len, true, true, frame.paylen));
    is_begun && makes(both, &[TxStep::Publish, TxStep::Look])
}

/// Sends the frame. Returns whether its words are these.
fn sends_words(both: &mut Both, frame: &Worded) -> bool {
    for _ in 0..frame.full {
        if !makes(both, &[TxStep::Fetch, TxStep::Send]) || both.word != frame.word {
            return false;
        }
    }
    makes(both, &[TxStep::Fetch, TxStep::Send, TxStep::Report]) && both.word == frame.last
}

/// Whether the frame is posted and sent with these words, and none is ready then.
fn has_words(both: &mut Both, frame: &Worded) -> bool {
    enable(both) && posts(both, frame) && sends_words(both, frame) && both.controller.ready() == 0
}

const SHORT: &[Row] = &[(
    Act::Words(Worded {
        paylen: 2_500,
        full: 2,
        word: 0x0271_0000_2230_0400,
        len: 452,
        last: 0x0271_0000_2b30_01c4,
    }),
    Expected::True,
)];

const LONG: &[Row] = &[(
    Act::Words(Worded {
        paylen: 15_000,
        full: 14,
        word: 0x0ea6_0000_2230_0400,
        len: 664,
        last: 0x0ea6_0000_2b30_0298,
    }),
    Expected::True,
)];

#[test]
fn second_words_are_those_of_the_datasheet(rt: HostRuntime) {
    come_out(&rt, rt.alloc(), 16, SHORT);
    come_out(&rt, rt.alloc(), 16, LONG)
}

/// A ring with its two ends.
type Ring = (TxRing, TxDriverEnd, TxControllerEnd);

/// A new ring. For `None` it is made by `new`.
fn made(alloc: Global, n: u32, completion: Option<Completion>) -> Result<Ring, RingError> {
    match completion {
        Some(completion) => TxRing::new_with(alloc, n, completion),
        None => TxRing::new(alloc, n),
    }
}

/// The sizes of a ring's ends, and its room.
fn sizes_of(driver: &TxDriverEnd, controller: &TxControllerEnd) -> [u32; 3] {
    [driver.size(), controller.size(), driver.room()]
}

/// The same numbers of a new ring.
fn sizes(alloc: Global, n: u32, completion: Option<Completion>) -> Result<[u32; 3], RingError> {
    let (_ring, driver, controller) = made(alloc, n, completion)?;
    Ok(sizes_of(&driver, &controller))
}

const LAWFUL: &[u32] = &[8, 16, 32, 64, 128, 256, 512, 1_024, 2_048, 4_096];

/// Checks that a ring of this length is made.
fn is_made<R: Abort>(rt: &R, alloc: Global, n: u32, completion: Option<Completion>) {
    let told = sizes(alloc, n, completion);
    same(rt, told, Ok([n, n, n.wrapping_sub(1)]));
}

#[test]
fn lawful_lengths_are_made(rt: HostRuntime) {
    for n in LAWFUL {
        is_made(&rt, rt.alloc(), *n, Some(Completion::Status));
        is_made(&rt, rt.alloc(), *n, Some(Completion::Head));
        is_made(&rt, rt.alloc(), *n, None);
    }
}

const UNLAWFUL: &[u32] = &[0, 4, 7, 9, 12, 4_097, 8_192, u32::MAX];

/// Checks that a ring of this length is refused.
fn is_refused<R: Abort>(rt: &R, alloc: Global, n: u32, completion: Completion) {
    let told = sizes(alloc, n, Some(completion));
    same(rt, (n, told), (n, Err(RingError::RingLength)));
}

#[test]
fn other_lengths_are_refused(rt: HostRuntime) {
    for n in UNLAWFUL {
        is_refused(&rt, rt.alloc(), *n, Completion::Status);
        is_refused(&rt, rt.alloc(), *n, Completion::Head);
    }
}
