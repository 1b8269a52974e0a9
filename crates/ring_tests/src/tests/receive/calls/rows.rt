//! Worked rows of a receive ring, by calls.

use crate::tests::expected::{Expected, NOTHING, noted};
use crate::tests::receive::calls::both::Both;
use crate::tests::steps::{RxNamed, rx_step};
use crate::tests::wanted::same;
use crate::{Beside, Tells, YesOrNo, disable, enable, told_so};
use buffer_pool::Buf;
use ring_model::{ControlStep, Note, RxStep, TakenSegment};
use rx_ring::{ControllerEnd, DriverEnd, RingError, RxDriverEnd, RxRing};
use std::alloc::Global;
use std::process::Abort;

/// An action of a row on a ring, or a look at it.
#[derive(Clone, Copy)]
pub(crate) enum Act {
    /// Makes a step.
    Make(RxNamed),
    /// Makes a step up to this many times, as long as it can be made.
    Times(u32, RxNamed),
    /// Makes a step of the handshake, then checks that the driver is in this state.
    Controls(ControlStep, State),
    Enable,
    Disable,
    /// Stores this many frames of 60 bytes in one segment each, and the head after each.
    Stores(u32),
    /// Stores, takes and posts again this many frames, one after another.
    GoRound(u32),
    /// The number of segments left to take.
    Left,
    /// The numbers of segments stored and taken.
    Counts,
    HasFinished,
    IsOff,
}

/// The state of a driver.
#[derive(Clone, Copy, PartialEq)]
pub(crate) enum State {
    New,
    /// It asked for enabling.
    Asked,
    On,
    Stopping,
    Disabled,
}

/// Whether the state tests show that the driver is in this state.
fn is_in(driver: &RxDriverEnd, state: State) -> bool {
    driver.is_new() == (state == State::New)
        && driver.is_on() == (state == State::On)
        && driver.is_stopped() == (state == State::Disabled)
        && driver.is_live() == matches!(state, State::On | State::Stopping)
        && driver.is_open() == matches!(state, State::New | State::Asked | State::On)
}

/// Makes the step and returns its note, or `None` if it cannot be made.
fn make(both: &mut Both, named: RxNamed) -> Option<Note> {
    both.call(rx_step(named)?)
}

/// Makes the step up to `count` times. Returns how often it could be made.
fn times(both: &mut Both, count: u32, named: RxNamed) -> u32 {
    for k in 0..count {
        if make(both, named).is_none() {
            return k;
        }
    }
    count
}

/// Makes these steps. Returns whether all could be made.
fn makes(both: &mut Both, steps: &[RxNamed]) -> bool {
    for step in steps {
        if make(both, *step).is_none() {
            return false;
        }
    }
    true
}

const STORING: &[RxNamed] = &[
    RxStep::Look,
    RxStep::Fetch,
    RxStep::Store(60, true),
    RxStep::Head,
];

const TAKING: &[RxNamed] = &[RxStep::Take, RxStep::Post(0), RxStep::Publish];

/// Stores frames of 60 bytes. Returns how many could be stored.
fn stores(both: &mut Both, frames: u32) -> u32 {
    for k in 0..frames {
        if !makes(both, STORING) {
            return k;
        }
    }
    frames
}

/// Stores, takes and posts again frames, one after another. Returns how many went round.
fn go_round(both: &mut Both, frames: u32) -> u32 {
    for k in 0..frames {
        if !makes(both, STORING) || !makes(both, TAKING) {
            return k;
        }
    }
    frames
}

impl Tells for Both {
    type Step = Act;

    type Expected = Expected;

    fn make(&mut self, act: Act) -> Expected {
        match act {
            Act::Make(step) => Expected::Note(make(self, step)),
            Act::Times(count, step) => Expected::Count(times(self, count, step)),
            Act::Controls(step, state) => {
                let note = self.call(RxStep::Control(step));
                if is_in(&self.driver, state) {
                    Expected::Note(note)
                } else {
                    Expected::False
                }
            }
            Act::Enable => Expected::whether(enable(self)),
            Act::Disable => Expected::whether(disable(self)),
            Act::Stores(frames) => Expected::Count(stores(self, frames)),
            Act::GoRound(frames) => Expected::Count(go_round(self, frames)),
            Act::Left => Expected::Counts(self.left()),
            Act::Counts => Expected::Counts(Some((self.stored_count, self.taken_count))),
            Act::HasFinished => Expected::whether(self.controller.has_finished()),
            Act::IsOff => Expected::whether(self.is_off()),
        }
    }
}

/// An action on a ring of 8, and its expected result.
type Row = (Act, Expected);

/// The only empty place of a closed ring.
fn empty_place(slots: &[Option<Buf>]) -> Option<usize> {
    let mut empty = None;
    for k in 0..slots.len() {
        if slots[k].is_none() {
            if empty.is_some() {
                return None;
            }
            empty = Some(k);
        }
    }
    empty
}

/// Returns how many rows agreed before the first that did not, and the only empty place of the ring when it was closed
/// then. Generic, since an owner of a queue is expensive to prove.
fn walked<B: Beside + Drop + Tells<Step = Act, Expected = Expected>>(
    mut both: B,
    rows: &[Row],
) -> (usize, Option<usize>) {
    let told = told_so(&mut both, rows);
    (told, empty_place(&both.close().slots))
}

/// Checks the rows on a new ring of 8. Returns the only empty place when it was closed then.
fn comes_to<R: Abort>(rt: &R, alloc: Global, rows: &[Row]) -> Option<usize> {
    let (told, place) = walked(Both::new(rt, alloc, 8), rows);
    same(rt, told, rows.len());
    place
}

/// The head is 5 at the end, and so is the place to take next.
const ROUND: &[Row] = &[
    (Act::Enable, Expected::True),
    (Act::Times(7, RxStep::Post(0)), Expected::Count(7)),
    noted!(RxStep::Publish, Note::Tail(0)),
    (Act::GoRound(21), Expected::Count(21)),
    (Act::Counts, Expected::Counts(Some((21, 21)))),
    (Act::Disable, Expected::True),
    (Act::Left, Expected::Counts(Some((0, 0)))),
];

#[test]
fn frames_with_heads_go_round(rt: HostRuntime) {
    same(&rt, comes_to(&rt, rt.alloc(), ROUND), Some(4));
}

/// A step of the handshake, with the driver's state after it and the value of the control word.
macro_rules! after_control_step {
    ($step:ident, $state:ident, $value:expr) => {
        (
            Act::Controls(ControlStep::$step, State::$state),
            Expected::Note(Some(Note::Control($value))),
        )
    };
}

/// The queue is enabled and then disabled, and nothing else can be done.
const CONTROL_STEPS: &[Row] = &[
    after_control_step!(LookAnswered, New, 0),
    (Act::Controls(ControlStep::AskDisable, State::New), NOTHING),
    (Act::Controls(ControlStep::Answer, State::New), NOTHING),
    after_control_step!(AskEnable, Asked, 1),
    after_control_step!(LookAsked, Asked, 1),
    after_control_step!(Answer, Asked, 2),
    (Act::Controls(ControlStep::Answer, State::Asked), NOTHING),
    after_control_step!(LookAnswered, On, 2),
    after_control_step!(AskDisable, Stopping, 3),
    after_control_step!(LookAsked, Stopping, 3),
    after_control_step!(LookAnswered, Stopping, 3),
    after_control_step!(Answer, Stopping, 0),
    after_control_step!(LookAnswered, Disabled, 0),
    (
        Act::Controls(ControlStep::AskEnable, State::Disabled),
        NOTHING,
    ),
];

#[test]
fn enabling_and_disabling_by_calls(rt: HostRuntime) {
    comes_to(&rt, rt.alloc(), CONTROL_STEPS);
}

/// The first posted buffer, with a whole frame of 60 bytes.
const TAKEN: TakenSegment = TakenSegment {
    buffer: 31,
    len: 60,
    eop: true,
};

/// Three of seven frames are stored and one is taken: two are left, neither side gets more, and seven buffers come
/// back.
const TWO_LEFT: &[Row] = &[
    (Act::Enable, Expected::True),
    (Act::Times(7, RxStep::Post(0)), Expected::Count(7)),
    noted!(RxStep::Publish, Note::Tail(0)),
    (Act::Stores(3), Expected::Count(3)),
    noted!(RxStep::Take, Note::Taken(Some(TAKEN))),
    noted!(RxStep::Post(0), Note::Place(0)),
    noted!(RxStep::Publish, Note::Tail(0)),
    (Act::Disable, Expected::True),
    (Act::Left, Expected::Counts(Some((2, 2)))),
    (Act::Make(RxStep::Take), NOTHING),
    (Act::Make(RxStep::Look), NOTHING),
    (Act::Times(7, RxStep::Reclaim), Expected::Count(7)),
    (Act::Make(RxStep::Reclaim), NOTHING),
    (Act::IsOff, Expected::True),
];

#[test]
fn disabled_with_two_left(rt: HostRuntime) {
    comes_to(&rt, rt.alloc(), TWO_LEFT);
}

/// A queue cannot become quiet before it is enabled. The segments left in a quiet queue can still be taken, and nothing
/// more is stored.
const QUIET: &[Row] = &[
    (Act::Make(RxStep::StoreQuiet), NOTHING),
    (Act::Enable, Expected::True),
    (Act::Times(2, RxStep::Post(0)), Expected::Count(2)),
    noted!(RxStep::Publish, Note::Tail(0)),
    (Act::Stores(1), Expected::Count(1)),
    noted!(RxStep::LoadQuiet, Note::Quiet(0)),
    noted!(RxStep::StoreQuiet, Note::Quiet(1)),
    (Act::HasFinished, Expected::True),
    noted!(RxStep::Look, Note::Free(1)),
    (Act::Make(RxStep::Fetch), NOTHING),
    noted!(RxStep::LoadQuiet, Note::Quiet(1)),
    noted!(RxStep::Take, Note::Taken(Some(TAKEN))),
    noted!(RxStep::Take, Note::Taken(None)),
];

#[test]
fn quiet_by_calls(rt: HostRuntime) {
    comes_to(&rt, rt.alloc(), QUIET);
}

/// The sizes of a new ring's ends, its room, and its number of free descriptors.
fn sizes(alloc: Global, n: u32) -> Result<[u32; 4], RingError> {
    let (_ring, driver, controller) = RxRing::new(alloc, n)?;
    Ok([
        driver.size(),
        controller.size(),
        driver.room(),
        controller.free(),
    ])
}

const LAWFUL: &[u32] = &[8, 16, 32, 64, 128, 256, 512, 1_024, 2_048, 4_096];

#[test]
fn lawful_lengths_are_made(rt: HostRuntime) {
    for n in LAWFUL {
        let wanted = [*n, *n, n.wrapping_sub(1), 0];
        same(&rt, (*n, sizes(rt.alloc(), *n)), (*n, Ok(wanted)));
    }
}

const UNLAWFUL: &[u32] = &[0, 1, 4, 7, 9, 12, 4_095, 4_097, 8_192, u32::MAX];

#[test]
fn other_lengths_are_refused(rt: HostRuntime) {
    for n in UNLAWFUL {
        let refused = Err(RingError::RingLength);
        same(&rt, (*n, sizes(rt.alloc(), *n)), (*n, refused));
    }
}

#[test]
fn refusals_have_numbers_and_words(rt: HostRuntime) {
    let refusal = RingError::RingLength;
    same(
        &rt,
        (refusal.number(), RingError::Memory.number()),
        (21, 22),
    );
    let words = format!(in rt.alloc(); "{refusal}").expect(&rt, "memory");
    same(&rt, words.as_str(), "ring length");
}
