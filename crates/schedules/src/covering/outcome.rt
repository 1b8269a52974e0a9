//! The outcomes of moves, as pairs distinguish them.
ghost use Rattle.std.specs.Prelude.{◌≡◌, ◌<◌, Some};
ghost use Rattle.schedules.specs.OutcomeKind.{outcome_of, outcome_number, outcome_words};

use ring_machine::{MachineError, Note};
use std::fmt;

/// The outcome of a move: it was not made, or the kind of its note.
#[derive(Clone, Copy, PartialEq, Eq)]
pub enum OutcomeKind {
    /// The queue had no such step.
    NotEnabled,
    /// A place was posted or written back.
    Place,
    /// The tail was stored.
    Tail,
    /// The controller of a receive queue knows how many descriptors are free.
    Free,
    /// The controller of a transmit queue knows how many descriptors are ready.
    Ready,
    /// A descriptor of a receive queue was fetched.
    Fetched,
    /// A descriptor of a transmit queue was fetched.
    Sending,
    /// DD was not set.
    NothingTaken,
    /// A segment was taken.
    Taken,
    /// There was no report.
    NothingReported,
    /// A report was seen.
    Reported,
    /// The head was stored.
    Head,
    /// A buffer came back.
    Buffer,
    /// A control value was stored or loaded.
    Control,
    /// A quiet value was stored or loaded.
    Quiet,
}

/// The number of kinds.
pub(crate) const OUTCOME_KINDS: usize = 15;

/// The words of the kinds, in their order: a note's without its numbers.
const OUTCOME_WORDS: [&str; OUTCOME_KINDS] = [
    "not enabled",
    "place",
    "tail",
    "free",
    "ready",
    "place buffer",
    "place buffer length eop rs",
    "none",
    "buffer length eop",
    "none",
    "reported",
    "head",
    "buffer",
    "control",
    "quiet",
];

impl OutcomeKind {
    /// The outcome of a move with this result.
    pub fn of(answer: Result<Note, MachineError>) -> OutcomeKind
        ensures { result ≡ outcome_of answer }
    {
        match answer {
            Err(_) => OutcomeKind::NotEnabled,
            Ok(Note::Place(_)) => OutcomeKind::Place,
            Ok(Note::Tail(_)) => OutcomeKind::Tail,
            Ok(Note::Free(_)) => OutcomeKind::Free,
            Ok(Note::Ready(_)) => OutcomeKind::Ready,
            Ok(Note::Fetched(_, _)) => OutcomeKind::Fetched,
            Ok(Note::Sending(_, _)) => OutcomeKind::Sending,
            Ok(Note::Taken(None)) => OutcomeKind::NothingTaken,
            Ok(Note::Taken(Some(_))) => OutcomeKind::Taken,
            Ok(Note::Reported(None)) => OutcomeKind::NothingReported,
            Ok(Note::Reported(Some(_))) => OutcomeKind::Reported,
            Ok(Note::Head(_)) => OutcomeKind::Head,
            Ok(Note::Buffer(_)) => OutcomeKind::Buffer,
            Ok(Note::Control(_)) => OutcomeKind::Control,
            Ok(Note::Quiet(_)) => OutcomeKind::Quiet,
        }
    }

    /// The number of the kind, from 0, in the order above.
    pub fn number(self) -> usize
        ensures value { result ≡ outcome_number self }
        ensures below { result < 15 }
    {
        self as usize
    }
}

impl fmt::Display for OutcomeKind {
    ghost output = { λ t. Some (outcome_words t) };

    fn fmt<W: fmt::Write>(&self, f: &mut fmt::Formatter<W>) -> fmt::Result {
        f.write_str(OUTCOME_WORDS[*self as usize])
    }
}
