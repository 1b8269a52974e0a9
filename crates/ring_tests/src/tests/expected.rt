//! The expected results of rows on running rings.

use crate::YesOrNo;
use ring_model::Note;

/// The result of an action.
#[derive(Clone, Copy, PartialEq)]
pub(crate) enum Expected {
    True,
    False,
    Note(Option<Note>),
    Count(u32),
    Counts(Option<(u32, u32)>),
}

impl YesOrNo for Expected {
    const YES: Expected = Expected::True;

    const NO: Expected = Expected::False;
}

/// The step cannot be made.
pub(crate) const NOTHING: Expected = Expected::Note(None);

/// A row whose step is made, with this note.
macro_rules! noted {
    ($step:expr, $note:expr) => {
        (Act::Make($step), Expected::Note(Some($note)))
    };
}

pub(crate) use noted;
