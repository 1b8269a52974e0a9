//! The numbers that are shown of a run, and their text.
ghost use Rattle.std.specs.Prelude.{Some};
ghost use Rattle.forward_io.specs.ShownLines.{line_text, words_of};

use requests::ProgressForm;
use std::fmt;

/// The sums over all flows. Some flows may be read later than others.
#[derive(Clone, Copy, Debug, PartialEq, Eq)]
pub struct LiveTotals {
    /// The frames offered so far.
    pub offered: u64,
    /// The frames that are to be offered.
    pub frames: u64,
    /// The frames that the drivers have taken.
    pub taken: u64,
    /// The frames that the drivers have posted.
    pub posted: u64,
    /// The frames posted per second since the previous report.
    pub per_second: u64,
}

/// The text of one report, without the end of its line.
#[derive(Clone, Copy, Debug, PartialEq, Eq)]
pub struct ProgressLine {
    /// The form of the text.
    pub form: ProgressForm,
    /// The numbers.
    pub shown: LiveTotals,
}

impl fmt::Display for ProgressLine {
    ghost output = { λ l. Some (line_text l.form l.shown) };

    fn fmt<W: fmt::Write>(&self, f: &mut fmt::Formatter<W>) -> fmt::Result {
        let shown = self.shown;
        match self.form {
            ProgressForm::Lines => write!(f, "{}", Words { shown }),
            ProgressForm::Rewritten => write!(f, "\r\u{1b}[K{}", Words { shown }),
            ProgressForm::Objects => write!(
                f,
                "{{\"offered\":{},\"frames\":{},\"taken\":{},\"posted\":{},\"per_second\":{}}}",
                shown.offered, shown.frames, shown.taken, shown.posted, shown.per_second,
            ),
        }
    }
}

/// The numbers, each after its word.
#[derive(Clone, Copy)]
struct Words {
    shown: LiveTotals,
}

impl fmt::Display for Words {
    ghost output = { λ w. Some (words_of w.shown) };

    fn fmt<W: fmt::Write>(&self, f: &mut fmt::Formatter<W>) -> fmt::Result {
        let LiveTotals {
            offered,
            frames,
            taken,
            posted,
            per_second,
        } = self.shown;
        write!(
            f,
            "offered {offered} of {frames} taken {taken} posted {posted} per-second {per_second}"
        )
    }
}
