//! How a report is printed, and whether progress and a rate are shown.
ghost use Rattle.std.specs.Prelude.{◌≡◌, None, Some, false, true};
ghost use Rattle.requests.specs.declared.printing.ProgressForm.TheVariants.{Objects};

/// How progress is written to the screen.
#[derive(Clone, Copy, Debug, PartialEq, Eq)]
pub enum ProgressForm {
    /// A new line for each report.
    Lines,
    /// One line of a terminal, which each report overwrites.
    Rewritten,
    /// A JSON object for each report, on its own line.
    Objects,
}

/// How a report is printed, and whether progress and a rate are shown.
#[derive(Clone, Copy, Debug, Default, PartialEq, Eq)]
pub struct Printing {
    /// Omits the frames of the wires.
    pub quiet: bool,
    /// Prints the counts of each flow as a JSON object instead of a line of words.
    pub json: bool,
    /// Shows progress once a second during the run, on a stream other than the output: as JSON objects with `json`,
    /// otherwise as words.
    pub progress: bool,
    /// Shows the frames and bytes that left and their rate at the end of the run, on the same stream and in the same form.
    pub rate: bool,
}

impl Printing {
    /// The form of the progress, or `None` if it is not shown. Without `json`, a terminal shows one line that is
    /// rewritten.
    pub fn form(self, on_terminal: bool) -> Option<ProgressForm>
        ensures unshown { self.progress ≡ false → result ≡ None }
        ensures objects { self.progress ≡ true → self.json ≡ true → result ≡ Some Objects }
    {
        if !self.progress {
            return None;
        }
        Some(if self.json {
            ProgressForm::Objects
        } else if on_terminal {
            ProgressForm::Rewritten
        } else {
            ProgressForm::Lines
        })
    }
}
