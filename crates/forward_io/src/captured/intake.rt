//! The frames that a forwarding takes in.
ghost use Rattle.std.specs.Prelude.{◌≡◌};
ghost use Rattle.forward_io.specs.Intakes.{FrameIntake, has_input, reads_script};

use capture::ReadOptions;
use requests::{Source, names_input};
use std::marker::Model;

/// The frames that come in: those of captures, and then those of a script in the input.
#[derive(Debug, Drop)]
pub struct Intake<'s, 'w> {
    /// The captures, in the order in which their frames come in.
    pub sources: &'s [Source<'w>],
    /// How the captures are read.
    pub reading: ReadOptions,
    /// Whether the input is a terminal. A terminal is not read after captures.
    pub is_terminal: bool,
}

impl<'s, 'w> Model for Intake<'s, 'w> {
    ghost Value = { FrameIntake };

    ghost view = { λ i. record { sources = i.sources.now; reading = i.reading; is_terminal = i.is_terminal } };
}

impl<'s, 'w> Intake<'s, 'w> {
    /// Whether the input is read as a script: always without captures; after captures unless the input is a terminal or
    /// one of the captures (`-` or `/dev/stdin`).
    pub fn reads_script(&self) -> bool
        ensures { result ≡ reads_script self.now }
    {
        self.sources.is_empty() || !(self.is_terminal || has_input(self.sources))
    }
}

/// Whether one of these captures is standard input.
fn has_input(sources: &[Source<'_>]) -> bool
    ensures { result ≡ has_input sources.now }
{
    for source in sources {
        if names_input(source.file()) {
            return true;
        }
    }
    false
}
