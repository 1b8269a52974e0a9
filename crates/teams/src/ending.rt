//! How the work of a worker or of a whole team ends.
ghost use Rattle.std.specs.Prelude.{◌≡◌};
ghost use Rattle.teams.specs.Endings.{worse};

use refusals::ForwardError;

/// How work ended.
#[derive(Clone, Copy, Debug, PartialEq, Eq)]
pub(crate) enum Ending {
    /// All is done.
    Done,
    /// With this refusal, the first to set the stop word.
    Refused(ForwardError),
    /// Another refusal had set the stop word.
    Stopped,
}

impl Ending {
    /// How this and other work ended together: with the refusal, if either has one.
    pub(crate) fn and(self, other: Ending) -> Ending
        ensures { result ≡ worse self other }
    {
        match (self, other) {
            (Ending::Done, _) => other,
            (Ending::Stopped, Ending::Refused(_)) => other,
            _ => self,
        }
    }
}
