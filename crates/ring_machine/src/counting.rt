//! Counting the steps of a schedule.

ghost use Rattle.std.specs.Prelude.{◌≡◌, ◌≤◌};
ghost use Rattle.ring_machine.specs.shared.Following.{count_of};

use refusals::MachineError;
use ring_model::Note;

/// Returns the number of steps made according to an answer: one or none.
pub(crate) fn count_of(answer: &Result<Note, MachineError>) -> usize
    ensures value { result ≡ count_of answer.now }
    ensures one { result ≤ 1 }
{
    usize::from(answer.is_ok())
}
