//! Indexes of the words of a ring's table that are not descriptors, relative to the ring's length. The head comes
//! first, at the ring's length itself. `specs/Registers` lists the words by direction.
ghost use Rattle.std.specs.Prelude.{◌≡◌, ◌≤◌, IfOk, replicate};
ghost use Rattle.limits.specs.declared.profile.TheConstants.{MOST_RING};
ghost use Rattle.shared_ring.specs.Tables.{words_of};

use ring_model::Completion;
use std::alloc::{AllocError, Global};

/// The tail (RDT, TDT).
pub const TAIL: usize = 1;

/// The control word, for ENABLE of RXDCTL and TXDCTL: requests and answers.
pub const CONTROL: usize = 2;

/// The quiet word: whether a receive queue's controller stores no more. No register of the device has it, and a
/// transmit ring leaves it unused.
pub const QUIET: usize = 3;

/// The head as written back to memory (82599 datasheet, 7.2.3.5). Only a transmit ring that reports by a head word has
/// it.
pub const REPORT: usize = 4;

/// Returns the words of a new ring, all 0, with one more if it reports by a head word.
pub(crate) fn opening_words(
    alloc: Global,
    count: usize,
    completion: Completion,
) -> Result<Vec<u64>, AllocError>
    requires { count ≤ MOST_RING }
    ensures { IfOk result (λ v. v.items ≡ replicate (words_of count completion) 0) }
{
    let words = match completion {
        Completion::Status => count + 4,
        Completion::Head => count + 5,
    };
    vec![in alloc; 0u64; words]
}
