//! The transmit write-back descriptor (82599 datasheet, 7.2.3.2.4).
ghost use Rattle.std.specs.Prelude.{◌≡◌, ◌/◌, ◌%◌, ◌^◌, ◌↔◌, IsTrue};

use crate::words::is_set;
use crate::{DescError, Descriptor};
use std::fmt;

/// The first word, which is reserved.
const FIRST_WORD: u64 = 0;

/// The second word: DD alone.
const DONE_WORD: u64 = 1 << 32;

/// The descriptor that the controller writes back over a transmit descriptor with RS (82599 datasheet, 7.2.3.2.4): it
/// is done, and so is each one before it.
#[derive(Clone, Copy, Debug, PartialEq, Eq)]
pub struct TxBack;

impl TxBack {
    ghost use Rattle.descriptor.specs.Transmit.{tx_back_second};

    /// Whether a second word has DD (bit 32): the controller has written the descriptor back. The second word of a
    /// `TxRead` does not have it.
    #[inline]
    pub fn is_done(word: u64) -> bool
        ensures { IsTrue result ↔ (word / 2 ^ 32 % 2 ≡ 1) }
    {
        is_set(word, 32)
    }

    /// The second word, which a ring's table keeps.
    #[inline]
    pub fn second_word(&self) -> u64
        ensures layout { result ≡ tx_back_second self.now }
        ensures value { result ≡ 2 ^ 32 }
    {
        DONE_WORD
    }
}

impl Descriptor for TxBack {
    ghost use Rattle.std.proofs.Common.{arith};
    ghost use Rattle.descriptor.specs.Layout.{AreWords};
    ghost use Rattle.descriptor.specs.Transmit.{tx_back_form, no_numbers};

    ghost form = { tx_back_form };

    ghost numbers = { λ _. no_numbers };

    /// Returns 0 and DD alone.
    #[inline]
    fn words(&self) -> (u64, u64)
        ensures layout { AreWords tx_back_form no_numbers result.0 result.1 }
        ensures value { result ≡ (0, 2 ^ 32) }
    {
        (FIRST_WORD, self.second_word())
    }

    /// Returns `Reserved` if any bit is wrong.
    fn from_words(first: u64, second: u64) -> Result<Self, DescError> {
        if first != FIRST_WORD || second != DONE_WORD {
            return Err(DescError::Reserved);
        }
        Ok(TxBack)
    }

    ghost fits = { λ _. (Prim.omega arith, Prim.omega arith) };
}

/// Prints as `dd 1`.
impl fmt::Display for TxBack {
    ghost use Rattle.std.specs.Prelude.{Some};
    ghost use Rattle.descriptor.specs.Texts.{tx_back_text};

    ghost output = { λ d. Some (tx_back_text d) };

    fn fmt<W: fmt::Write>(&self, f: &mut fmt::Formatter<W>) -> fmt::Result {
        write!(f, "dd 1")
    }
}
