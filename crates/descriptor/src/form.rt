//! The calls that the four forms of a descriptor share.
ghost use Rattle.std.specs.Prelude.{◌≡◌, ◌<◌, ◌^◌, ◌↔◌, IfOk, Ok, Err, ℕ};

use crate::DescError;
use crate::words::{bytes_from_words, words_from_bytes};

/// A form of a descriptor: two words of 64 bits, which are 16 bytes. A value has exactly one encoding in words and in
/// bytes, and everything else is refused.
pub trait Descriptor: Sized {
    ghost use Rattle.refusals.specs.declared.errors.DescError.{DescError};
    ghost use Rattle.descriptor.specs.Refusal.{IsLowest};
    ghost use Rattle.descriptor.specs.Layout.{Name, WordLayout, first_word, second_word, AreWords, AreBytes, KeepsWords, KeepsBytes};

    /// The datasheet's figure.
    ghost form: { WordLayout };

    /// The number of a descriptor in each field of the figure.
    ghost numbers: { Self → Name → ℕ };

    /// The two words.
    fn words(&self) -> (u64, u64)
        ensures layout { AreWords form (numbers self.now) result.0 result.1 };

    /// The descriptor with these two words. Of the refusals that apply, returns the one with the lowest number:
    /// `Reserved`, `Kind`, or `Size` for a data length or PAYLEN out of range.
    fn from_words(first: u64, second: u64) -> Result<Self, DescError>
        ensures accepted { IfOk result (λ d. AreWords form (numbers d) first second) }
        ensures reads_back { (d : Self) → AreWords form (numbers d) first second → result ≡ Ok d }
        ensures refused { (e : DescError) → (result ≡ Err e) ↔ IsLowest (KeepsWords form first second) e };

    /// The descriptor in 16 bytes: its two words, each with its lowest byte first.
    final fn to_bytes(&self) -> [u8; 16]
        ensures { AreBytes form (numbers self.now) result }
    {
        let (first, second) = self.words();
        bytes_from_words(first, second)
    }

    /// The descriptor with these 16 bytes; `from_bytes` inverts `to_bytes`. Returns `Length` if there are not 16 bytes,
    /// and the refusals of `from_words`.
    final fn from_bytes(bytes: &[u8]) -> Result<Self, DescError>
        ensures accepted { IfOk result (λ d. AreBytes form (numbers d) bytes.now) }
        ensures reads_back { (d : Self) → AreBytes form (numbers d) bytes.now → result ≡ Ok d }
        ensures refused { (e : DescError) → (result ≡ Err e) ↔ IsLowest (KeepsBytes form bytes.now) e }
    {
        let (first, second) = words_from_bytes(bytes)?;
        Self::from_words(first, second)
    }

    // each word has 64 bits
    ghost fits: { (d : Self) → (first_word form (numbers d) < 2 ^ 64) × (second_word form (numbers d) < 2 ^ 64) };
}
