//! The receive write-back descriptor (82599 datasheet, 7.1.6.2).
ghost use Rattle.std.specs.Prelude.{◌≡◌, ◌+◌, ◌*◌, ◌/◌, ◌%◌, ◌^◌, ◌<◌, ◌≤◌, ◌↔◌, IsTrue, IfOk};
ghost use Rattle.limits.specs.declared.profile.TheConstants.{BUFFER_BYTES};
ghost use Rattle.descriptor.specs.Layout.{bit};

use crate::words::{bits, is_set};
use crate::{DescError, Descriptor};
use limits::BUFFER_BYTES;
use std::fmt;

/// The first word: no hash, no packet type and no header length.
const FIRST_WORD: u64 = 0;

/// The descriptor that the controller writes back on a receive ring (82599 datasheet, 7.1.6.2): DD is set, with the
/// number of bytes in its buffer.
#[derive(Clone, Copy, Debug, PartialEq, Eq)]
pub struct RxBack {
    /// The number of bytes in the buffer, 1 to `BUFFER_BYTES`.
    pub len: u16,
    /// EOP: whether they end their frame.
    pub eop: bool,
    pub ghost some_data: { 1 ≤ len },
    pub ghost fits: { len ≤ BUFFER_BYTES },
}

impl RxBack {
    ghost use Rattle.descriptor.specs.Refusal.{IsLowest};
    ghost use Rattle.descriptor.specs.Layout.{KeepsWords};
    ghost use Rattle.descriptor.specs.Receive.{rx_back_form, rx_back_second};

    /// A write-back of `len` bytes, 1 to `BUFFER_BYTES`.
    #[inline]
    pub fn new(len: u16, eop: bool) -> Self
        requires some_data { 1 ≤ len }
        requires fits { len ≤ BUFFER_BYTES }
        ensures len { result.len ≡ len }
        ensures eop { result.eop ≡ eop }
    {
        RxBack { len, eop }
    }

    /// Whether a second word has DD (bit 0): the controller has written the descriptor back.
    #[inline]
    pub fn is_done(word: u64) -> bool
        ensures { IsTrue result ↔ (word % 2 ≡ 1) }
    {
        is_set(word, 0)
    }

    /// Whether a second word has EOP (bit 1). Meaningful only if the word has DD.
    #[inline]
    pub fn ends_frame(word: u64) -> bool
        ensures { IsTrue result ↔ (word / 2 % 2 ≡ 1) }
    {
        is_set(word, 1)
    }

    /// The length in a second word (bits 47:32). Meaningful only if the word has DD.
    #[inline]
    pub fn data_len(word: u64) -> u16
        ensures { result ≡ word / 2 ^ 32 % 2 ^ 16 }
    {
        bits(word, 32, 16) as u16
    }

    /// The second word, which a ring's table keeps.
    #[inline]
    pub fn second_word(&self) -> u64
        ensures layout { result ≡ rx_back_second self.now }
        ensures value { result ≡ 1 + 2 * bit self.now.eop + self.now.len * 2 ^ 32 }
    {
        second_word_of(self.len, self.eop)
    }

    /// The descriptor with this second word and the first word 0, as a ring's table keeps it. Returns the refusals of
    /// `from_words`.
    #[inline]
    pub fn from_second_word(word: u64) -> Result<Self, DescError>
        ensures accepted { IfOk result (λ d. word ≡ 1 + 2 * bit d.eop + d.len * 2 ^ 32) }
        ensures reads_back { (d : RxBack) → word ≡ 1 + 2 * bit d.eop + d.len * 2 ^ 32 → result ≡ Ok d }
        ensures refused { (e : DescError) → (result ≡ Err e) ↔ IsLowest (KeepsWords rx_back_form 0 word) e }
    {
        Self::from_words(FIRST_WORD, word)
    }
}

impl Descriptor for RxBack {
    ghost use Rattle.std.proofs.Common.{arith};
    ghost use Rattle.descriptor.specs.Bounds.{bit_lt};
    ghost use Rattle.descriptor.specs.Layout.{AreWords};
    ghost use Rattle.descriptor.specs.Receive.{rx_back_form, rx_back_numbers};

    ghost form = { rx_back_form };

    ghost numbers = { λ d. rx_back_numbers d.len d.eop };

    /// Returns 0 and the second word.
    #[inline]
    fn words(&self) -> (u64, u64)
        ensures layout { AreWords rx_back_form (rx_back_numbers self.now.len self.now.eop) result.0 result.1 }
        ensures value { result ≡ (0, 1 + 2 * bit self.now.eop + self.now.len * 2 ^ 32) }
    {
        (FIRST_WORD, self.second_word())
    }

    /// Returns `Reserved` for a wrong fixed bit, and `Size` for a length that is 0 or above `BUFFER_BYTES`.
    fn from_words(first: u64, second: u64) -> Result<Self, DescError> {
        if first != FIRST_WORD {
            return Err(DescError::Reserved);
        }
        let len = bits(second, 32, 16) as u16;
        let eop = is_set(second, 1);
        if second != second_word_of(len, eop) {
            return Err(DescError::Reserved);
        }
        if len < 1 || usize::from(len) > BUFFER_BYTES {
            return Err(DescError::Size);
        }
        Ok(Self { len, eop })
    }

    ghost fits = { λ d. let h = d.fits in let e = bit_lt d.eop in (Prim.omega arith, Prim.omega arith) };
}

/// The second word of a write-back of `len` bytes.
#[inline]
fn second_word_of(len: u16, eop: bool) -> u64
    ensures { result ≡ 1 + 2 * bit eop + len * 2 ^ 32 }
{
    1 + 2 * u64::from(eop) + u64::from(len) * (1 << 32)
}

/// Prints as `dd 1 eop 1 length 60`.
impl fmt::Display for RxBack {
    ghost use Rattle.std.specs.Prelude.{Some};
    ghost use Rattle.descriptor.specs.Texts.{rx_back_text};

    ghost output = { λ d. Some (rx_back_text d) };

    fn fmt<W: fmt::Write>(&self, f: &mut fmt::Formatter<W>) -> fmt::Result {
        write!(f, "dd 1 eop {} length {}", u8::from(self.eop), self.len)
    }
}
