//! The transmit descriptor as the driver posts it (82599 datasheet, 7.2.3.2.4).
ghost use Rattle.std.specs.Prelude.{◌≡◌, ◌+◌, ◌*◌, ◌/◌, ◌%◌, ◌^◌, ◌<◌, ◌≤◌, ◌↔◌, IsTrue};
ghost use Rattle.limits.specs.declared.profile.TheConstants.{BUFFER_BYTES, LEAST_FRAME, MOST_FRAME};
ghost use Rattle.descriptor.specs.Address.{buffer_address};
ghost use Rattle.descriptor.specs.Layout.{bit};

use crate::address::{address_of, number_at};
use crate::words::{bits, is_set};
use crate::{DescError, Descriptor};
use limits::{BUFFER_BYTES, LEAST_FRAME, MOST_FRAME};
use std::fmt;

/// A buffer with one segment of a frame, posted to transmit: an advanced data descriptor (82599 datasheet, 7.2.3.2.4)
/// with DTYP 3 and DEXT 1. IFCS is always set, and offloads are not used.
#[derive(Clone, Copy, Debug, PartialEq, Eq)]
pub struct TxRead {
    /// The buffer's number. Its address is 2,048 times the number.
    pub number: u16,
    /// DTALEN: the number of bytes of the frame in the buffer, 1 to `BUFFER_BYTES`.
    pub len: u16,
    /// EOP: whether they end their frame.
    pub eop: bool,
    /// RS: whether the descriptor asks for a report. Only the last one of a frame may.
    pub rs: bool,
    /// PAYLEN: the number of bytes of the whole frame, `LEAST_FRAME` to `MOST_FRAME`.
    pub paylen: u16,
    // without this, the number is unbounded in a clause about every `TxRead`
    pub ghost in_range: { number < 2 ^ 16 },
    pub ghost some_data: { 1 ≤ len },
    pub ghost fits: { len ≤ BUFFER_BYTES },
    pub ghost reports_end: { IsTrue rs → IsTrue eop },
    pub ghost long_enough: { LEAST_FRAME ≤ paylen },
    pub ghost short_enough: { paylen ≤ MOST_FRAME },
}

impl TxRead {
    ghost use Rattle.descriptor.specs.Layout.{EachField, KeepsField};
    ghost use Rattle.descriptor.specs.Transmit.{tx_read_form, tx_read_second, len_of, eop_of, rs_of, paylen_of};

    /// A descriptor of `len` bytes in buffer `number`, of a frame of `paylen` bytes.
    #[inline]
    pub fn new(number: u16, len: u16, eop: bool, rs: bool, paylen: u16) -> Self
        requires some_data { 1 ≤ len }
        requires fits { len ≤ BUFFER_BYTES }
        requires reports_end { IsTrue rs → IsTrue eop }
        requires long_enough { LEAST_FRAME ≤ paylen }
        requires short_enough { paylen ≤ MOST_FRAME }
        ensures number { result.number ≡ number }
        ensures len { result.len ≡ len }
        ensures eop { result.eop ≡ eop }
        ensures rs { result.rs ≡ rs }
        ensures paylen { result.paylen ≡ paylen }
    {
        Self {
            number,
            len,
            eop,
            rs,
            paylen,
        }
    }

    /// The length in a second word (DTALEN, bits 15:0). Meaningful only if the word has no DD.
    #[inline]
    pub fn data_len(word: u64) -> u16
        ensures { result ≡ len_of word }
    {
        bits(word, 0, 16) as u16
    }

    /// Whether a second word has EOP (bit 24). Meaningful only if the word has no DD.
    #[inline]
    pub fn ends_frame(word: u64) -> bool
        ensures { result ≡ eop_of word }
    {
        bits(word, 24, 1) == 1
    }

    /// Whether a second word has RS (bit 27). Meaningful only if the word has no DD.
    #[inline]
    pub fn asks_report(word: u64) -> bool
        ensures { result ≡ rs_of word }
    {
        bits(word, 27, 1) == 1
    }

    /// The length of the whole frame in a second word (PAYLEN, bits 63:46). Meaningful only if the word has no DD.
    #[inline]
    pub fn frame_len(word: u64) -> u32
        ensures { result ≡ paylen_of word }
    {
        (word >> 46) as u32
    }

    /// The second word, which a ring's table keeps. The bit that is DD in a `TxBack` is 0.
    #[inline]
    pub fn second_word(&self) -> u64
        ensures layout { result ≡ tx_read_second self.now }
        ensures value { result ≡ self.now.len + 3 * 2 ^ 20 + 2 ^ 25 + 2 ^ 29
            + bit self.now.eop * 2 ^ 24 + bit self.now.rs * 2 ^ 27 + self.now.paylen * 2 ^ 46 }
        ensures not_done { result / 2 ^ 32 % 2 ≡ 0 }
    {
        u64::from(self.len)
            + 3 * (1 << 20)
            + u64::from(self.eop) * (1 << 24)
            + (1 << 25)
            + u64::from(self.rs) * (1 << 27)
            + (1 << 29)
            + u64::from(self.paylen) * (1 << 46)
    }

    /// Whether each bit of a second word that the profile fixes is right, except DTYP and DEXT: the word equals the sum
    /// of its other fields, and RS is not set without EOP.
    fn has_fixed_bits(second: u64) -> bool
        ensures { IsTrue result ↔ EachField (KeepsField DescError.Reserved second) tx_read_form.second }
    {
        let len = bits(second, 0, 16);
        let kind = bits(second, 20, 4);
        let eop = bits(second, 24, 1);
        let rs = bits(second, 27, 1);
        let extended = bits(second, 29, 1);
        let paylen = bits(second, 46, 18);
        let whole = len
            + kind * (1 << 20)
            + eop * (1 << 24)
            + (1 << 25)
            + rs * (1 << 27)
            + extended * (1 << 29)
            + paylen * (1 << 46);
        rs <= eop && second == whole
    }

    /// Whether DTYP is 3 and DEXT is 1.
    fn is_data_descriptor(second: u64) -> bool
        ensures { IsTrue result ↔ EachField (KeepsField DescError.Kind second) tx_read_form.second }
    {
        bits(second, 20, 4) == 3 && bits(second, 29, 1) == 1
    }

    /// Whether the data length and PAYLEN are in range.
    fn is_in_range(second: u64) -> bool
        ensures { IsTrue result ↔ EachField (KeepsField DescError.Size second) tx_read_form.second }
    {
        let len = bits(second, 0, 16);
        let paylen = bits(second, 46, 18);
        1 <= len
            && len <= BUFFER_BYTES as u64
            && LEAST_FRAME as u64 <= paylen
            && paylen <= MOST_FRAME as u64
    }
}

impl Descriptor for TxRead {
    ghost use Rattle.std.proofs.Common.{arith};
    ghost use Rattle.descriptor.specs.Bounds.{bit_lt};
    ghost use Rattle.descriptor.specs.Layout.{AreWords};
    ghost use Rattle.descriptor.specs.Transmit.{tx_read_form, tx_read_numbers};

    ghost form = { tx_read_form };

    ghost numbers = { λ d. tx_read_numbers d.number d.len d.eop d.rs d.paylen };

    /// Returns the buffer's address and the second word.
    #[inline]
    fn words(&self) -> (u64, u64)
        ensures layout { AreWords tx_read_form (tx_read_numbers self.now.number self.now.len self.now.eop self.now.rs self.now.paylen) result.0 result.1 }
        ensures address { result.0 ≡ buffer_address self.now.number }
    {
        (address_of(self.number), self.second_word())
    }

    /// Returns `Reserved` for a wrong fixed bit, `Kind` for another DTYP or DEXT, and `Size` for a data length or
    /// PAYLEN out of range.
    fn from_words(first: u64, second: u64) -> Result<Self, DescError> {
        let Some(number) = number_at(first) else {
            return Err(DescError::Reserved);
        };
        if !Self::has_fixed_bits(second) {
            return Err(DescError::Reserved);
        }
        if !Self::is_data_descriptor(second) {
            return Err(DescError::Kind);
        }
        if !Self::is_in_range(second) {
            return Err(DescError::Size);
        }
        Ok(TxRead {
            number,
            len: bits(second, 0, 16) as u16,
            eop: is_set(second, 24),
            rs: is_set(second, 27),
            paylen: bits(second, 46, 18) as u16,
        })
    }

    ghost fits = { λ d. let e = bit_lt d.eop in let r = bit_lt d.rs in (Prim.omega arith, Prim.omega arith) };
}

/// Prints as `buffer 5 length 60 eop 1 rs 1 paylen 60`.
impl fmt::Display for TxRead {
    ghost use Rattle.std.specs.Prelude.{Some};
    ghost use Rattle.descriptor.specs.Texts.{tx_read_text};

    ghost output = { λ d. Some (tx_read_text d) };

    fn fmt<W: fmt::Write>(&self, f: &mut fmt::Formatter<W>) -> fmt::Result {
        let (eop, rs) = (u8::from(self.eop), u8::from(self.rs));
        let (number, len, paylen) = (self.number, self.len, self.paylen);
        write!(
            f,
            "buffer {number} length {len} eop {eop} rs {rs} paylen {paylen}"
        )
    }
}
