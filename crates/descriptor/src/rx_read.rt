//! The receive descriptor as the driver posts it (82599 datasheet, 7.1.6.1).
ghost use Rattle.std.specs.Prelude.{◌≡◌, ◌^◌, ◌<◌};
ghost use Rattle.descriptor.specs.Address.{buffer_address};

use crate::address::{address_of, number_at};
use crate::{DescError, Descriptor};
use std::fmt;

/// The second word: no header buffer, so DD is not set either.
const SECOND_WORD: u64 = 0;

/// An empty buffer, posted to receive into (82599 datasheet, 7.1.6.1). There is no header buffer.
#[derive(Clone, Copy, Debug, PartialEq, Eq)]
pub struct RxRead {
    /// The buffer's number. Its address is 2,048 times the number.
    pub number: u16,
    // without this, the number is unbounded in a clause about every `RxRead`
    pub ghost in_range: { number < 2 ^ 16 },
}

impl RxRead {
    ghost use Rattle.descriptor.specs.Receive.{rx_read_second};

    /// The second word, which a ring's table keeps: 0, so DD is not set.
    #[inline]
    pub fn second_word(&self) -> u64
        ensures layout { result ≡ rx_read_second self.now }
        ensures value { result ≡ 0 }
    {
        SECOND_WORD
    }
}

impl Descriptor for RxRead {
    ghost use Rattle.descriptor.specs.Layout.{AreWords};
    ghost use Rattle.descriptor.specs.Receive.{rx_read_form, rx_read_numbers};
    ghost use Rattle.std.proofs.Common.{arith};

    ghost form = { rx_read_form };

    ghost numbers = { λ d. rx_read_numbers d.number };

    /// Returns the buffer's address and 0.
    #[inline]
    fn words(&self) -> (u64, u64)
        ensures layout { AreWords rx_read_form (rx_read_numbers self.now.number) result.0 result.1 }
        ensures value { result ≡ (buffer_address self.now.number, 0) }
    {
        (address_of(self.number), self.second_word())
    }

    /// Returns `Reserved` if any bit is wrong.
    fn from_words(first: u64, second: u64) -> Result<Self, DescError> {
        let Some(number) = number_at(first) else {
            return Err(DescError::Reserved);
        };
        if second != SECOND_WORD {
            return Err(DescError::Reserved);
        }
        Ok(RxRead { number })
    }

    ghost fits = { λ d. let h = d.in_range in (Prim.omega arith, Prim.omega arith) };
}

/// Prints as `buffer 5`.
impl fmt::Display for RxRead {
    ghost use Rattle.std.specs.Prelude.{Some};
    ghost use Rattle.descriptor.specs.Texts.{rx_read_text};

    ghost output = { λ d. Some (rx_read_text d) };

    fn fmt<W: fmt::Write>(&self, f: &mut fmt::Formatter<W>) -> fmt::Result {
        write!(f, "buffer {}", self.number)
    }
}
