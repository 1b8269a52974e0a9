//! The two words of a descriptor, in bytes.
ghost use Rattle.std.specs.Prelude.{◌≡◌, ◌/◌, ◌%◌, ◌^◌, ◌<◌, IfOk, IfErr, length};
ghost use Rattle.descriptor.specs.Layout.{HasWords, bit, bytes_of};

use crate::DescError;
use byteorder::{ByteOrder, LittleEndian};

/// The number of bytes of a descriptor.
const DESCRIPTOR_BYTES: usize = 16;

/// The two words as bytes, the first word first.
pub(crate) fn bytes_from_words(first: u64, second: u64) -> [u8; DESCRIPTOR_BYTES]
    ensures { result ≡ bytes_of first second }
{
    let mut bytes = [0; DESCRIPTOR_BYTES];
    LittleEndian::write_u64(&mut bytes, first);
    LittleEndian::write_u64(&mut bytes[8..], second);
    bytes
}

/// The two words in the bytes of a descriptor. Returns `Length` if there are not 16 bytes.
pub(crate) fn words_from_bytes(bytes: &[u8]) -> Result<(u64, u64), DescError>
    ensures words { IfOk result (λ w. HasWords bytes.now w.0 w.1) }
    ensures refused { IfErr result (λ e. (e ≡ DescError.Length) × ¬ (length bytes.now ≡ DESCRIPTOR_BYTES)) }
{
    if bytes.len() != DESCRIPTOR_BYTES {
        return Err(DescError::Length);
    }
    let first = LittleEndian::read_u64(bytes);
    let second = LittleEndian::read_u64(&bytes[8..]);
    Ok((first, second))
}

/// The number in the `width` bits of a word from bit `first` on.
#[inline]
pub(crate) fn bits(word: u64, first: u32, width: u32) -> u64
    requires first { first < 64 }
    requires width { width < 64 }
    ensures { result ≡ word / 2 ^ first % 2 ^ width }
{
    (word >> first) % (1 << width)
}

/// Whether a word has a 1 in bit `place`.
#[inline]
pub(crate) fn is_set(word: u64, place: u32) -> bool
    requires { place < 64 }
    ensures { bit result ≡ word / 2 ^ place % 2 }
{
    bits(word, place, 1) == 1
}
