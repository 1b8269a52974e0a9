//! The address of a buffer, which is the first word of a read descriptor.
ghost use Rattle.std.specs.Prelude.{◌≡◌, IfSome, IfNone};
ghost use Rattle.descriptor.specs.Address.{address_fields, buffer_address};
ghost use Rattle.descriptor.specs.Layout.{EachField, KeepsField};

use crate::DescError;
use crate::words::bits;
use limits::BUFFER_BYTES;

/// The address of buffer `number`.
#[inline]
pub(crate) fn address_of(number: u16) -> u64
    ensures { result ≡ buffer_address number }
{
    BUFFER_BYTES as u64 * u64::from(number)
}

/// The number of the buffer at this address, if there is one.
pub(crate) fn number_at(address: u64) -> Option<u16>
    ensures found { IfSome result (λ number. address ≡ buffer_address number) }
    ensures none { IfNone result (¬ EachField (KeepsField DescError.Reserved address) address_fields) }
{
    let number = bits(address, 11, 16) as u16;
    if address == address_of(number) {
        Some(number)
    } else {
        None
    }
}
