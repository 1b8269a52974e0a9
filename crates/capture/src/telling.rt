//! Details of a refused file.

ghost use Rattle.std.specs.Prelude.{◌≡◌};
ghost use Rattle.std.specs.Option.{option_copied};
ghost use Rattle.capture.specs.Telling.{is_gzip, link_type_of, name_of_link_type};

use crate::fields::word;
use crate::header::form_of;
use crate::reading::HEADER;
use byteorder::{BigEndian, ByteOrder};

/// Whether the bytes begin like a gzip file, with `1f 8b`.
pub fn is_gzip(bytes: &[u8]) -> bool
    ensures { result ≡ is_gzip bytes.now }
{
    bytes.starts_with(&[0x1f, 0x8b])
}

/// The link type in a classic pcap header (4 bytes from byte 20 on), for messages about refusal 92. Returns `None`
/// for pcapng, where each interface has its own.
pub fn link_type_of(bytes: &[u8]) -> Option<u32>
    ensures { result ≡ link_type_of bytes.now }
{
    if bytes.len() < HEADER {
        return None;
    }
    let form = form_of(BigEndian::read_u32(bytes))?;
    Some(word(form.order, bytes, 20))
}

/// The libpcap name of a common link type.
pub fn link_type_name(link_type: u32) -> Option<&'static str>
    ensures { option_copied result ≡ name_of_link_type link_type }
{
    let name = match link_type {
        0 => "NULL",
        1 => "EN10MB",
        6 => "IEEE802",
        9 => "PPP",
        101 => "RAW",
        105 => "IEEE802_11",
        108 => "LOOP",
        113 => "LINUX_SLL",
        127 => "IEEE802_11_RADIOTAP",
        189 => "USB_LINUX",
        195 => "IEEE802_15_4",
        201 => "BLUETOOTH_HCI_H4_WITH_PHDR",
        220 => "USB_LINUX_MMAPPED",
        228 => "IPV4",
        229 => "IPV6",
        239 => "NFLOG",
        249 => "USBPCAP",
        276 => "LINUX_SLL2",
        _ => return None,
    };
    Some(name)
}
