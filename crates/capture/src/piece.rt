//! The pieces of a capture: records of classic pcap, or blocks of pcapng.

use crate::entry::Entry;
use crate::header::Order;

/// An interface of a pcapng section.
#[derive(Clone, Copy, Debug, PartialEq, Eq)]
pub struct Interface {
    pub link_type: u16,
    /// The snap length in bytes, 0 for none.
    pub snap_len: u32,
    /// The byte of the option `if_tsresol`.
    pub resolution: u8,
}

/// The meaning of a record or block.
#[derive(Drop)]
pub enum Piece<'a> {
    /// A packet.
    Packet(Entry<'a>),
    /// The beginning of a section with this byte order.
    Section(Order),
    /// The description of an interface.
    Described(Interface),
    /// A skipped block.
    Other,
}
