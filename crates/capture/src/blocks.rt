//! The blocks of pcapng, as in the IETF's draft "PCAP Next Generation (pcapng) Capture File Format".

ghost use Rattle.std.specs.Prelude.{◌≡◌, ◌+◌, ◌≤◌, ◌<◌, ◌^◌, length, slice_get};
ghost use Rattle.refusals.specs.declared.errors.CaptureError.TheVariants.{NotCapture};
ghost use Rattle.capture.specs.declared.entry.Entry.TheVariants.{Faulty, Unread};
ghost use Rattle.capture.specs.declared.entry.Fault.TheVariants.{Truncated};
ghost use Rattle.capture.specs.declared.piece.Piece.TheVariants.{Packet};
ghost use Rattle.capture.specs.Layout.{numbers_in};
ghost use Rattle.capture.specs.Pcapng.{block_in, block_order, enhanced_in, held_in, if_ethernet, interface_in, is_section, meaning_in, order_of, resolution_in, section_in, simple_in, snapped_len, time_of, time_with};

use crate::entry::{Entry, Fault, FaultyRecord, Lengths, fault_of};
use crate::fields::{half, word};
use crate::header::Order;
use crate::piece::{Interface, Piece};
use crate::record::CaptureRecord;
use byteorder::{BigEndian, ByteOrder};
use refusals::CaptureError;

// The types of the blocks that the crate reads.
const SECTION_HEADER: u32 = 0x0a0d_0d0a;

const INTERFACE_DESCRIPTION: u32 = 1;

const SIMPLE_PACKET: u32 = 3;

const ENHANCED_PACKET: u32 = 6;

// The link type of Ethernet.
const ETHERNET: u16 = 1;

// The code of the option for an interface's time resolution.
const IF_TSRESOL: u16 = 9;

// The length of a block's fixed part: type, length and repeated length.
const AROUND_BODY: usize = 12;

// Whether the bytes begin with the type of a section header.
pub fn begins_section(bytes: &[u8]) -> bool
    requires { 4 ≤ length bytes.now }
    ensures { result ≡ is_section bytes.now }
{
    BigEndian::read_u32(bytes) == SECTION_HEADER
}

// The byte order for a section header's magic number.
fn order_of(magic: u32) -> Option<Order>
    ensures { result ≡ order_of magic }
{
    match magic {
        0x1a2b_3c4d => Some(Order::Big),
        0x4d3c_2b1a => Some(Order::Little),
        _ => None,
    }
}

// The byte order of the first block in the bytes. A section header states its own.
fn block_order(order: Order, bytes: &[u8]) -> Option<Order>
    requires { 12 ≤ length bytes.now }
    ensures { result ≡ block_order order bytes.now }
{
    if begins_section(bytes) {
        order_of(word(Order::Big, bytes, 8))
    } else {
        Some(order)
    }
}

// The first block in the bytes, and the bytes after it.
#[tactic(auto, unfolding(crate::specs::Pcapng::block_in, crate::specs::Pcapng::block_with))]
pub fn block_of<'a>(
    order: Order,
    interfaces: &[Interface],
    bytes: &'a [u8],
) -> (Piece<'a>, &'a [u8])
    requires { 0 < length bytes.now }
    ensures value { let p = block_in order interfaces.now bytes.now in (result.0 ≡ p.0) × (result.1.now ≡ p.1) }
    ensures shorter { length result.1.now < length bytes.now }
{
    if bytes.len() < AROUND_BODY {
        return (cut(), &[]);
    }
    let Some(order) = block_order(order, bytes) else {
        return (unread(), &[]);
    };
    let total = word(order, bytes, 4) as usize;
    if total < AROUND_BODY || total % 4 != 0 {
        return (unread(), &[]);
    }
    if bytes.len() < total {
        return (cut(), &[]);
    }
    let (block, rest) = bytes.split_at(total);
    if word(order, block, total - 4) as usize != total {
        return (unread(), &[]);
    }
    (meaning_of(order, interfaces, block), rest)
}

// The capture ends within a block.
fn cut<'a>() -> Piece<'a>
    ensures { result ≡ Packet (Faulty (record { fault = Truncated; lengths = None })) }
{
    let fault = Fault::Truncated;
    Piece::Packet(Entry::Faulty(FaultyRecord {
        fault,
        lengths: None,
    }))
}

// A malformed block.
fn unread<'a>() -> Piece<'a>
    ensures { result ≡ Packet (Unread NotCapture) }
{
    Piece::Packet(Entry::Unread(CaptureError::NotCapture))
}

// The meaning of a complete block, by its type.
#[tactic(auto, unfolding(crate::specs::Pcapng::meaning_in))]
fn meaning_of<'a>(order: Order, interfaces: &[Interface], block: &'a [u8]) -> Piece<'a>
    requires { 12 ≤ length block.now }
    ensures { result ≡ meaning_in order interfaces.now block.now }
{
    if begins_section(block) {
        return section_of(order, block);
    }
    match word(order, block, 0) {
        INTERFACE_DESCRIPTION => interface_of(order, block),
        SIMPLE_PACKET => Piece::Packet(simple_of(order, interfaces, block)),
        ENHANCED_PACKET => Piece::Packet(enhanced_of(order, interfaces, block)),
        _ => Piece::Other,
    }
}

// The meaning of a section header.
#[tactic(auto, unfolding(crate::specs::Pcapng::section_in))]
fn section_of<'a>(order: Order, block: &[u8]) -> Piece<'a>
    ensures { result ≡ section_in order block.now }
{
    if block.len() < 28 || half(order, block, 12) != 1 {
        return unread();
    }
    Piece::Section(order)
}

// The meaning of an interface description.
#[tactic(auto, unfolding(crate::specs::Pcapng::interface_in))]
fn interface_of<'a>(order: Order, block: &[u8]) -> Piece<'a>
    ensures { result ≡ interface_in (numbers_in order) block.now }
{
    if block.len() < 20 {
        return unread();
    }
    let (_, after) = block.split_at(16);
    let (options, _) = after.split_at(block.len() - 20);
    Piece::Described(Interface {
        link_type: half(order, block, 8),
        snap_len: word(order, block, 12),
        resolution: resolution_of(order, options),
    })
}

// The time resolution in an interface's options, 6 if there is none.
fn resolution_of(order: Order, options: &[u8]) -> u8
    ensures { result ≡ resolution_in (numbers_in order) options.now }
{
    let mut rest = options;
    while rest.len() >= 5 {
        let code = half(order, rest, 0);
        let len = half(order, rest, 2);
        if code == 0 {
            return 6;
        }
        if code == IF_TSRESOL && len == 1 {
            return rest[4];
        }
        let taken = 4 + (len as usize + 3) / 4 * 4;
        rest = rest.split_at(taken.min(rest.len())).1;
    }
    6
}

// The interface with this number, if it is Ethernet.
fn ethernet(interfaces: &[Interface], number: usize) -> Option<Interface>
    ensures { result ≡ if_ethernet (slice_get interfaces.now number) }
{
    let interface = *interfaces.get(number)?;
    if interface.link_type == ETHERNET {
        Some(interface)
    } else {
        None
    }
}

// The packet in an enhanced packet block.
#[tactic(auto, unfolding(crate::specs::Pcapng::enhanced_in, crate::specs::Pcapng::enhanced_with))]
fn enhanced_of<'a>(order: Order, interfaces: &[Interface], block: &'a [u8]) -> Entry<'a>
    ensures { result ≡ enhanced_in (numbers_in order) interfaces.now block.now }
{
    if block.len() < 32 {
        return Entry::Unread(CaptureError::NotCapture);
    }
    let Some(interface) = ethernet(interfaces, word(order, block, 8) as usize) else {
        return Entry::Unread(CaptureError::LinkType);
    };
    let lengths = Lengths {
        captured: word(order, block, 20),
        wire: word(order, block, 24),
    };
    let high = word(order, block, 12) as u64;
    let ticks = high * 4_294_967_296 + word(order, block, 16) as u64;
    let (_, after) = block.split_at(28);
    let (held, _) = after.split_at(block.len() - 32);
    held_of(lengths, time_of(interface.resolution, ticks), held)
}

// The packet in a simple packet block.
#[tactic(auto, unfolding(crate::specs::Pcapng::simple_in, crate::specs::Pcapng::simple_with))]
fn simple_of<'a>(order: Order, interfaces: &[Interface], block: &'a [u8]) -> Entry<'a>
    ensures { result ≡ simple_in (numbers_in order) interfaces.now block.now }
{
    if block.len() < 16 {
        return Entry::Unread(CaptureError::NotCapture);
    }
    let Some(interface) = ethernet(interfaces, 0) else {
        return Entry::Unread(CaptureError::LinkType);
    };
    let wire = word(order, block, 8);
    let captured = snapped_len(interface.snap_len, wire);
    let (_, after) = block.split_at(12);
    let (held, _) = after.split_at(block.len() - 16);
    held_of(Lengths { captured, wire }, (0, 0), held)
}

// The captured length of a simple packet.
fn snapped_len(snap_len: u32, wire: u32) -> u32
    ensures { result ≡ snapped_len snap_len wire }
{
    if snap_len != 0 && snap_len < wire {
        snap_len
    } else {
        wire
    }
}

// The packet with these lengths and this time, whose data are the first of `bytes`.
fn held_of(lengths: Lengths, time: (u32, u32), bytes: &[u8]) -> Entry<'_>
    ensures { result ≡ held_in lengths time bytes.now }
{
    let lengths_of = Some(lengths);
    if bytes.len() < lengths.captured as usize {
        let fault = Fault::Truncated;
        return Entry::Faulty(FaultyRecord {
            fault,
            lengths: lengths_of,
        });
    }
    if let Some(fault) = fault_of(lengths) {
        return Entry::Faulty(FaultyRecord {
            fault,
            lengths: lengths_of,
        });
    }
    let (frame, _) = bytes.split_at(lengths.captured as usize);
    Entry::Frame(CaptureRecord::with_wire_len(time.0, time.1, lengths.wire, frame))
}

// Converts `ticks` to seconds and nanoseconds. Returns 0 for a resolution above 9, and from 2^32 seconds on.
fn time_of(resolution: u8, ticks: u64) -> (u32, u32)
    ensures { result ≡ time_of resolution ticks }
{
    let (seconds, nanos) = match resolution {
        0 => (ticks, 0),
        1 => (ticks / 10, ticks % 10 * 100_000_000),
        2 => (ticks / 100, ticks % 100 * 10_000_000),
        3 => (ticks / 1_000, ticks % 1_000 * 1_000_000),
        4 => (ticks / 10_000, ticks % 10_000 * 100_000),
        5 => (ticks / 100_000, ticks % 100_000 * 10_000),
        6 => (ticks / 1_000_000, ticks % 1_000_000 * 1_000),
        7 => (ticks / 10_000_000, ticks % 10_000_000 * 100),
        8 => (ticks / 100_000_000, ticks % 100_000_000 * 10),
        9 => (ticks / 1_000_000_000, ticks % 1_000_000_000),
        _ => (0, 0),
    };
    if seconds < 4_294_967_296 {
        (seconds as u32, nanos as u32)
    } else {
        (0, 0)
    }
}
