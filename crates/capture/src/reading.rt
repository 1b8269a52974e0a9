//! Reading a capture.

ghost use Rattle.std.specs.Prelude.{◌≡◌, ◌≤◌, ◌<◌, ◌+◌, ◌-◌, ◌^◌, length, vec_len, IfErr, IfOk, MatchResult, OnOk, Ok, Err};
ghost use Rattle.limits.specs.declared.profile.TheConstants.{MOST_SCRIPT_FRAMES};
ghost use Rattle.capture.specs.CaptureError.{Answers, AnswersAs, Fails};
ghost use Rattle.capture.specs.Choosing.{chosen};
ghost use Rattle.capture.specs.Layout.{numbers_in};
ghost use Rattle.capture.specs.Reading.{blocks_header_in, capture_in, capture_with, checked_header, classic_header_in, header_in};
ghost use Rattle.capture.specs.SoFar.{with_piece};
ghost use Rattle.capture.specs.Sources.{entries_in, source_after, source_of};

use crate::blocks::{begins_section, block_of};
use crate::content::Capture;
use crate::cursor::Cursor;
use crate::fields::{half, word};
use crate::gathered::Gathered;
use crate::header::{CaptureForm, Format, Order, TimeUnit, form_of};
use crate::options::{ReadOptions, Skipped};
use crate::piece::Piece;
use crate::record::CaptureRecord;
use byteorder::{BigEndian, ByteOrder};
use refusals::CaptureError;
use std::alloc::Global;

// The length of a classic header.
pub(crate) const HEADER: usize = 24;

/// Reads classic pcap or pcapng. Returns the records, or the first fault: that of the header, else that of the first
/// faulty record. If the header has several faults, 91 comes before 92; if a record has several, the lowest number of
/// 93 to 96 counts (see [`CaptureError`]). Returns 97 if memory is refused before a fault is found.
///
/// Zone, accuracy and snap length of a classic header are ignored. A record whose length on the wire is less than its
/// captured length is read with all its captured bytes.
///
/// In pcapng, enhanced and simple packet blocks of all sections are read; other blocks are skipped. Records are
/// counted from 1 over all packet blocks. A malformed block, a section of another version than 1, or a first block
/// that is cut by the end of the file is refused with 91, and a packet whose interface is undescribed or not Ethernet
/// with 92. A later block that is cut by the end of the file, or a packet that is longer than its block, is refused
/// with 93. Times are in nanoseconds. A time is 0 if the block has none, if it is 2^32 seconds or more, or if
/// `if_tsresol` states a power of two or more than 10^9 ticks per second. `if_tsoffset` is ignored.
///
/// Reads the bytes once and copies none. Needs at most 64 bytes of memory per record from the second record on: 32
/// for each, in a list that grows by doubling. For pcapng, also keeps the interfaces of a section.
pub fn read(alloc: Global, bytes: &[u8]) -> Result<Capture<'_>, CaptureError>
    ensures { Answers result (capture_in bytes.now) }
{
    let (capture, _) = read_with(alloc, bytes, ReadOptions::default())?;
    Ok(capture)
}

/// Reads a capture with options. Also returns how many records were left out.
///
/// With `skip`, faulty records are left out instead of refused with 93 to 95; 91, 92 and 96 remain refusals. With
/// `limit`, reading stops after this number of frames, not counting records left out, and the bytes after them are
/// not read. The header is always checked. The number of a refused record counts all records from 1, including those
/// left out.
pub fn read_with(
    alloc: Global,
    bytes: &[u8],
    options: ReadOptions,
) -> Result<(Capture<'_>, Skipped), CaptureError>
    ensures { AnswersAs (λ p. (p.0, p.1)) result (capture_with options bytes.now) }
{
    let (form, rest) = header_of(bytes)?;
    let (records, skipped) = chosen_of(alloc, form, rest, options)?;
    Ok((Capture::new(form.unit, records), skipped))
}

// The form of the capture, and its bytes after the header.
#[tactic(auto, unfolding(crate::specs::Reading::header_in))]
pub(crate) fn header_of(bytes: &[u8]) -> Result<(CaptureForm, &[u8]), CaptureError>
    ensures { MatchResult result (λ p. header_in bytes.now ≡ Ok (p.0, p.1.now)) (λ e. header_in bytes.now ≡ Err e) }
{
    if 4 <= bytes.len() && begins_section(bytes) {
        return blocks_header_of(bytes);
    }
    let form = classic_header_of(bytes)?;
    Ok((form, bytes.split_at(HEADER).1))
}

// The section header at the start of a pcapng file, and the bytes after it.
#[tactic(auto, unfolding(crate::specs::Reading::blocks_header_in))]
fn blocks_header_of(bytes: &[u8]) -> Result<(CaptureForm, &[u8]), CaptureError>
    requires { 4 ≤ length bytes.now }
    ensures { MatchResult result (λ p. blocks_header_in bytes.now ≡ Ok (p.0, p.1.now)) (λ e. blocks_header_in bytes.now ≡ Err e) }
{
    let (piece, rest) = block_of(Order::Big, &[], bytes);
    let Piece::Section(order) = piece else {
        return Err(CaptureError::NotCapture);
    };
    let form = CaptureForm {
        format: Format::Blocks,
        order,
        unit: TimeUnit::Nanos,
    };
    Ok((form, rest))
}

// The header of classic pcap at the start of the bytes.
#[tactic(auto, unfolding(crate::specs::Reading::classic_header_in))]
fn classic_header_of(bytes: &[u8]) -> Result<CaptureForm, CaptureError>
    ensures value { result ≡ classic_header_in bytes.now }
    ensures there { IfOk result (λ form. HEADER ≤ length bytes.now) }
{
    if bytes.len() < HEADER {
        return Err(CaptureError::NotCapture);
    }
    let Some(form) = form_of(BigEndian::read_u32(bytes)) else {
        return Err(CaptureError::NotCapture);
    };
    checked(form, bytes)
}

// Checks the version and link type in a header of this form.
#[tactic(auto, unfolding(crate::specs::Reading::checked_header))]
fn checked(form: CaptureForm, bytes: &[u8]) -> Result<CaptureForm, CaptureError>
    requires { HEADER ≤ length bytes.now }
    ensures { result ≡ checked_header (numbers_in form.order) form bytes.now }
{
    let order = form.order;
    if half(order, bytes, 4) != 2 || half(order, bytes, 6) != 4 {
        return Err(CaptureError::NotCapture);
    }
    if word(order, bytes, 20) != 1 {
        return Err(CaptureError::LinkType);
    }
    Ok(form)
}

// The frames that the options select, and the counts of records left out.
fn chosen_of<'a>(
    alloc: Global,
    form: CaptureForm,
    bytes: &'a [u8],
    options: ReadOptions,
) -> Result<(Vec<CaptureRecord<'a>>, Skipped), CaptureError>
    ensures value { AnswersAs (λ p. (p.0.items, p.1)) result (chosen options (entries_in (source_of form) bytes.now)) }
    ensures most { IfOk result (λ p. vec_len p.0 ≤ MOST_SCRIPT_FRAMES) }
{
    let len = bytes.len();
    let mut cursor = Cursor::new(alloc, form.format, form.order);
    let mut gathered = Gathered::new(alloc);
    let mut rest = bytes;
    while !rest.is_empty() && options.wants_more(gathered.frames()) {
        let (piece, after) = cursor.piece_of(rest);
        take(&mut cursor, &mut gathered, options.skip, piece)?;
        rest = after;
    }
    Ok(gathered.into_parts())
}

// Takes a piece: adds a packet, or lets the cursor take a section or an interface.
fn take<'a>(
    cursor: &mut Cursor,
    gathered: &mut Gathered<'a>,
    skip: bool,
    piece: Piece<'a>,
) -> Result<(), CaptureError>
    requires { gathered.old.number < 2 ^ 64 - 1 }
    ensures moved { OnOk result (cursor.new ≡ source_after cursor.old piece.entry) }
    ensures added { OnOk result (with_piece skip gathered.old piece.entry ≡ Ok gathered.new) }
    ensures counted { OnOk result (gathered.new.number ≤ gathered.old.number + 1) }
    ensures refused { IfErr result (λ e. Fails e (with_piece skip gathered.old piece.entry)) }
{
    match piece {
        Piece::Packet(entry) => gathered.add(skip, entry),
        Piece::Section(order) => {
            cursor.begin(order);
            Ok(())
        }
        Piece::Described(interface) => cursor.push(interface),
        Piece::Other => Ok(()),
    }
}
