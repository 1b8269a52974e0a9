//! Details of a refused record.

ghost use Rattle.std.specs.Prelude.{◌≡◌, ◌<◌, length, IfErr, IfOk};
ghost use Rattle.refusals.specs.declared.errors.CaptureError.TheVariants.{Memory};
ghost use Rattle.capture.specs.CaptureError.{Answers};
ghost use Rattle.capture.specs.Sources.{entries_in, source_of};
ghost use Rattle.capture.specs.Telling.{fault_after, fault_details, fault_in_piece, left_after};

use crate::cursor::Cursor;
use crate::entry::{Entry, FaultyRecord};
use crate::header::CaptureForm;
use crate::piece::Piece;
use crate::reading::header_of;
use refusals::CaptureError;
use std::alloc::Global;

/// Returns the fault of record `number` and its lengths, for messages about refusals 93 to 95, which carry this
/// number. Records are counted from 1, as [`read`](crate::read) counts them. Returns `None` if the record has no
/// fault or does not exist. Refuses a faulty header (91, 92) and a lack of memory (97).
pub fn fault_details(
    alloc: Global,
    bytes: &[u8],
    number: u64,
) -> Result<Option<FaultyRecord>, CaptureError>
    ensures { Answers result (fault_details number bytes.now) }
{
    let (form, rest) = header_of(bytes)?;
    fault_after(alloc, form, rest, number.saturating_sub(1))
}

// The fault of the packet after `others` other packets.
fn fault_after(
    alloc: Global,
    form: CaptureForm,
    bytes: &[u8],
    others: u64,
) -> Result<Option<FaultyRecord>, CaptureError>
    ensures found { IfOk result (λ found. found ≡ fault_after others (entries_in (source_of form) bytes.now)) }
    ensures err { IfErr result (λ e. e ≡ Memory) }
{
    let mut cursor = Cursor::new(alloc, form.format, form.order);
    let mut left = others;
    let mut rest = bytes;
    while !rest.is_empty() {
        let (piece, after) = cursor.piece_of(rest);
        let Some(fewer) = left_after(left, &piece) else {
            return Ok(fault_in(&piece));
        };
        cursor.turn(&piece)?;
        left = fewer;
        rest = after;
    }
    Ok(None)
}

// How many packets to pass after this piece, or `None` if this is the packet sought.
fn left_after(left: u64, piece: &Piece<'_>) -> Option<u64>
    ensures { result ≡ left_after left piece.now }
{
    match piece {
        Piece::Packet(_) => left.checked_sub(1),
        Piece::Section(_) | Piece::Described(_) | Piece::Other => Some(left),
    }
}

// The fault of a packet.
fn fault_in(piece: &Piece<'_>) -> Option<FaultyRecord>
    ensures { result ≡ fault_in_piece piece.now }
{
    match piece {
        Piece::Packet(Entry::Faulty(faulty)) => Some(*faulty),
        _ => None,
    }
}
