//! Writing a capture.

ghost use Rattle.std.specs.Prelude.{◌≡◌, ◌++◌, ◌≤◌, length, IfErr, IfOk, Ok, OnOk};
ghost use Rattle.byteorder.specs.Endian.{little_bytes};
ghost use Rattle.limits.specs.declared.profile.TheConstants.{MOST_SCRIPT_FRAMES};
ghost use Rattle.capture.specs.Reading.{capture_in};
ghost use Rattle.capture.specs.Record.{InRange};
ghost use Rattle.capture.specs.Writing.{capture_of, header_bytes, record_bytes};
ghost use Rattle.refusals.specs.declared.errors.CaptureError.TheVariants.{Memory};
ghost use Rattle.capture.specs.declared.header.TimeUnit.TheVariants.{Micros};

use crate::entry::RECORD_HEADER;
use crate::record::CaptureRecord;
use byteorder::{ByteOrder, LittleEndian};
use refusals::CaptureError;
use std::alloc::{AllocError, Global};

/// The header of every written capture, in little-endian order: the magic number for microseconds, version 2.4, zone
/// and accuracy 0, a snap length of 65,535 and link type 1.
const HEADER: [u8; 24] = [
    0xd4, 0xc3, 0xb2, 0xa1, 2, 0, 4, 0, 0, 0, 0, 0, 0, 0, 0, 0, 0xff, 0xff, 0, 0, 1, 0, 0, 0,
];

/// Writes a capture of these records, whose fractions of a second are microseconds.
///
/// The number of records is not limited, but [`read`](crate::read) accepts only
/// [`MOST_SCRIPT_FRAMES`](limits::MOST_SCRIPT_FRAMES).
pub fn write(alloc: Global, records: &[CaptureRecord<'_>]) -> Result<Vec<u8>, CaptureError>
    ensures bytes { IfOk result (λ bytes. bytes.items ≡ capture_of records.now) }
    ensures read_back { IfOk result (λ bytes. length records.now ≤ MOST_SCRIPT_FRAMES
        → capture_in bytes.items ≡ Ok (record { unit = Micros; records = records.now })) }
    ensures err { IfErr result (λ e. e ≡ Memory) }
{
    let room = capture_len(records);
    let mut bytes = Vec::with_capacity(alloc, room).map_err(|_| CaptureError::Memory)?;
    write_header(&mut bytes)?;
    for found in records {
        write_record(&mut bytes, found)?;
    }
    Ok(bytes)
}

// The length of the capture, allocated at once. No clause needs it.
fn capture_len(records: &[CaptureRecord<'_>]) -> usize {
    let mut len = HEADER.len();
    for found in records {
        len = len
            .saturating_add(RECORD_HEADER)
            .saturating_add(found.frame().len());
    }
    len
}

/// Appends a capture's header. The records follow, written by [`write_record`]. Appends nothing if memory is refused.
pub fn write_header(bytes: &mut Vec<u8>) -> Result<(), CaptureError>
    ensures header { OnOk result (bytes.new.items ≡ bytes.old.items ++ header_bytes) }
    ensures err { IfErr result (λ e. e ≡ Memory) }
{
    bytes
        .extend_from_slice(&HEADER)
        .map_err(|_| CaptureError::Memory)
}

/// Appends a record in the format of [`write`], for records that are not in a list. If memory is refused, part of the
/// record may have been appended.
pub fn write_record(bytes: &mut Vec<u8>, found: &CaptureRecord<'_>) -> Result<(), CaptureError>
    ensures appended { OnOk result (bytes.new.items ≡ bytes.old.items ++ record_bytes found.now) }
    ensures in_range { InRange found.now }
    ensures err { IfErr result (λ e. e ≡ Memory) }
{
    push_record(bytes, found).map_err(|_| CaptureError::Memory)
}

#[tactic(auto, unfolding(crate::specs::Writing::record_bytes))]
fn push_record(bytes: &mut Vec<u8>, found: &CaptureRecord<'_>) -> Result<(), AllocError>
    ensures appended { OnOk result (bytes.new.items ≡ bytes.old.items ++ record_bytes found.now) }
    ensures in_range { InRange found.now }
{
    let frame = found.frame();
    push_number(bytes, found.seconds())?;
    push_number(bytes, found.fraction())?;
    push_number(bytes, frame.len() as u32)?;
    push_number(bytes, found.wire_len())?;
    bytes.extend_from_slice(frame)?;
    Ok(())
}

// Appends a number as four bytes.
fn push_number(bytes: &mut Vec<u8>, number: u32) -> Result<(), AllocError>
    ensures { OnOk result (bytes.new.items ≡ bytes.old.items ++ little_bytes 4 number) }
{
    let mut field = [0; 4];
    LittleEndian::write_u32(&mut field, number);
    bytes.extend_from_slice(&field)
}
