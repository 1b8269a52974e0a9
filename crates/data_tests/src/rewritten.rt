//! Rewriting a capture with times in microseconds.

use capture::{CaptureError, CaptureRecord, TimeUnit, read, write_header, write_record};
use std::alloc::Global;

// Writes a record, whose time has this unit, with its time in microseconds.
fn write_in_micros(
    written: &mut Vec<u8>,
    unit: TimeUnit,
    found: &CaptureRecord<'_>,
) -> Result<(), CaptureError> {
    match unit {
        TimeUnit::Micros => write_record(written, found),
        TimeUnit::Nanos => {
            let micros = found.fraction() / 1000;
            let found = CaptureRecord::new(found.seconds(), micros, found.frame());
            write_record(written, &found)
        }
    }
}

fn write_all(
    written: &mut Vec<u8>,
    unit: TimeUnit,
    records: &[CaptureRecord<'_>],
) -> Result<(), CaptureError> {
    write_header(written)?;
    for found in records {
        write_in_micros(written, unit, found)?;
    }
    Ok(())
}

/// Reads a capture, and returns it with times in microseconds.
pub fn rewritten(alloc: Global, bytes: &[u8]) -> Result<Vec<u8>, CaptureError> {
    let capture = read(alloc, bytes)?;
    let mut written = Vec::new(alloc);
    write_all(&mut written, capture.unit(), capture.records())?;
    Ok(written)
}
