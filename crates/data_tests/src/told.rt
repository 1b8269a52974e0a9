//! Printing a capture as text.

use anyhow::Result;
use capture::{CaptureError, CaptureRecord, TimeUnit, read};

/// Prints a line for each frame of a capture: its time with nine digits after the point, its length on the wire and its
/// bytes. Prints the refusal instead if there is one.
pub fn tell_capture<R: Print + AllocGlobal>(rt: &R, bytes: &[u8]) -> Result<()> {
    match read(rt.alloc(), bytes) {
        Ok(capture) => tell_records(rt, capture.unit(), capture.records()),
        Err(refused) => tell_refusal(rt, refused),
    }
}

fn tell_refusal<R: Print>(rt: &R, refused: CaptureError) -> Result<()> {
    if let Some(number) = refused.record() {
        print!(rt; "record {number}: ")?;
    }
    println!(rt; "refused {} {refused}", refused.number())?;
    Ok(())
}

fn tell_records<R: Print + AllocGlobal>(
    rt: &R,
    unit: TimeUnit,
    records: &[CaptureRecord<'_>],
) -> Result<()> {
    for found in records {
        tell_time(rt, unit, found)?;
        tell_frame(rt, found)?;
    }
    Ok(())
}

fn tell_time<R: Print>(rt: &R, unit: TimeUnit, found: &CaptureRecord<'_>) -> Result<()> {
    let fraction = u64::from(found.fraction());
    let nanos = match unit {
        TimeUnit::Micros => fraction * 1000,
        TimeUnit::Nanos => fraction,
    };
    print!(rt; "{}.{nanos:09}", found.seconds())?;
    Ok(())
}

fn tell_frame<R: Print + AllocGlobal>(rt: &R, found: &CaptureRecord<'_>) -> Result<()> {
    let digits = hex::encode(rt.alloc(), found.frame())?;
    println!(rt; " {} {digits}", found.wire_len())?;
    Ok(())
}
