//! From a script to a capture.

ghost use Rattle.std.specs.Prelude.{◌≡◌, IfErr, IfOk, Ok};
ghost use Rattle.capture.specs.Writing.{capture_of};
ghost use Rattle.refusals.specs.declared.errors.CaptureError.TheVariants.{Memory};
ghost use Rattle.capture.specs.Records.{records_of_port};

use crate::entry::RECORD_HEADER;
use crate::reading::HEADER;
use crate::record::CaptureRecord;
use crate::writing::{write_header, write_record};
use refusals::CaptureError;
use std::alloc::Global;
use wire_script::Script;

/// Microseconds per second.
const SECOND: u32 = 1_000_000;

/// Writes the frames of this port (0 or 1) as a capture, in the script's order. Frame `k`, counted from 0, has a time
/// of `k` microseconds. Allocates the bytes once.
pub fn capture_of(alloc: Global, port: u8, script: &Script) -> Result<Vec<u8>, CaptureError>
    ensures bytes { IfOk result (λ bytes. bytes.items ≡ capture_of (records_of_port port script.now)) }
    ensures err { IfErr result (λ e. e ≡ Memory) }
{
    let room = capture_len(port, script);
    let mut bytes = Vec::with_capacity(alloc, room).map_err(|_| CaptureError::Memory)?;
    write_header(&mut bytes)?;
    let mut number: u32 = 0;
    for frame in script.frames() {
        if frame.port() == port {
            let found = CaptureRecord::new(number / SECOND, number % SECOND, frame.bytes());
            write_record(&mut bytes, &found)?;
            number += 1;
        }
    }
    Ok(bytes)
}

/// The length of the capture. No clause needs it.
fn capture_len(port: u8, script: &Script) -> usize {
    let mut len = HEADER;
    for frame in script.frames() {
        if port == frame.port() {
            let held = frame.bytes().len();
            len = len.saturating_add(RECORD_HEADER).saturating_add(held);
        }
    }
    len
}
