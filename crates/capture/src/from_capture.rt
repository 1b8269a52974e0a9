//! From a capture to script lines.

ghost use Rattle.std.specs.Prelude.{◌≡◌, ◌<◌, [], IfErr, IfOk};
ghost use Rattle.std.specs.String.{string_bytes};
ghost use Rattle.limits.specs.declared.profile.TheConstants.{MOST_PAIRS, PORTS};
ghost use Rattle.wire_script.specs.Script.{text_for};
ghost use Rattle.refusals.specs.declared.errors.ScriptError.TheVariants.{Memory};
ghost use Rattle.capture.specs.Frames.{frames_at};

use crate::record::CaptureRecord;
use std::alloc::Global;
use wire_script::{ScriptError, print_line};

/// The bytes of a frame's line besides its digits: port, queue, two spaces and LF.
const AROUND_FRAME: usize = 5;

/// Prints the frames of these records as lines of a script, all at this port (0 or 1) and queue (0 to 7), without
/// their times. Allocates the text once.
pub fn lines_at(
    alloc: Global,
    port: u8,
    queue: u8,
    records: &[CaptureRecord<'_>],
) -> Result<String, ScriptError>
    requires port { port < PORTS }
    requires queue { queue < MOST_PAIRS }
    ensures text { IfOk result (λ text. string_bytes text ≡ text_for (frames_at port queue records.now)) }
    ensures err { IfErr result (λ e. e ≡ Memory) }
{
    let mut text = with_room(alloc, text_len(records))?;
    for found in records {
        print_line(alloc, &mut text, port, queue, found.frame())?;
    }
    Ok(text)
}

/// Allocates an empty text with room for `room` bytes.
fn with_room(alloc: Global, room: usize) -> Result<String, ScriptError>
    ensures text { IfOk result (λ text. string_bytes text ≡ []) }
    ensures err { IfErr result (λ e. e ≡ Memory) }
{
    String::with_capacity(alloc, room).map_err(|_| ScriptError::Memory)
}

/// The length of the lines. No clause needs it.
fn text_len(records: &[CaptureRecord<'_>]) -> usize {
    let mut len = 0usize;
    for found in records {
        let digits = found.frame().len().saturating_mul(2);
        len = len.saturating_add(digits).saturating_add(AROUND_FRAME);
    }
    len
}
