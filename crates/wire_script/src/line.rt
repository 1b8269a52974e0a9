//! Reading one line of a script.

ghost use Rattle.wire_script.specs.Line.{frame_with, line_says};
ghost use Rattle.wire_script.specs.ScriptError.{Answers};
ghost use Rattle.wire_script.specs.Split.{bytes_in};

use crate::field::{fill_of, hex_of, port_of, queue_of};
use crate::frame::WireFrame;
use crate::split::{Payload, Split, split_of};
use refusals::ScriptError;
use std::alloc::Global;
use text_lines::says_something;

// The frame with these fields.
#[tactic(auto, unfolding(crate::specs::Line::frame_with))]
fn frame_of(alloc: Global, fields: Split<'_>, line: u64) -> Result<WireFrame, ScriptError>
    ensures { Answers result (frame_with line fields.entry.port.now fields.entry.queue.now (bytes_in line fields.entry.payload)) }
{
    let port = port_of(fields.port, line)?;
    let queue = queue_of(fields.queue, line)?;
    let bytes = match fields.payload {
        Payload::Hex(field) => hex_of(alloc, field, line)?,
        Payload::Fill { len, byte } => fill_of(alloc, len, byte, line)?,
    };
    Ok(WireFrame::new(port, queue, bytes))
}

/// The frame of this line, or `None` for an empty line and a comment.
#[tactic(auto, unfolding(crate::specs::Line::line_says))]
pub fn line_of(alloc: Global, bytes: &[u8], line: u64) -> Result<Option<WireFrame>, ScriptError>
    ensures { Answers result (line_says line bytes.now) }
{
    if !says_something(bytes) {
        return Ok(None);
    }
    let Some(fields) = split_of(bytes) else {
        return Err(ScriptError::Fields { line });
    };
    let frame = frame_of(alloc, fields, line)?;
    Ok(Some(frame))
}
