//! Explains faults of a script.

use limits::{LEAST_FRAME, MOST_FRAME, MOST_PAIRS, MOST_SCRIPT_FRAMES};
use requests::{Excerpt, line_at};
use std::alloc::AllocError;
use text_lines::{cut, number_in, says_something};
use wire_script::ScriptError;

/// The fields of a line, as far as it has them.
#[derive(Clone, Copy)]
struct Fields<'a> {
    port: &'a [u8],
    queue: &'a [u8],
    bytes: &'a [u8],
    length: &'a [u8],
    value: &'a [u8],
    count: usize,
}

/// Cuts a line into its fields.
fn fields_of(line: &[u8]) -> Fields<'_> {
    let mut fields: [&[u8]; 5] = [&[], &[], &[], &[], &[]];
    let mut count = 0usize;
    let mut rest = Some(line);
    while let Some(left) = rest {
        let (field, after) = cut(left, b' ');
        if let Some(place) = fields.get_mut(count) {
            *place = field;
        }
        count = count.saturating_add(1);
        rest = after;
    }
    let [port, queue, bytes, length, value] = fields;
    Fields {
        port,
        queue,
        bytes,
        length,
        value,
        count,
    }
}

/// Explains a fault of a script.
pub(crate) fn explain_script(
    why: &mut String,
    text: &[u8],
    fault: ScriptError,
) -> Result<(), AllocError> {
    let Some(number) = fault.line() else {
        return Ok(());
    };
    let line = line_at(text, number);
    if line.ends_with(b"\r") {
        return write!(
            why,
            "{} ends with CR LF, but lines end with LF; tr -d '\\r' converts the script",
            Excerpt(line)
        );
    }
    explain_line(why, line, fault)
}

/// Explains the fault of a line.
fn explain_line(why: &mut String, line: &[u8], fault: ScriptError) -> Result<(), AllocError> {
    let fields = fields_of(line);
    match fault {
        ScriptError::Fields { .. } => write!(
            why,
            "the number of fields of {} is {}, but must be 3 (PORT QUEUE HEX) or 5 (PORT QUEUE fill LENGTH BYTE), none of them empty",
            Excerpt(line),
            fields.count
        ),
        ScriptError::Port { .. } => {
            write!(
                why,
                "the port is {}, but must be 0 or 1",
                Excerpt(fields.port)
            )
        }
        ScriptError::Queue { .. } => write!(
            why,
            "the queue is {}, but must be 0 to {}",
            Excerpt(fields.queue),
            MOST_PAIRS - 1
        ),
        ScriptError::Bytes { .. } => explain_bytes(why, &fields),
        ScriptError::FrameLength { .. } => write!(
            why,
            "the frame's length in bytes is {}, but must be {LEAST_FRAME} to {MOST_FRAME}",
            length_of(&fields)
        ),
        ScriptError::TooMany { .. } => write!(
            why,
            "this is frame {}, but at most {MOST_SCRIPT_FRAMES} are forwarded at once",
            MOST_SCRIPT_FRAMES + 1
        ),
        ScriptError::Memory => Ok(()),
    }
}

/// Explains why the fields give no bytes.
fn explain_bytes(why: &mut String, fields: &Fields<'_>) -> Result<(), AllocError> {
    if fields.count == 5 && number_in(fields.length).is_none() {
        return write!(
            why,
            "the length is {}, but must be a decimal number without leading zeros",
            Excerpt(fields.length)
        );
    }
    if fields.count == 5 {
        return write!(
            why,
            "the byte is {}, but must be two hex digits",
            Excerpt(fields.value)
        );
    }
    match fields
        .bytes
        .iter()
        .position(|byte| !byte.is_ascii_hexdigit())
    {
        Some(at) => write!(
            why,
            "byte {} of the field {} is not a hex digit",
            at.saturating_add(1),
            Excerpt(fields.bytes)
        ),
        None => write!(
            why,
            "the number of hex digits of {} is {}, but must be even: two for each byte",
            Excerpt(fields.bytes),
            fields.bytes.len()
        ),
    }
}

/// The length of the frame that the fields give.
fn length_of(fields: &Fields<'_>) -> usize {
    if fields.count == 5 {
        number_in(fields.length).unwrap_or(0) as usize
    } else {
        fields.bytes.len() / 2
    }
}

/// The number, counted from 1, of the first line whose queue is not below `pairs`, and that queue's field.
pub(crate) fn first_beyond(text: &[u8], pairs: u32) -> Option<(u64, &[u8])> {
    let mut number = 0u64;
    let mut rest = Some(text);
    while let Some(left) = rest {
        let (line, after) = cut(left, b'\n');
        number = number.saturating_add(1);
        let queue = fields_of(line).queue;
        if says_something(line) && number_in(queue).unwrap_or(0) >= pairs {
            return Some((number, queue));
        }
        rest = after;
    }
    None
}
