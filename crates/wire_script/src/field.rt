//! Reading the fields of a line. A refusal names the given line.

ghost use Rattle.std.specs.Prelude.{◌≡◌, ◌*◌, ◌<◌, ◌≤◌, IfOk, IfSome, length, vec_len};
ghost use Rattle.std.specs.List.{list_all};
ghost use Rattle.hex.specs.Hex.{is_hex_digit};
ghost use Rattle.limits.specs.declared.profile.TheConstants.{LEAST_FRAME, MOST_FRAME, MOST_PAIRS, PORTS};
ghost use Rattle.wire_script.specs.Line.{byte_in, digit_below, fill_in, hex_in, len_in, port_in, queue_in};
ghost use Rattle.wire_script.specs.ScriptError.{AnswersAs};

use hex::{FromHex, FromHexError};
use limits::{LEAST_FRAME, MOST_FRAME, MOST_PAIRS, PORTS};
use refusals::ScriptError;
use std::alloc::Global;
use text_lines::number_in;

// The value of a field of one digit, below `count`.
fn digit_below(field: &[u8], count: usize) -> Option<u8>
    ensures value { result ≡ digit_below count field.now }
    ensures below { IfSome result (λ digit. digit < count) }
{
    let [byte] = field else {
        return None;
    };
    if *byte < b'0' || usize::from(*byte - b'0') >= count {
        return None;
    }
    Some(*byte - b'0')
}

/// The port, 0 or 1. Returns `Port` otherwise.
pub fn port_of(field: &[u8], line: u64) -> Result<u8, ScriptError>
    ensures value { result ≡ port_in line field.now }
    ensures in_range { IfOk result (λ port. port < PORTS) }
{
    digit_below(field, PORTS).ok_or(ScriptError::Port { line })
}

/// The queue, 0 to 7. Returns `Queue` otherwise.
pub fn queue_of(field: &[u8], line: u64) -> Result<u8, ScriptError>
    ensures value { result ≡ queue_in line field.now }
    ensures in_range { IfOk result (λ queue. queue < MOST_PAIRS) }
{
    digit_below(field, MOST_PAIRS).ok_or(ScriptError::Queue { line })
}

fn is_hex_digit(byte: u8) -> bool
    ensures { result ≡ is_hex_digit byte }
{
    matches!(byte, b'0'..=b'9' | b'A'..=b'F' | b'a'..=b'f')
}

fn are_hex_digits(field: &[u8]) -> bool
    ensures { result ≡ list_all is_hex_digit field.now }
{
    field.iter().all(|byte| is_hex_digit(*byte))
}

// The fault of a field with more digits than a frame has, found without room for its bytes.
#[tactic(auto, using(crate::proofs::HexLength::long_digits, crate::proofs::HexLength::no_digits))]
fn long_fault(field: &[u8], line: u64) -> ScriptError
    requires { 2 * MOST_FRAME < length field.now }
    ensures { hex_in line field.now ≡ Err result }
{
    if field.len() % 2 != 0 {
        return ScriptError::Bytes { line };
    }
    if are_hex_digits(field) {
        ScriptError::FrameLength { line }
    } else {
        ScriptError::Bytes { line }
    }
}

/// The bytes that pairs of hex digits encode. Returns `Bytes` for other text, `FrameLength` for a length out of range,
/// or `Memory`.
#[tactic(auto, unfolding(crate::specs::Line::hex_in, crate::specs::Line::sized))]
pub fn hex_of(alloc: Global, field: &[u8], line: u64) -> Result<Vec<u8>, ScriptError>
    ensures value { AnswersAs (λ bytes. bytes.items) result (hex_in line field.now) }
    ensures least { IfOk result (λ bytes. LEAST_FRAME ≤ vec_len bytes) }
    ensures greatest { IfOk result (λ bytes. vec_len bytes ≤ MOST_FRAME) }
{
    if field.len() > 2 * MOST_FRAME {
        return Err(long_fault(field, line));
    }
    let bytes = match hex::decode(alloc, field) {
        Ok(bytes) => bytes,
        Err(FromHexError::OutOfMemory) => return Err(ScriptError::Memory),
        Err(_) => return Err(ScriptError::Bytes { line }),
    };
    if bytes.len() < LEAST_FRAME || bytes.len() > MOST_FRAME {
        return Err(ScriptError::FrameLength { line });
    }
    Ok(bytes)
}

/// The length after `fill`, 0 to 99,999. Returns `Bytes` otherwise.
#[tactic(auto, unfolding(crate::specs::Line::len_in))]
pub fn len_of(field: &[u8], line: u64) -> Result<usize, ScriptError>
    ensures { result ≡ len_in line field.now }
{
    match number_in(field) {
        Some(len) => Ok(len as usize),
        None => Err(ScriptError::Bytes { line }),
    }
}

/// The byte after the length, two hex digits. Returns `Bytes` otherwise.
#[tactic(auto, unfolding(crate::specs::Line::byte_in))]
pub fn byte_of(field: &[u8], line: u64) -> Result<u8, ScriptError>
    ensures { result ≡ byte_in line field.now }
{
    match <[u8; 1] as FromHex>::from_hex(field) {
        Ok(bytes) => Ok(bytes[0]),
        Err(_) => Err(ScriptError::Bytes { line }),
    }
}

/// A vector of `len` times `byte`, both given as fields. Returns the refusals of both, `FrameLength` for a length out
/// of range, or `Memory`.
#[tactic(auto, unfolding(crate::specs::Line::fill_in, crate::specs::Line::sized))]
pub fn fill_of(alloc: Global, len: &[u8], byte: &[u8], line: u64) -> Result<Vec<u8>, ScriptError>
    ensures value { AnswersAs (λ bytes. bytes.items) result (fill_in line len.now byte.now) }
    ensures least { IfOk result (λ bytes. LEAST_FRAME ≤ vec_len bytes) }
    ensures greatest { IfOk result (λ bytes. vec_len bytes ≤ MOST_FRAME) }
{
    let len = len_of(len, line)?;
    let byte = byte_of(byte, line)?;
    if len < LEAST_FRAME || len > MOST_FRAME {
        return Err(ScriptError::FrameLength { line });
    }
    Vec::from_elem(alloc, byte, len).map_err(|_| ScriptError::Memory)
}
