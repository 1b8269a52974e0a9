//! Converts the input of the two commands.
ghost use Rattle.std.specs.Prelude.{◌≡◌, ◌<◌, IfErr, IfOk, Ok};
ghost use Rattle.std.specs.String.{string_bytes};
ghost use Rattle.capture.specs.CaptureError.{AnswersAs};
ghost use Rattle.capture.specs.Reading.{capture_with};
ghost use Rattle.requests.specs.declared.refusal.Refusal.TheVariants as refusal;
ghost use Rattle.wire_script.specs.ScriptError.{Fails};
ghost use Rattle.refusals.specs.declared.errors.ScriptError.{ScriptError};
ghost use Rattle.forward_io.specs.Meanings.{IsRefusedAs, IsSkipped, Makes, Refuses, capture_meant, lines_meant, meant, wires_in};
ghost use Rattle.requests.specs.Conversions.{IsPlaced};
ghost use Rattle.limits.specs.declared.profile.TheConstants.{MOST_PAIRS, PORTS};

use crate::explaining::{explain_capture, explain_script};
use crate::piped::flow_lines::pass_flows;
use capture::{Capture, CaptureError, ReadOptions, Skipped, capture_of, lines_at, read_with};
use requests::{CaptureRequest, Refusal, read_text};
use std::alloc::Global;
use std::io::Read;
use wire_script::{Script, parse};

/// Reads the input and converts it as the request asks. Also returns how many records were left out. Appends the
/// explanation of a fault to `why`.
pub(crate) fn page_of<I: Read>(
    alloc: Global,
    request: CaptureRequest,
    input: &mut I,
    why: &mut String,
) -> Result<(Vec<u8>, Skipped), Refusal>
    requires { IsPlaced request }
    ensures done { IfOk result (λ p. Makes (meant request) (I.remaining input.old) p.0.items) }
    ensures refused { IfErr result (λ e. Refuses (meant request) (I.remaining input.old) e) }
{
    let given = read_text(alloc, input)?;
    match request {
        CaptureRequest::FromCapture {
            port,
            queue,
            reading,
        } => {
            let bytes = given.as_slice();
            let (text, skipped) = lines_in(alloc, port, queue, reading, bytes, why)?;
            Ok((text.into_bytes(), skipped))
        }
        CaptureRequest::ToCapture { port } => {
            let bytes = capture_in(alloc, port, given, why)?;
            Ok((bytes, Skipped::default()))
        }
    }
}

/// Returns the frames of a capture, read with these options, as script lines, at this port, 0 or 1, and this queue, 0 to
/// 7. Also returns how many records were left out.
///
/// Returns the capture's first fault, whose explanation is appended to `why`, or its `Memory`, and `Memory` if the text
/// cannot be allocated.
pub fn lines_in(
    alloc: Global,
    port: u8,
    queue: u8,
    reading: ReadOptions,
    bytes: &[u8],
    why: &mut String,
) -> Result<(String, Skipped), Refusal>
    requires port { port < PORTS }
    requires queue { queue < MOST_PAIRS }
    ensures done { IfOk result (λ p. lines_meant port queue reading bytes.now ≡ Ok (string_bytes p.0)) }
    ensures skipped { IfOk result (λ p. IsSkipped reading bytes.now p.1) }
    ensures refused { IfErr result (λ e. IsRefusedAs (lines_meant port queue reading bytes.now) e) }
{
    let (found, skipped) = read_explained(alloc, reading, bytes, why)?;
    match lines_at(alloc, port, queue, found.records()) {
        Ok(text) => Ok((text, skipped)),
        Err(_) => Err(Refusal::Memory),
    }
}

/// Reads a capture with options. Appends the explanation of a fault to `why`.
fn read_explained<'a>(
    alloc: Global,
    reading: ReadOptions,
    bytes: &'a [u8],
    why: &mut String,
) -> Result<(Capture<'a>, Skipped), CaptureError>
    ensures { AnswersAs (λ p. (p.0, p.1)) result (capture_with reading bytes.now) }
{
    let found = read_with(alloc, bytes, reading);
    if let Err(fault) = found {
        let _ = explain_capture(alloc, why, bytes, fault);
    }
    found
}

/// Returns the frames of this port as a capture. The text is a script, or a page of `forward`, whose flow lines are
/// skipped. Frame k, counted from 0, has a timestamp of k microseconds.
///
/// Returns the script's first fault, whose explanation is appended to `why`, or its `Memory`, and `Memory` if the capture
/// cannot be allocated. The text is freed before the capture is built.
pub fn capture_in(
    alloc: Global,
    port: u8,
    text: Vec<u8>,
    why: &mut String,
) -> Result<Vec<u8>, Refusal>
    ensures done { IfOk result (λ bytes. capture_meant port text.items ≡ Ok bytes.items) }
    ensures refused { IfErr result (λ e. IsRefusedAs (capture_meant port text.items) e) }
{
    let script = script_in(alloc, text, why)?;
    capture_of(alloc, port, &script).map_err(|_| Refusal::Memory)
}

/// Parses a script and skips its flow lines.
fn script_in(alloc: Global, mut text: Vec<u8>, why: &mut String) -> Result<Script, Refusal>
    ensures script { IfOk result (λ script. wires_in text.items ≡ Ok script) }
    ensures refused { IfErr result (λ e. (fault : ScriptError) × (e ≡ refusal.Script fault) × Fails fault (wires_in text.items)) }
{
    pass_flows(text.as_mut_slice());
    match parse(alloc, text.as_slice()) {
        Ok(script) => Ok(script),
        Err(fault) => {
            let _ = explain_script(why, text.as_slice(), fault);
            Err(Refusal::Script(fault))
        }
    }
}
