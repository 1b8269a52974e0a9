//! A forwarding with captures: its script, its output and its wire files.
ghost use Rattle.std.specs.Prelude.{◌≡◌, ◌*◌, ◌≤◌, ◌++◌, length, None, false, IfErr, IfOk, option_map};
ghost use Rattle.std.specs.Option.{option_map_or};
ghost use Rattle.std.specs.String.{string_bytes};
ghost use Rattle.requests.specs.declared.refusal.Refusal.TheVariants as refusal;
ghost use Rattle.limits.specs.declared.profile.TheConstants.{MOST_PAIRS, PORTS};
ghost use Rattle.forward_io.specs.ScriptIntakes.{IsNoScript, IsScript};
ghost use Rattle.forward_io.specs.WireFiles.{IsUnpaged};
ghost use Rattle.forward_io.specs.Intakes.{reads_script};
ghost use Rattle.forward_io.specs.Skips.{skipped_text};
ghost use Rattle.forward_io.specs.Text.{report_text};
ghost use Rattle.forward_io.specs.Streams.{IsStreamed, output_bytes};
ghost use Rattle.requests.specs.Files.{streamed_port};

use crate::captured::gathering::{CapturedScript, gather};
use crate::captured::intake::Intake;
use crate::captured::refused::{FileRefusal, RefusalSubject};
use crate::captured::script::read_script;
use crate::captured::skipping::skipped_lines;
use crate::captured::targets::Target;
use crate::captured::wires::wire_capture;
use crate::captured::writing::write_wires;
use crate::skips::write_objects;
use crate::text::text_of;
use capture::Skipped;
use forwarding::FlowReport;
use requests::{Printing, Refusal, WireFile, names_output};
use std::alloc::Global;
use std::io::Read;
use std::rt::Files;
use wire_script::Script;

/// The script: the frames of captures and, if the input is read, those of its script. Also returns how many records
/// were left out of each capture. Appends the explanation of a fault to `why`, and that of a frame in the input whose
/// queue is not below `pairs`.
pub fn script_for<R: Files, I: Read>(
    rt: &R,
    alloc: Global,
    pairs: u32,
    intake: &Intake<'_, '_>,
    input: &mut I,
    why: &mut String,
) -> Result<(Script, Vec<Skipped>), FileRefusal>
    ensures script { IfOk result (λ p. IsScript intake.now (I.remaining input.old) p.0 p.1.items) }
    ensures refused { IfErr result (λ e. IsNoScript intake.now (I.remaining input.old) e) }
    ensures unread { reads_script intake.now ≡ false → input.new ≡ input.old }
{
    let CapturedScript { frames, skipped } = gather(
        rt,
        alloc,
        intake.reading,
        intake.sources,
        why,
    )?;
    if !intake.reads_script() {
        return Ok((Script::new(frames), skipped));
    }
    let script = read_script(alloc, pairs, frames, input, why)?;
    Ok((script, skipped))
}

/// Writes the wire files. Returns the bytes for standard output, and the text for standard error: the records that were
/// left out, and the counts if a capture replaces them on standard output.
pub fn page_for<R: Files>(
    rt: &R,
    alloc: Global,
    pairs: usize,
    printing: Printing,
    intake: &Intake<'_, '_>,
    skipped: &[Skipped],
    wires: &[WireFile<'_>],
    targets: &[Target],
    flows: &[FlowReport],
) -> Result<(Vec<u8>, Option<String>), FileRefusal>
    requires pairs { pairs ≤ MOST_PAIRS }
    requires flows { length flows.now ≡ PORTS * pairs }
    requires targets { length targets.now ≡ length wires.now }
    ensures page { IfOk result (λ p. p.0.items
        ≡ output_bytes printing (streamed_port wires.now) pairs flows.now (skipped_text printing.json intake.now.reading.skip skipped.now)) }
    ensures beside { IfOk result (λ p. streamed_port wires.now ≡ None → intake.now.reading.skip ≡ false → p.1 ≡ None) }
    ensures refused { IfErr result (λ e. IsUnpaged wires.now e) }
{
    let skip = intake.reading.skip;
    let page = text_with(alloc, pairs, printing, skip, skipped, flows)?;
    let lines = skipped_lines(alloc, intake.sources, skip, skipped)?;
    let stream = streamed(alloc, pairs, wires, flows)?;
    let outputs = placed(page, lines, stream)?;
    write_wires(rt, alloc, pairs, wires, targets, flows)?;
    Ok(outputs)
}

/// The text of the report, and of the records that were left out.
fn text_with(
    alloc: Global,
    pairs: usize,
    printing: Printing,
    skip: bool,
    skipped: &[Skipped],
    flows: &[FlowReport],
) -> Result<String, Refusal>
    requires pairs { pairs ≤ MOST_PAIRS }
    requires flows { length flows.now ≡ PORTS * pairs }
    ensures text { IfOk result (λ text. string_bytes text ≡ report_text printing pairs flows.now ++ skipped_text printing.json skip skipped.now) }
    ensures refused { IfErr result (λ e. e ≡ refusal.Memory) }
{
    let mut text = text_of(alloc, flows, pairs, printing)?;
    if printing.json && skip {
        write_objects(&mut text, skipped)?;
    }
    Ok(text)
}

/// Places the texts: the page on standard output and the lines on standard error, or both texts on standard error if a
/// capture goes to standard output.
fn placed(
    page: String,
    lines: Option<String>,
    stream: Option<Vec<u8>>,
) -> Result<(Vec<u8>, Option<String>), Refusal>
    ensures bytes { IfOk result (λ p. p.0.items ≡ option_map_or (λ capture. capture.items) stream (string_bytes page)) }
    ensures beside { IfOk result (λ p. stream ≡ None → lines ≡ None → p.1 ≡ None) }
    ensures refused { IfErr result (λ e. e ≡ refusal.Memory) }
{
    let Some(capture) = stream else {
        return Ok((page.into_bytes(), lines));
    };
    match lines {
        Some(mut text) => {
            text.push_str(page.as_str())?;
            Ok((capture, Some(text)))
        }
        None => Ok((capture, Some(page))),
    }
}

/// The capture for standard output, if any.
fn streamed(
    alloc: Global,
    pairs: usize,
    wires: &[WireFile<'_>],
    flows: &[FlowReport],
) -> Result<Option<Vec<u8>>, FileRefusal>
    requires pairs { pairs ≤ MOST_PAIRS }
    requires flows { length flows.now ≡ PORTS * pairs }
    ensures capture { IfOk result (λ found. IsStreamed (streamed_port wires.now) pairs flows.now (option_map (λ bytes. bytes.items) found)) }
    ensures refused { IfErr result (λ e. IsUnpaged wires.now e) }
{
    for at in 0..wires.len() {
        if !names_output(wires[at].file()) {
            continue;
        }
        return match wire_capture(alloc, flows, pairs, wires[at].port()) {
            Ok(bytes) => Ok(Some(bytes)),
            Err(refusal) => {
                let place = RefusalSubject::Wire(at);
                Err(FileRefusal { place, refusal })
            }
        };
    }
    Ok(None)
}
