//! Serves `forward` with captures, and returns an exit status.
ghost use Rattle.std.specs.Prelude.{◌≡◌, ◌⊎◌, ℕ, List, [], None, Some, false, IfErr, IfOk, OnOk};
ghost use Rattle.std.specs.Io.KnownBytes.{Keeps};
ghost use Rattle.requests.specs.declared.answers.TheConstants.{EXIT_SUCCESS, EXIT_REFUSED};
ghost use Rattle.program.specs.Forwards.{EndsForward};
ghost use Rattle.program.specs.CaptureForwards.{EndsRefused, HasNoPage, IsPage, PrintsPage, WithholdsPage};
ghost use Rattle.forward_io.specs.Intakes.{reads_script};
ghost use Rattle.forward_io.specs.Streams.{outlet};
ghost use Rattle.requests.specs.Files.{streamed_port};

use crate::bounds::Host;
use crate::cuts::{Due, explain_cuts};
use crate::rate::{RateLine, rate_of, timed, write_rate};
use forward_io::captured::{FileRefusal, Intake, page_for, script_for, targets_of, tell};
use forwarder::Config;
use requests::{EXIT_SUCCESS, Printing, WireFile, put};
use std::alloc::Global;
use std::io::{IsTerminal, Read, Write};
use std::marker::Send;
use std::rt::Files;

/// What `forward` is asked for with captures.
#[derive(Drop)]
pub struct Forwarding<'c, 's, 'w> {
    /// The configuration of the forwarder.
    pub config: &'c Config,
    /// The form of the output.
    pub printing: Printing,
    /// The frames that come in.
    pub intake: Intake<'s, 'w>,
    /// The wire files, which get the frames that leave.
    pub wires: &'s [WireFile<'w>],
    /// Whether a refusal and the flows that are cut are explained.
    pub explain: bool,
}

/// Forwards the frames of an intake: those of its captures, and then those of the script of `input` if that is read
/// ([`Intake::reads_script`]). Returns an exit status.
///
/// Prints the wires and counts to `output`, with status 0, and writes the frames that left a port to its wire files.
/// If a wire file is standard output (`-` or `/dev/stdout`), prints that capture to `output` instead, and the counts
/// to `screen`. If records were left out of a capture, a line on `screen` says how many, and with `json` an object on
/// `output`. Prints a refusal to `faults` as one line, with status 1, after the name of the file that it concerns,
/// if any. Shows progress and the rate on `screen`, if selected. With `explain`, a second line explains a refusal, and a line on
/// `screen` names each flow that was cut before all its frames were offered.
///
/// The first of these refusals applies: a wire file that cannot be written, or that is the same file as another or as a
/// capture, before anything else is done; a capture, in order; the refusals of `forward` for a script; a lack of memory for the output; a wire file; and the output, which is printed last.
pub fn answer<R: Host + Sync + Files, I: Read, W: Write, E: Write, M: Write + IsTerminal + Send>(
    rt: &R,
    alloc: Global,
    asked: &Forwarding<'_, '_, '_>,
    input: &mut I,
    output: &mut W,
    faults: &mut E,
    screen: &mut M,
) -> u8
    ensures status { (result ≡ EXIT_SUCCESS) ⊎ (result ≡ EXIT_REFUSED) }
    ensures done { result ≡ EXIT_SUCCESS → Keeps (E.contents faults.old) (E.contents faults.new) }
    ensures forward { asked.now.intake.sources ≡ [] → streamed_port asked.now.wires.now ≡ None → (text : List ℕ) → I.remaining input.old ≡ Some text
        → EndsForward asked.now.config.now asked.now.printing text result (W.contents output.old) (W.contents output.new) }
    ensures captured { result ≡ EXIT_SUCCESS
        → PrintsPage asked.now.config.now (outlet asked.now.printing asked.now.wires.now) asked.now.intake (I.remaining input.old) (W.contents output.old) (W.contents output.new) }
    ensures refused { result ≡ EXIT_REFUSED
        → EndsRefused asked.now.config.now (outlet asked.now.printing asked.now.wires.now) asked.now.intake (I.remaining input.old) (W.contents output.old) (W.contents output.new) }
    ensures unread { reads_script asked.now.intake ≡ false → input.new ≡ input.old }
    ensures screen { asked.now.printing.progress ≡ false → asked.now.printing.rate ≡ false → streamed_port asked.now.wires.now ≡ None → asked.now.intake.reading.skip ≡ false → asked.now.config.now.turns ≡ 0 → screen.new ≡ screen.old }
{
    let mut why = String::new(alloc);
    match perform(rt, alloc, asked, input, output, screen, &mut why) {
        Ok(()) => {
            note_cuts(screen, asked.config.turns, asked.explain, why.as_str());
            drop(why);
            EXIT_SUCCESS
        }
        Err(refused) => tell(
            faults,
            asked.config,
            asked.intake.sources,
            asked.wires,
            refused,
            why,
            asked.explain,
        ),
    }
}

/// Prints the lines of cut flows. Without `--turns`, no flow is cut.
fn note_cuts<M: Write>(screen: &mut M, turns: u32, explain: bool, why: &str)
    ensures { turns ≡ 0 → screen.new ≡ screen.old }
{
    if turns == 0 {
        return;
    }
    if explain && !why.is_empty() {
        let _ = writeln!(screen, "note: {why}");
    }
}

/// Forwards with captures, writes the wire files and prints the output. A refusal before the printing leaves `output`
/// unchanged. A failing `screen` changes nothing. Appends to `why` what the input shows of a refusal, or the flows that
/// were cut before all their frames were offered.
pub fn perform<R: Host + Sync + Files, I: Read, W: Write, M: Write + IsTerminal + Send>(
    rt: &R,
    alloc: Global,
    asked: &Forwarding<'_, '_, '_>,
    input: &mut I,
    output: &mut W,
    screen: &mut M,
    why: &mut String,
) -> Result<(), FileRefusal>
    ensures done { OnOk result (PrintsPage asked.now.config.now (outlet asked.now.printing asked.now.wires.now) asked.now.intake (I.remaining input.old) (W.contents output.old) (W.contents output.new)) }
    ensures refused { IfErr result (λ e.
        WithholdsPage asked.now.config.now (outlet asked.now.printing asked.now.wires.now) asked.now.intake asked.now.wires.now (I.remaining input.old) e (W.contents output.old) (W.contents output.new)) }
    ensures unread { reads_script asked.now.intake ≡ false → input.new ≡ input.old }
    ensures screen { asked.now.printing.progress ≡ false → asked.now.printing.rate ≡ false → streamed_port asked.now.wires.now ≡ None → asked.now.intake.reading.skip ≡ false → screen.new ≡ screen.old }
{
    let mut rate = None;
    let (bytes, text) = page_of(rt, alloc, asked, input, screen, &mut rate, why)?;
    put(bytes.as_slice(), output)?;
    if let Some(text) = text {
        let _ = screen.write_all(text.as_bytes());
        let _ = screen.flush();
    }
    write_rate(screen, rate);
    Ok(())
}

/// Writes the wire files. Returns the bytes for standard output, and the text for standard error: the records that were
/// left out, and the counts if a capture replaces them on standard output. Sets `rate` to the rate of the run, if it is
/// shown.
fn page_of<R: Host + Sync + Files, I: Read, M: Write + IsTerminal + Send>(
    rt: &R,
    alloc: Global,
    asked: &Forwarding<'_, '_, '_>,
    input: &mut I,
    screen: &mut M,
    rate: &mut Option<RateLine>,
    why: &mut String,
) -> Result<(Vec<u8>, Option<String>), FileRefusal>
    ensures page { IfOk result (λ p. IsPage asked.now.config.now (outlet asked.now.printing asked.now.wires.now) asked.now.intake (I.remaining input.old) p.0.items) }
    ensures beside { IfOk result (λ p. streamed_port asked.now.wires.now ≡ None → asked.now.intake.reading.skip ≡ false → p.1 ≡ None) }
    ensures refused { IfErr result (λ e. HasNoPage asked.now.config.now asked.now.intake asked.now.wires.now (I.remaining input.old) e) }
    ensures unread { reads_script asked.now.intake ≡ false → input.new ≡ input.old }
    ensures screen { asked.now.printing.progress ≡ false → screen.new ≡ screen.old }
    ensures rate { asked.now.printing.rate ≡ false → rate.old ≡ None → rate.new ≡ None }
{
    let (config, printing) = (asked.config, asked.printing);
    let (intake, wires) = (&asked.intake, asked.wires);
    let targets = targets_of(rt, alloc, intake.sources, wires)?;
    let (script, skipped) = script_for(rt, alloc, config.pairs, intake, input, why)?;
    let due = Due::of(&script, config.repeat);
    let form = printing.form(screen.is_terminal());
    let (report, nanos) = timed(rt, alloc, config, script, screen, form)?;
    let pairs = config.pairs as usize;
    let flows = report.flows.as_slice();
    *rate = rate_of(printing, flows, nanos);
    let _ = explain_cuts(why, pairs, config.turns, &due, flows);
    let page = page_for(
        rt,
        alloc,
        pairs,
        printing,
        intake,
        skipped.as_slice(),
        wires,
        targets.as_slice(),
        flows,
    );
    drop(report);
    page
}
