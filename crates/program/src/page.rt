//! Forwards a script that is read whole, and returns its page.
ghost use Rattle.std.specs.Prelude.{◌≡◌, IfErr, IfOk, None, Ok, false};
ghost use Rattle.std.specs.String.{string_bytes};
ghost use Rattle.requests.specs.declared.refusal.Refusal.TheVariants as refusal;
ghost use Rattle.wire_script.specs.Script.{script_of};
ghost use Rattle.wire_script.specs.ScriptError.{Fails};
ghost use Rattle.refusals.specs.declared.errors.ScriptError.{ScriptError};
ghost use Rattle.program.specs.Forwards.{AreReports, ForwardRefused, HasPage, IsForwarded, IsUnforwarded, RefusesForward};

use crate::progress;
use forward_io::text_of;
use forwarder::{Config, Report};
use forwarding::Open;
use requests::{Printing, ProgressForm, Refusal, read_text};
use std::alloc::Global;
use std::io::{IsTerminal, Read, Write};
use std::marker::Send;
use std::sync::Wait;
use std::thread::Threads;
use std::time::Clock;
use wire_script::{Script, parse};

/// Forwards the script of an input, and returns the text of its report. Progress goes to `screen`, if it is shown.
///
/// Returns the first refusal that applies: `Input` or `Memory` if the input cannot be read; the script's first fault or
/// its `Memory`; the forwarder's `Config`, then its `Memory` or `Thread`; and `Memory` if the text cannot be allocated.
/// The input's text is freed before the run, and the script before the report's text is built.
pub fn forward<R: Threads + Wait + Clock + Sync, I: Read, M: Write + IsTerminal + Send>(
    rt: &R,
    alloc: Global,
    config: &Config,
    printing: Printing,
    input: &mut I,
    screen: &mut M,
) -> Result<String, Refusal>
    ensures done { IfOk result (λ page. IsForwarded config.now printing (I.remaining input.old) (string_bytes page)) }
    ensures refused { IfErr result (λ e. RefusesForward config.now (I.remaining input.old) e) }
    ensures screen { printing.progress ≡ false → screen.new ≡ screen.old }
{
    let text = read_text(alloc, input)?;
    let form = printing.form(screen.is_terminal());
    page_for(rt, alloc, config, printing, text, screen, form)
}

/// Returns the page for a script's text.
fn page_for<R: Threads + Wait + Clock + Sync, M: Write + Send>(
    rt: &R,
    alloc: Global,
    config: &Config,
    printing: Printing,
    text: Vec<u8>,
    screen: &mut M,
    form: Option<ProgressForm>,
) -> Result<String, Refusal>
    ensures done { IfOk result (λ page. HasPage config.now printing text.items (string_bytes page)) }
    ensures refused { IfErr result (λ e. ForwardRefused config.now text.items e) }
    ensures screen { form ≡ None → screen.new ≡ screen.old }
{
    let script = script_in(alloc, text)?;
    let report = forwarded(rt, alloc, config, script, screen, form)?;
    let pairs = config.pairs as usize;
    text_of(alloc, report.flows.as_slice(), pairs, printing)
}

/// Forwards a script and frees it.
fn forwarded<R: Threads + Wait + Clock + Sync, M: Write + Send>(
    rt: &R,
    alloc: Global,
    config: &Config,
    script: Script,
    screen: &mut M,
    form: Option<ProgressForm>,
) -> Result<Report, Refusal>
    ensures report { IfOk result (λ r. AreReports config.now script r.flows.items) }
    ensures refused { IfErr result (λ e. IsUnforwarded config.now script e) }
    ensures screen { form ≡ None → screen.new ≡ screen.old }
{
    let forwarded = forward_script(rt, alloc, config, &script, screen, form);
    drop(script);
    forwarded
}

/// Forwards a script, and returns the reports of its flows. If a form is given, progress goes to `screen` in that form;
/// a failing screen changes nothing.
///
/// Returns the forwarder's `Config`, otherwise its `Memory` or `Thread`.
pub fn forward_script<R: Threads + Wait + Clock + Sync, M: Write + Send>(
    rt: &R,
    alloc: Global,
    config: &Config,
    script: &Script,
    screen: &mut M,
    form: Option<ProgressForm>,
) -> Result<Report, Refusal>
    ensures report { IfOk result (λ r. AreReports config.now script.now r.flows.items) }
    ensures refused { IfErr result (λ e. IsUnforwarded config.now script.now e) }
    ensures screen { form ≡ None → screen.new ≡ screen.old }
{
    Ok(progress::forward(rt, alloc, script, config, &Open, screen, form)?)
}

/// Parses a script.
pub(crate) fn script_in(alloc: Global, text: Vec<u8>) -> Result<Script, Refusal>
    ensures script { IfOk result (λ script. script_of text.items ≡ Ok script) }
    ensures refused { IfErr result (λ e. (fault : ScriptError) × (e ≡ refusal.Script fault) × Fails fault (script_of text.items)) }
{
    Ok(parse(alloc, text.as_slice())?)
}
