//! Runs `forward` on its streams, and returns its exit status.
ghost use Rattle.std.specs.Prelude.{◌≡◌, ◌⊎◌, ℕ, List, Some, false, IfErr, OnOk};
ghost use Rattle.std.specs.Io.KnownBytes.{Keeps};
ghost use Rattle.requests.specs.declared.answers.TheConstants.{EXIT_SUCCESS, EXIT_REFUSED};
ghost use Rattle.program.specs.Forwards.{EndsForward, PrintsForward, WithholdsForward};

use crate::bounds::Host;
use crate::page::forward;
use forwarder::Config;
use requests::{EXIT_SUCCESS, Printing, Refusal, print, refuse};
use std::alloc::Global;
use std::io::{IsTerminal, Read, Write};
use std::marker::Send;

/// Forwards the script of `input`, and returns an exit status. The page goes to `output`, with status 0. A refusal goes
/// to `faults` as one line, with status 1, as for the other commands. Progress goes to `screen`, if it is shown.
pub fn answer<R: Host + Sync, I: Read, W: Write, E: Write, M: Write + IsTerminal + Send>(
    rt: &R,
    alloc: Global,
    config: &Config,
    printing: Printing,
    input: &mut I,
    output: &mut W,
    faults: &mut E,
    screen: &mut M,
) -> u8
    ensures status { (result ≡ EXIT_SUCCESS) ⊎ (result ≡ EXIT_REFUSED) }
    ensures done { result ≡ EXIT_SUCCESS → Keeps (E.contents faults.old) (E.contents faults.new) }
    ensures ends { (text : List ℕ) → I.remaining input.old ≡ Some text
        → EndsForward config.now printing text result (W.contents output.old) (W.contents output.new) }
    ensures screen { printing.progress ≡ false → screen.new ≡ screen.old }
{
    match perform(rt, alloc, config, printing, input, output, screen) {
        Ok(()) => EXIT_SUCCESS,
        Err(refusal) => refuse(faults, refusal),
    }
}

/// Forwards the script of `input`, and prints its page. A refusal other than `Output` leaves `output` unchanged.
/// A failing `screen` changes nothing.
pub fn perform<R: Host + Sync, I: Read, W: Write, M: Write + IsTerminal + Send>(
    rt: &R,
    alloc: Global,
    config: &Config,
    printing: Printing,
    input: &mut I,
    output: &mut W,
    screen: &mut M,
) -> Result<(), Refusal>
    ensures done { OnOk result (PrintsForward config.now printing (I.remaining input.old) (W.contents output.old) (W.contents output.new)) }
    ensures refused { IfErr result (λ e.
        WithholdsForward config.now printing (I.remaining input.old) e (W.contents output.old) (W.contents output.new)) }
    ensures screen { printing.progress ≡ false → screen.new ≡ screen.old }
{
    let text = forward(rt, alloc, config, printing, input, screen)?;
    print(text.as_str(), output)
}
