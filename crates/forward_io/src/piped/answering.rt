//! Serves a request on the three streams, and returns its exit status.
ghost use Rattle.std.specs.Prelude.{◌≡◌, ◌⊎◌, ℕ, List, None, Some, false, IfErr, IfOk, OnOk};
ghost use Rattle.std.specs.Io.KnownBytes.{Keeps};
ghost use Rattle.requests.specs.Answers.{EndsBy};
ghost use Rattle.requests.specs.declared.answers.TheConstants.{EXIT_SUCCESS, EXIT_REFUSED};
ghost use Rattle.requests.specs.declared.refusal.Refusal.TheVariants as refusal;
ghost use Rattle.forward_io.specs.Meanings.{Prints, Withholds, meant};
ghost use Rattle.requests.specs.Conversions.{IsPlaced, may_skip};

use crate::piped::page::page_of;
use crate::skips::{is_any, write_line};
use capture::Skipped;
use requests::{CaptureRequest, EXIT_SUCCESS, Refusal, put, refuse_explained};
use std::alloc::Global;
use std::io::{Read, Write};

/// Serves a request, and returns an exit status. The result goes to `output`, with status 0. A refusal goes to `faults`
/// as one line, with status 1, as for the other commands; the line or the record that it concerns comes first, if there
/// is one. With `explain`, a second line explains it. If records were left out, a line on `screen` says how many.
pub fn answer<I: Read, W: Write, E: Write, M: Write>(
    alloc: Global,
    request: CaptureRequest,
    input: &mut I,
    output: &mut W,
    faults: &mut E,
    screen: &mut M,
    explain: bool,
) -> u8
    requires { IsPlaced request }
    ensures status { (result ≡ EXIT_SUCCESS) ⊎ (result ≡ EXIT_REFUSED) }
    ensures done { result ≡ EXIT_SUCCESS → Keeps (E.contents faults.old) (E.contents faults.new) }
    ensures ends { (bytes : List ℕ) → I.remaining input.old ≡ Some bytes
        → EndsBy (meant request bytes) result (W.contents output.old) (W.contents output.new) }
    ensures screen { may_skip request ≡ false → screen.new ≡ screen.old }
{
    let mut why = String::new(alloc);
    match perform(alloc, request, input, output, screen, &mut why) {
        Ok(()) => {
            drop(why);
            EXIT_SUCCESS
        }
        Err(refusal) => {
            let status = refuse_explained(faults, refusal, why.as_str(), explain);
            drop(why);
            status
        }
    }
}

/// Serves a request. A refusal other than `Output` leaves `output` unchanged. Appends the explanation of a faulty input to
/// `why`.
pub fn perform<I: Read, W: Write, M: Write>(
    alloc: Global,
    request: CaptureRequest,
    input: &mut I,
    output: &mut W,
    screen: &mut M,
    why: &mut String,
) -> Result<(), Refusal>
    requires { IsPlaced request }
    ensures done { OnOk result (Prints (meant request) (I.remaining input.old) (W.contents output.old) (W.contents output.new)) }
    ensures refused { IfErr result (λ e.
        Withholds (meant request) (I.remaining input.old) e (W.contents output.old) (W.contents output.new)) }
    ensures screen { may_skip request ≡ false → screen.new ≡ screen.old }
{
    let (page, skipped) = page_of(alloc, request, input, why)?;
    let line = line_for(alloc, request, &skipped)?;
    put(page.as_slice(), output)?;
    if let Some(line) = line {
        let _ = screen.write_all(line.as_bytes());
        let _ = screen.flush();
    }
    Ok(())
}

/// Returns the line about records that were left out, if there are any.
fn line_for(
    alloc: Global,
    request: CaptureRequest,
    skipped: &Skipped,
) -> Result<Option<String>, Refusal>
    ensures none { IfOk result (λ line. may_skip request ≡ false → line ≡ None) }
    ensures refused { IfErr result (λ e. e ≡ refusal.Memory) }
{
    if !request.may_skip() || !is_any(skipped) {
        return Ok(None);
    }
    let mut line = String::new(alloc);
    write_line(&mut line, skipped)?;
    Ok(Some(line))
}
