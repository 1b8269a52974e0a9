//! Serves a request on the three streams, and returns its exit status.
ghost use Rattle.std.specs.Prelude.{◌≡◌, ◌⊎◌, IfErr, IfOk, OnOk};
ghost use Rattle.std.specs.String.{string_bytes};
ghost use Rattle.std.specs.Io.KnownBytes.{Keeps};
ghost use Rattle.requests.specs.declared.answers.TheConstants.{EXIT_SUCCESS, EXIT_REFUSED};
ghost use Rattle.commands.specs.Answers.{EndsAs, IsText, IsWithheld, Prints, Refuses};

use crate::decode::decode;
use crate::explaining::explain_request;
use crate::once::once;
use crate::replay::replay_explained;
use requests::{EXIT_REFUSED, EXIT_SUCCESS, Refusal, Request, print, refuse_explained};
use std::alloc::Global;
use std::io::{Read, Write};
use std::sync::Wait;
use std::thread::Threads;

/// Serves a request, and returns an exit status. The text goes to `output`, with status 0. A refusal goes to `faults`
/// as one line, `refused` with its number and its words, with status 1; the line or the record of the input that it
/// concerns comes first, if there is one. With `explain`, a second line explains it. A failed write to `faults` does not
/// change the status.
pub fn answer<R: Threads + Wait + Sync, I: Read, W: Write, E: Write>(
    rt: &R,
    alloc: Global,
    request: Request<'_>,
    input: &mut I,
    output: &mut W,
    faults: &mut E,
    explain: bool,
) -> u8
    ensures status { (result ≡ EXIT_SUCCESS) ⊎ (result ≡ EXIT_REFUSED) }
    ensures done { result ≡ EXIT_SUCCESS → Keeps (E.contents faults.old) (E.contents faults.new) }
    ensures ends { EndsAs request.entry (I.remaining input.old) result (W.contents output.old) (W.contents output.new) }
{
    let mut why = String::new(alloc);
    match perform(rt, alloc, request, input, output, &mut why) {
        Ok(()) => {
            drop(why);
            EXIT_SUCCESS
        }
        Err(refusal) => refuse_request(alloc, faults, request, refusal, why, explain),
    }
}

/// Prints the refusal of a request, and returns its exit status. Explains it by `why` and what the request shows of it.
fn refuse_request<E: Write>(
    alloc: Global,
    faults: &mut E,
    request: Request<'_>,
    refusal: Refusal,
    mut why: String,
    explain: bool,
) -> u8
    ensures { result ≡ EXIT_REFUSED }
{
    let _ = explain_request(alloc, &mut why, request, refusal);
    refuse_explained(faults, refusal, why.as_str(), explain)
}

/// Serves a request. A refusal other than `Output` leaves `output` unchanged. If a line of the input is refused, its
/// explanation is appended to `why`.
pub fn perform<R: Threads + Wait + Sync, I: Read, W: Write>(
    rt: &R,
    alloc: Global,
    request: Request<'_>,
    input: &mut I,
    output: &mut W,
    why: &mut String,
) -> Result<(), Refusal>
    ensures done { OnOk result (Prints request.entry (I.remaining input.old) (W.contents output.old) (W.contents output.new)) }
    ensures refused { IfErr result (λ e.
        Refuses request.entry (I.remaining input.old) e (W.contents output.old) (W.contents output.new)) }
{
    let text = text_of(rt, alloc, request, input, why)?;
    print(text.as_str(), output)
}

/// Returns the text that a request prints.
fn text_of<R: Threads + Wait + Sync, I: Read>(
    rt: &R,
    alloc: Global,
    request: Request<'_>,
    input: &mut I,
    why: &mut String,
) -> Result<String, Refusal>
    ensures text { IfOk result (λ text. IsText request.entry (I.remaining input.old) (string_bytes text)) }
    ensures withheld { IfErr result (λ e. IsWithheld request.entry (I.remaining input.old) e) }
{
    match request {
        Request::Once { digits } => once(rt, alloc, digits),
        Request::Decode { form, digits } => decode(alloc, form, digits),
        Request::Replay { plan } => replay_explained(alloc, plan, input, why),
    }
}
