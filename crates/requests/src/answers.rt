//! How a command answers: with a text or a refusal, and an exit status.
ghost use Rattle.std.specs.Prelude.{◌≡◌, ◌<◌, ◌≤◌, length, take, IfErr, IfOk, OnErr, OnOk};
ghost use Rattle.std.specs.Io.KnownBytes.{Appends, Keeps};
ghost use Rattle.requests.specs.Answers.{AppendsFirst};

use crate::refusal::Refusal;
use std::io::{ErrorKind, Write};

/// The exit status of a request that succeeded.
pub const EXIT_SUCCESS: u8 = 0;

/// The exit status of a request that was refused.
pub const EXIT_REFUSED: u8 = 1;

/// How often a write that a signal interrupted is tried again.
const TRIES: u32 = 1_000_000;

/// Prints a text and flushes the output. Returns `Output` if that fails; the first bytes of the text may then be written.
pub fn print<W: Write>(text: &str, output: &mut W) -> Result<(), Refusal>
    ensures done { OnOk result (Appends (W.contents output.old) (W.contents output.new) text.now) }
    ensures first { OnErr result (AppendsFirst (W.contents output.old) (W.contents output.new) text.now) }
    ensures refused { IfErr result (λ e. e ≡ Refusal.Output) }
{
    put(text.as_bytes(), output)
}

/// Writes any bytes and flushes the output. Returns `Output` if that fails; the first of them may then be written.
pub fn put<W: Write>(bytes: &[u8], output: &mut W) -> Result<(), Refusal>
    ensures done { OnOk result (Appends (W.contents output.old) (W.contents output.new) bytes.now) }
    ensures first { OnErr result (AppendsFirst (W.contents output.old) (W.contents output.new) bytes.now) }
    ensures refused { IfErr result (λ e. e ≡ Refusal.Output) }
{
    let mut written = 0;
    while written < bytes.len() {
        written += put_some(&bytes[written..], output)?;
    }
    output.flush().map_err(|_| Refusal::Output)
}

/// Writes at least the first of these bytes, and returns how many it wrote. Returns `Output` if that fails; none is
/// written then.
fn put_some<W: Write>(bytes: &[u8], output: &mut W) -> Result<usize, Refusal>
    ensures some { IfOk result (λ count. (0 < count) × (count ≤ length bytes.now)) }
    ensures wrote { IfOk result (λ count. Appends (W.contents output.old) (W.contents output.new) (take count bytes.now)) }
    ensures none { OnErr result (Keeps (W.contents output.old) (W.contents output.new)) }
    ensures refused { IfErr result (λ e. e ≡ Refusal.Output) }
{
    for _ in 0..TRIES {
        match output.write(bytes) {
            Ok(0) => return Err(Refusal::Output),
            Ok(count) => return Ok(count),
            Err(e) if e.kind() == ErrorKind::Interrupted => {}
            Err(_) => return Err(Refusal::Output),
        }
    }
    Err(Refusal::Output)
}

/// Prints a refusal as one line, and returns its exit status. A failed write is ignored.
pub fn refuse<E: Write>(faults: &mut E, refusal: Refusal) -> u8
    ensures { result ≡ EXIT_REFUSED }
{
    let number = refusal.number();
    let _ = match (refusal.line(), refusal.record()) {
        (Some(line), _) => writeln!(faults, "line {line}: refused {number} {refusal}"),
        (None, Some(record)) => writeln!(faults, "record {record}: refused {number} {refusal}"),
        (None, None) => writeln!(faults, "refused {number} {refusal}"),
    };
    EXIT_REFUSED
}

/// Prints a refusal as one line and, with `explain`, its explanation as a second one: `why`, or a general sentence if
/// `why` is empty. Returns the exit status. Failed writes are ignored.
pub fn refuse_explained<E: Write>(faults: &mut E, refusal: Refusal, why: &str, explain: bool) -> u8
    ensures { result ≡ EXIT_REFUSED }
{
    let status = refuse(faults, refusal);
    if explain {
        let text = if why.is_empty() {
            refusal.advice()
        } else {
            why
        };
        let _ = writeln!(faults, "note: {text}");
    }
    status
}
