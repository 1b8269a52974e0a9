//! The lines about records that were left out of captures.
ghost use Rattle.std.specs.Prelude.{◌≡◌, IfErr, IfOk, None, false};
ghost use Rattle.requests.specs.declared.refusal.Refusal.TheVariants as refusal;

use crate::skips::{is_any, write_line};
use capture::Skipped;
use requests::{Refusal, Source};
use std::alloc::Global;

/// Returns a line for each capture of which records were left out, after the name of its file. Returns `None` if no
/// records may be left out, or none were.
pub(crate) fn skipped_lines(
    alloc: Global,
    sources: &[Source<'_>],
    skip: bool,
    skipped: &[Skipped],
) -> Result<Option<String>, Refusal>
    ensures none { IfOk result (λ lines. skip ≡ false → lines ≡ None) }
    ensures refused { IfErr result (λ e. e ≡ refusal.Memory) }
{
    if !skip {
        return Ok(None);
    }
    let mut lines = String::new(alloc);
    for (source, left_out) in sources.iter().zip(skipped) {
        write_source(&mut lines, source, left_out)?;
    }
    if lines.is_empty() {
        return Ok(None);
    }
    Ok(Some(lines))
}

/// Writes the line of a capture, if records were left out.
fn write_source(text: &mut String, source: &Source<'_>, skipped: &Skipped) -> Result<(), Refusal>
    ensures { IfErr result (λ e. e ≡ refusal.Memory) }
{
    if !is_any(skipped) {
        return Ok(());
    }
    write!(text, "{}: ", source.file())?;
    write_line(text, skipped)
}
