//! The report of records that were left out of captures.
ghost use Rattle.std.specs.Prelude.{◌≡◌, ◌++◌, IfErr, OnOk};
ghost use Rattle.std.specs.String.{string_bytes};
ghost use Rattle.requests.specs.declared.refusal.Refusal.TheVariants.{Memory};
ghost use Rattle.forward_io.specs.Skips.{skipped_line, skipped_object, skipped_objects};

use capture::Skipped;
use requests::Refusal;

/// Whether any record was left out.
pub(crate) fn is_any(skipped: &Skipped) -> bool {
    skipped.truncated > 0 || skipped.snapped > 0 || skipped.long > 0 || skipped.short > 0
}

/// Writes how many records were left out of a capture, by fault, and LF.
pub(crate) fn write_line(text: &mut String, skipped: &Skipped) -> Result<(), Refusal>
    ensures line { OnOk result (string_bytes text.new ≡ string_bytes text.old ++ skipped_line skipped.now) }
    ensures refused { IfErr result (λ e. e ≡ Memory) }
{
    writeln!(
        text,
        "skipped truncated {} snapped {} long {} short {}",
        skipped.truncated, skipped.snapped, skipped.long, skipped.short,
    )?;
    Ok(())
}

/// Writes the same as a JSON object for each capture, numbered from 1 in the order of the options.
pub(crate) fn write_objects(text: &mut String, skipped: &[Skipped]) -> Result<(), Refusal>
    ensures objects { OnOk result (string_bytes text.new ≡ string_bytes text.old ++ skipped_objects 1 skipped.now) }
    ensures refused { IfErr result (λ e. e ≡ Memory) }
{
    for at in 0..skipped.len() {
        write_object(text, at + 1, &skipped[at])?;
    }
    Ok(())
}

/// Writes the object of a capture, and LF.
fn write_object(text: &mut String, number: usize, skipped: &Skipped) -> Result<(), Refusal>
    ensures object { OnOk result (string_bytes text.new ≡ string_bytes text.old ++ skipped_object number skipped.now) }
    ensures refused { IfErr result (λ e. e ≡ Memory) }
{
    let Skipped {
        truncated,
        snapped,
        long,
        short,
    } = *skipped;
    writeln!(
        text,
        "{{\"capture\":{number},\"truncated\":{truncated},\"snapped\":{snapped},\"long\":{long},\"short\":{short}}}"
    )?;
    Ok(())
}
