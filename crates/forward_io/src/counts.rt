//! The counters of a flow, as words of a line or as members of a JSON object.
ghost use Rattle.std.specs.Prelude.{◌≡◌, ◌++◌, map, IfErr, OnOk};
ghost use Rattle.std.specs.String.{string_bytes};
ghost use Rattle.counters.specs.FlowCounters.{entry_of};
ghost use Rattle.requests.specs.declared.refusal.Refusal.TheVariants.{Memory};
ghost use Rattle.forward_io.specs.Counts.{counter_member, counter_text, counter_texts, counter_word};

use counters::Counter;
use requests::Refusal;

/// Writes counters, with `json` each after its key, and otherwise each after its word.
pub(crate) fn write_counters(
    text: &mut String,
    json: bool,
    counters: &[Counter],
) -> Result<(), Refusal>
    ensures counters { OnOk result (string_bytes text.new ≡ string_bytes text.old ++ counter_texts json (map entry_of counters.now)) }
    ensures refused { IfErr result (λ e. e ≡ Memory) }
{
    for counter in counters {
        write_counter(text, json, counter)?;
    }
    Ok(())
}

/// Writes a counter after its key or its word.
fn write_counter(text: &mut String, json: bool, counter: &Counter) -> Result<(), Refusal>
    ensures counter { OnOk result (string_bytes text.new ≡ string_bytes text.old ++ counter_text json (entry_of counter.now)) }
    ensures refused { IfErr result (λ e. e ≡ Memory) }
{
    if json {
        write_member(text, counter)
    } else {
        write_word(text, counter)
    }
}

/// Writes a counter after its key.
fn write_member(text: &mut String, counter: &Counter) -> Result<(), Refusal>
    ensures member { OnOk result (string_bytes text.new ≡ string_bytes text.old ++ counter_member (entry_of counter.now)) }
    ensures refused { IfErr result (λ e. e ≡ Memory) }
{
    write!(text, ",\"{}\":{}", counter.key, counter.value)?;
    Ok(())
}

/// Writes a counter after its word, if it has one.
fn write_word(text: &mut String, counter: &Counter) -> Result<(), Refusal>
    ensures word { OnOk result (string_bytes text.new ≡ string_bytes text.old ++ counter_word (entry_of counter.now)) }
    ensures refused { IfErr result (λ e. e ≡ Memory) }
{
    if let Some(word) = counter.word {
        write!(text, " {word} {}", counter.value)?;
    }
    Ok(())
}
