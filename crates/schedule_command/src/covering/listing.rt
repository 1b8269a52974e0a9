//! The text of one list.
ghost use Rattle.std.specs.Prelude.{◌≡◌, ◌++◌, IfErr, IfOk, OnOk};
ghost use Rattle.std.specs.String.{string_bytes};
ghost use Rattle.schedule_command.specs.Covers.{IsText, IsUnreplayed, NotPrinted, list_text, move_lines, queues_of};
ghost use Rattle.schedule_command.specs.Lists.{Follows};

use commands::replay_text;
use requests::{QueuePlan, Refusal, ReplayOutput};
use ring_machine::Move;
use schedules::covering::{CoverList, Scope};
use std::alloc::{AllocError, Global};

// The queues with which a list begins.
fn queues_of(scope: Scope, shown: ReplayOutput) -> QueuePlan
    ensures { result ≡ queues_of scope shown }
{
    QueuePlan {
        pairs: 1,
        ring: 8,
        enabled: scope.device_only,
        completion: scope.side.completion(),
        lists: false,
        shown,
    }
}

// Writes moves, one per line.
fn write_moves(text: &mut String, moves: &[Move]) -> Result<(), AllocError>
    ensures { OnOk result (string_bytes text.new ≡ string_bytes text.old ++ move_lines moves.now) }
{
    for action in moves {
        writeln!(text, "{action}")?;
    }
    Ok(())
}

// A list's pair as a comment, its moves, and the line that ends it.
fn text_of(alloc: Global, list: &CoverList) -> Result<String, AllocError>
    ensures { IfOk result (λ text. string_bytes text ≡ list_text list.now) }
{
    let mut text = String::new(alloc);
    writeln!(text, "# {}", list.pair)?;
    write_moves(&mut text, list.moves.as_slice())?;
    text.push_str("# end\n")?;
    Ok(text)
}

/// The printed text of a list.
pub(crate) fn list_of(
    alloc: Global,
    scope: Scope,
    expect: Option<ReplayOutput>,
    list: &CoverList,
) -> Result<String, Refusal>
    ensures done { IfOk result (λ text. IsText scope expect list.now (string_bytes text)) }
    ensures refused { IfErr result (NotPrinted scope list.now) }
{
    let mut text = text_of(alloc, list)?;
    let more = expected_of(alloc, scope, expect, text.as_str())?;
    text.push_str(more.as_str())?;
    Ok(text)
}

// The output of `replay` for a list in this form, or nothing.
fn expected_of(
    alloc: Global,
    scope: Scope,
    expect: Option<ReplayOutput>,
    list: &str,
) -> Result<String, Refusal>
    ensures done { IfOk result (λ more. Follows expect (queues_of scope) list.now (string_bytes more)) }
    ensures refused { IfErr result (IsUnreplayed scope list.now) }
{
    match expect {
        Some(shown) => replay_text(alloc, queues_of(scope, shown), &mut list.as_bytes()),
        None => Ok(String::new(alloc)),
    }
}
