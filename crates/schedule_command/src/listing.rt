//! The text of one list.
ghost use Rattle.std.specs.Prelude.{◌≡◌, IfErr, IfOk, IsErr};
ghost use Rattle.std.specs.String.{string_bytes};
ghost use Rattle.ring_machine.specs.Queues.{AreQueues};
ghost use Rattle.schedule_command.specs.Lists.{IsPrinted, IsShown, NotPrinted, list_text, queues_of};

use commands::replay_text;
use requests::{PAGE_DATA, QueuePlan, Refusal, ReplayOutput, ScheduleRequest};
use schedules::{Drawn, draw};
use std::alloc::{AllocError, Global};

// The queues on which the moves are replayed.
fn queues_of(request: &ScheduleRequest, shown: ReplayOutput) -> QueuePlan
    ensures { result ≡ queues_of request.now shown }
{
    QueuePlan {
        pairs: request.plan.pairs,
        ring: request.plan.ring,
        enabled: request.plan.enabled,
        completion: request.plan.completion,
        lists: false,
        shown,
    }
}

// The moves of a list, one per line, and the line that ends it.
fn text_of(alloc: Global, drawn: &[Drawn]) -> Result<String, AllocError>
    ensures { IfOk result (λ text. string_bytes text ≡ list_text drawn.now) }
{
    let mut text = String::new(alloc);
    for d in drawn {
        writeln!(text, "{}", d.action)?;
    }
    text.push_str("# end\n")?;
    Ok(text)
}

/// The data of list `number` in a page.
pub(crate) fn content_of(
    alloc: Global,
    request: &ScheduleRequest,
    number: u32,
) -> Result<String, Refusal>
    ensures done { IfOk result (λ content. IsShown request.now (string_bytes content)) }
    ensures refused { IfErr result (NotPrinted request.now) }
    ensures no_queues { ¬ (AreQueues request.now.plan.pairs request.now.plan.ring) → IsErr result }
{
    let drawn = draw(
        alloc,
        &request.plan,
        u64::from(request.seed),
        u64::from(number),
    )?;
    let text = text_of(alloc, drawn.as_slice())?;
    let queues = queues_of(request, PAGE_DATA);
    replay_text(alloc, queues, &mut text.as_bytes())
}

/// The printed text of list `number`.
pub(crate) fn list_of(
    alloc: Global,
    request: &ScheduleRequest,
    number: u32,
) -> Result<String, Refusal>
    ensures done { IfOk result (λ text. IsPrinted request.now (string_bytes text)) }
    ensures refused { IfErr result (NotPrinted request.now) }
    ensures no_queues { ¬ (AreQueues request.now.plan.pairs request.now.plan.ring) → IsErr result }
{
    let drawn = draw(
        alloc,
        &request.plan,
        u64::from(request.seed),
        u64::from(number),
    )?;
    let mut text = text_of(alloc, drawn.as_slice())?;
    if let Some(shown) = request.expect {
        let queues = queues_of(request, shown);
        let expected = replay_text(alloc, queues, &mut text.as_bytes())?;
        text.push_str(expected.as_str())?;
    }
    Ok(text)
}
