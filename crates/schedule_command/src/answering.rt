//! Serving a request.
ghost use Rattle.std.specs.Prelude.{◌≡◌, ◌≤◌, ◌⊎◌, IfErr, IfOk, IsErr, OnOk};
ghost use Rattle.std.specs.Io.KnownBytes.{Keeps};
ghost use Rattle.std.specs.String.{string_bytes};
ghost use Rattle.requests.specs.declared.answers.TheConstants.{EXIT_SUCCESS, EXIT_REFUSED};
ghost use Rattle.ring_machine.specs.Queues.{AreQueues};
ghost use Rattle.schedule_command.specs.Lists.{AreShown, NotPrinted, Prints, PrintsLists, PrintsPage, Refuses};

use crate::listing::{content_of, list_of};
use commands::page_with;
use requests::{EXIT_SUCCESS, Refusal, ScheduleRequest, explain_queues, print, refuse_explained};
use ring_machine::MachineError;
use std::alloc::Global;
use std::io::Write;

/// Serves the request and returns an exit status. Prints the lists to `output`, with status 0. Prints a refusal to
/// `faults` as one line, with status 1; with `explain`, a second line explains it. If the queues cannot exist, `output`
/// is unchanged.
pub fn answer<W: Write, E: Write>(
    alloc: Global,
    request: &ScheduleRequest,
    output: &mut W,
    faults: &mut E,
    explain: bool,
) -> u8
    ensures status { (result ≡ EXIT_SUCCESS) ⊎ (result ≡ EXIT_REFUSED) }
    ensures done { result ≡ EXIT_SUCCESS → Keeps (E.contents faults.old) (E.contents faults.new) }
    ensures prints { result ≡ EXIT_SUCCESS → Prints request.now (W.contents output.old) (W.contents output.new) }
    ensures no_queues { ¬ (AreQueues request.now.plan.pairs request.now.plan.ring) → 1 ≤ request.now.count
        → (result ≡ EXIT_REFUSED) × Keeps (W.contents output.old) (W.contents output.new) }
{
    match perform(alloc, request, output) {
        Ok(()) => EXIT_SUCCESS,
        Err(refusal) => refuse_request(alloc, faults, request, refusal, explain),
    }
}

/// Prints the refusal of a request, and returns its exit status.
fn refuse_request<E: Write>(
    alloc: Global,
    faults: &mut E,
    request: &ScheduleRequest,
    refusal: Refusal,
    explain: bool,
) -> u8
    ensures { result ≡ EXIT_REFUSED }
{
    let mut why = String::new(alloc);
    if let Refusal::Machine(MachineError::RingLength) = refusal {
        let _ = explain_queues(&mut why, request.plan.pairs, request.plan.ring);
    }
    refuse_explained(faults, refusal, why.as_str(), explain)
}

/// Draws the requested lists, and prints each as soon as it is drawn, or all in a page.
///
/// Returns the machine's ring length refusal if the queues cannot exist, before it prints anything; a lack of memory,
/// here or in the machine; and `Output` if a list cannot be printed. The lists before it stay printed.
pub fn perform<W: Write>(
    alloc: Global,
    request: &ScheduleRequest,
    output: &mut W,
) -> Result<(), Refusal>
    ensures done { OnOk result (Prints request.now (W.contents output.old) (W.contents output.new)) }
    ensures refused { IfErr result (Refuses request.now) }
    ensures no_queues { ¬ (AreQueues request.now.plan.pairs request.now.plan.ring) → 1 ≤ request.now.count
        → IsErr result × Keeps (W.contents output.old) (W.contents output.new) }
{
    if request.shows_page() {
        print_page(alloc, request, output)
    } else {
        print_lists(alloc, request, output)
    }
}

// Prints each list as soon as it is drawn.
fn print_lists<W: Write>(
    alloc: Global,
    request: &ScheduleRequest,
    output: &mut W,
) -> Result<(), Refusal>
    ensures done { OnOk result (PrintsLists request.now (W.contents output.old) (W.contents output.new)) }
    ensures refused { IfErr result (Refuses request.now) }
    ensures no_queues { ¬ (AreQueues request.now.plan.pairs request.now.plan.ring) → 1 ≤ request.now.count
        → IsErr result × Keeps (W.contents output.old) (W.contents output.new) }
{
    for number in 0..request.count {
        let text = list_of(alloc, request, number)?;
        print(text.as_str(), output)?;
    }
    Ok(())
}

// Prints a page with all lists.
fn print_page<W: Write>(
    alloc: Global,
    request: &ScheduleRequest,
    output: &mut W,
) -> Result<(), Refusal>
    ensures done { OnOk result (PrintsPage request.now (W.contents output.old) (W.contents output.new)) }
    ensures refused { IfErr result (Refuses request.now) }
    ensures no_queues { ¬ (AreQueues request.now.plan.pairs request.now.plan.ring) → 1 ≤ request.now.count
        → IsErr result × Keeps (W.contents output.old) (W.contents output.new) }
{
    let content = contents_of(alloc, request)?;
    let page = page_with(alloc, content.as_str())?;
    print(page.as_str(), output)?;
    Ok(())
}

// The data of all lists, joined.
fn contents_of(alloc: Global, request: &ScheduleRequest) -> Result<String, Refusal>
    ensures done { IfOk result (λ content. AreShown request.now (string_bytes content)) }
    ensures refused { IfErr result (NotPrinted request.now) }
    ensures no_queues { ¬ (AreQueues request.now.plan.pairs request.now.plan.ring) → 1 ≤ request.now.count → IsErr result }
{
    let mut contents = String::new(alloc);
    for number in 0..request.count {
        let content = content_of(alloc, request, number)?;
        contents.push_str(content.as_str())?;
    }
    Ok(contents)
}
