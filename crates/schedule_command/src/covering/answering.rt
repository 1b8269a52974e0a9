//! Serving a request.
ghost use Rattle.std.specs.Prelude.{◌≡◌, IfErr, OnOk, All};
ghost use Rattle.std.specs.Io.KnownBytes.{Keeps};
ghost use Rattle.requests.specs.declared.answers.TheConstants.{EXIT_SUCCESS};
ghost use Rattle.schedules.specs.Lists.{Meets};
ghost use Rattle.schedule_command.specs.Covers.{EndsCover, Prints, PrintsCover, PrintsLists, Refuses, RefusesCover};

use crate::covering::listing::list_of;
use crate::covering::searching::search_of;
use requests::{CoverRequest, EXIT_SUCCESS, Refusal, ReplayOutput, print, refuse_explained};
use schedules::covering::{CoverList, Scope, SearchedQueue};
use std::alloc::Global;
use std::io::Write;

/// Serves the request and returns an exit status. Prints the lists to `output`, with status 0. Prints the progress to
/// `shown`, a line per 1,000 states, and a refusal to `faults` as one line, with status 1; with `explain`, a second line
/// explains it.
pub fn answer<W: Write, E: Write, M: Write>(
    alloc: Global,
    request: &CoverRequest,
    output: &mut W,
    faults: &mut E,
    shown: &mut M,
    explain: bool,
) -> u8
    ensures ends { EndsCover request.now result (W.contents output.old) (W.contents output.new) }
    ensures done { result ≡ EXIT_SUCCESS → Keeps (E.contents faults.old) (E.contents faults.new) }
{
    match perform(alloc, request, output, shown) {
        Ok(()) => EXIT_SUCCESS,
        Err(refusal) => refuse_explained(faults, refusal, "", explain),
    }
}

/// Searches the states of a receive queue and then of a transmit queue. Prints the lists of each as soon as its
/// search is complete, and the progress to `shown`, a line per 1,000 states.
///
/// Returns `Memory` if memory is refused, and `Output` if a list cannot be printed. The lists before it stay printed.
pub fn perform<W: Write, M: Write>(
    alloc: Global,
    request: &CoverRequest,
    output: &mut W,
    shown: &mut M,
) -> Result<(), Refusal>
    ensures done { OnOk result (PrintsCover request.now (W.contents output.old) (W.contents output.new)) }
    ensures refused { IfErr result (RefusesCover request.now) }
{
    let receive = Scope {
        side: SearchedQueue::Receive,
        device_only: request.device_only,
    };
    let transmit = Scope {
        side: SearchedQueue::Transmit(request.completion),
        device_only: request.device_only,
    };
    cover(alloc, receive, request.expect, output, shown)?;
    cover(alloc, transmit, request.expect, output, shown)
}

// Prints the lists of one queue.
fn cover<W: Write, M: Write>(
    alloc: Global,
    scope: Scope,
    expect: Option<ReplayOutput>,
    output: &mut W,
    shown: &mut M,
) -> Result<(), Refusal>
    ensures done { OnOk result (Prints scope expect (W.contents output.old) (W.contents output.new)) }
    ensures refused { IfErr result (Refuses scope) }
{
    let search = search_of(alloc, scope, shown)?;
    let lists = search.lists(alloc)?;
    print_lists(alloc, scope, expect, lists.as_slice(), output)
}

// Prints these lists, one after another.
fn print_lists<W: Write>(
    alloc: Global,
    scope: Scope,
    expect: Option<ReplayOutput>,
    lists: &[CoverList],
    output: &mut W,
) -> Result<(), Refusal>
    requires { All (Meets scope) lists.now }
    ensures done { OnOk result (PrintsLists scope expect lists.now (W.contents output.old) (W.contents output.new)) }
    ensures refused { IfErr result (Refuses scope) }
{
    for list in lists {
        let text = list_of(alloc, scope, expect, list)?;
        print(text.as_str(), output)?;
    }
    Ok(())
}
