//! A complete search, with its progress.
ghost use Rattle.std.specs.Prelude.{◌≡◌, IfOk};

use schedules::covering::{Scope, Search, SearchedQueue};
use std::alloc::{AllocError, Global};
use std::io::Write;

/// The number of states per progress line.
const STATES_A_LINE: usize = 1000;

// Prints the progress of a search as one line. Ignores a failing stream.
fn tell<E: Write>(search: &Search, side: SearchedQueue, shown: &mut E) {
    let queue = match side {
        SearchedQueue::Receive => "r0",
        SearchedQueue::Transmit(_) => "t0",
    };
    let _ = writeln!(
        shown,
        "{queue} states {} of {} steps {} pairs {}",
        search.expanded(),
        search.states(),
        search.steps(),
        search.pairs()
    );
}

/// Searches all reachable states. Prints the progress to `shown`.
pub(crate) fn search_of<E: Write>(
    alloc: Global,
    scope: Scope,
    shown: &mut E,
) -> Result<Search, AllocError>
    ensures { IfOk result (λ search. search ≡ scope) }
{
    let mut search = Search::new(alloc, scope)?;
    for _ in 0..u64::MAX {
        if search.is_whole() {
            break;
        }
        search.expand(alloc, STATES_A_LINE)?;
        tell(&search, scope.side, shown);
    }
    Ok(search)
}
