//! Lists of moves that together meet all pairs found by a search.
ghost use Rattle.std.specs.Prelude.{All, IfOk, IfSome};
ghost use Rattle.schedules.specs.Lists.{Meets};

use crate::covering::outcome::OutcomeKind;
use crate::covering::pairs::Pair;
use crate::covering::search::{Search, queues_of};
use crate::covering::tried::Scope;
use ring_machine::Move;
use std::alloc::{AllocError, Global};

/// A list of moves that meets a pair.
#[derive(Drop)]
pub struct CoverList {
    /// The pair.
    pub pair: Pair,
    /// The moves; the last one meets the pair.
    pub moves: Vec<Move>,
}

// The list of these moves and the pair's, if all of them happen and the last has the pair's outcome. A list with a move
// outside of the scope is `None`.
fn met_by(
    alloc: Global,
    scope: Scope,
    path: Vec<Move>,
    pair: Pair,
) -> Result<Option<CoverList>, AllocError>
    ensures { IfOk result (λ list. IfSome list (Meets scope)) }
{
    let mut queues = queues_of(alloc, scope)?;
    if queues.run(path.as_slice()) != path.len() {
        return Ok(None);
    }
    if OutcomeKind::of(queues.step(pair.action)) != pair.outcome {
        return Ok(None);
    }
    let mut moves = path;
    moves.push(pair.action)?;
    if !scope.has_all(moves.as_slice()) {
        return Ok(None);
    }
    Ok(Some(CoverList { pair, moves }))
}

impl Search {
    /// Lists of moves that together meet all pairs found so far, those with the fewest moves first. A list leads by the
    /// fewest moves that any schedule needs to a state in which its pair can be met.
    pub fn lists(&self, alloc: Global) -> Result<Vec<CoverList>, AllocError>
        ensures { IfOk result (λ lists. All (Meets self.now) lists.items) }
    {
        let chosen = self.chosen(alloc)?;
        let mut lists = Vec::new(alloc);
        for found in chosen.as_slice().iter().rev() {
            let path = self.path_to(alloc, found.at)?;
            if let Some(list) = met_by(alloc, self.scope, path, found.pair)? {
                lists.push(list)?;
            }
        }
        Ok(lists)
    }
}
