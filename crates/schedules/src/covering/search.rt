//! The search over the states of one queue.
ghost use Rattle.std.specs.Prelude.{◌≡◌, IfOk};
ghost use Rattle.ring_machine.specs.Queues.{QueuesAgree};
ghost use Rattle.schedules.specs.Lists.{beginning};

use crate::covering::outcome::OutcomeKind;
use crate::covering::pairs::{PAIRS, Pair};
use crate::covering::summary::QueueSummary;
use crate::covering::tried::{MOVES_TRIED, Scope, moves_tried};
use ring_machine::{MachineError, Move, Note, Queues};
use std::alloc::{AllocError, Global};
use std::collections::HashSet;
use std::marker::Model;

/// A reached state: the queue's state, the state before it, the move from there, and the number of moves so far.
#[derive(Clone, Copy)]
struct Node {
    summary: QueueSummary,
    from: usize,
    action: Option<Move>,
    pair: usize,
    depth: usize,
}

/// A pair that was met for the first time, and the state in which it was.
#[derive(Clone, Copy)]
pub(crate) struct NewPair {
    pub pair: Pair,
    pub at: usize,
}

/// A search over the states of one queue of 8, from a new queue on.
#[derive(Drop)]
pub struct Search {
    pub(crate) scope: Scope,
    nodes: Vec<Node>,
    reached: HashSet<u64>,
    expanded: usize,
    steps: u64,
    met: Vec<bool>,
    found: Vec<NewPair>,
}

// The scope of a search is all that its contracts see.
impl Model for Search {
    ghost use Rattle.schedules.specs.declared.covering.tried.Scope.{Scope};

    ghost Value = { Scope };

    ghost view = { λ s. s.scope };
}

/// A pair of a receive and a transmit queue of 8 in the first state of the search.
pub(crate) fn queues_of(alloc: Global, scope: Scope) -> Result<Queues, AllocError>
    ensures { IfOk result (λ q. QueuesAgree q (beginning scope)) }
{
    match Queues::new_with(alloc, 1, 8, scope.device_only, scope.side.completion()) {
        Ok(queues) => Ok(queues),
        Err(_) => Err(AllocError),
    }
}

// Such queues, after these moves.
fn queues_after(alloc: Global, scope: Scope, moves: &[Move]) -> Result<Queues, AllocError> {
    let mut queues = queues_of(alloc, scope)?;
    queues.run(moves);
    Ok(queues)
}

fn is_set(flags: &Vec<bool>, k: usize) -> bool {
    matches!(flags.get(k), Some(true))
}

fn set(flags: &mut Vec<bool>, k: usize) {
    if let Some(flag) = flags.get_mut(k) {
        *flag = true;
    }
}

impl Search {
    /// A search that has reached the new queue, and expanded no state yet. Fails only if memory was refused.
    pub fn new(alloc: Global, scope: Scope) -> Result<Search, AllocError>
        ensures { IfOk result (λ search. search ≡ scope) }
    {
        let mut nodes = Vec::new(alloc);
        let mut reached = HashSet::new(alloc);
        let summary = QueueSummary::first(scope);
        reached.insert(summary.key())?;
        nodes.push(Node {
            summary,
            from: 0,
            action: None,
            pair: 0,
            depth: 0,
        })?;
        Ok(Search {
            scope,
            nodes,
            reached,
            expanded: 0,
            steps: 0,
            met: vec![in alloc; false; PAIRS]?,
            found: Vec::new(alloc),
        })
    }

    /// Expands up to `most` more states: tries each move in each of them. Fails only if memory was refused.
    pub fn expand(&mut self, alloc: Global, most: usize) -> Result<(), AllocError>
        ensures { self.new ≡ self.old }
    {
        let Some(moves) = moves_tried(self.scope.side) else {
            return Err(AllocError);
        };
        for _ in 0..most {
            let Some(node) = self.nodes.get(self.expanded) else {
                return Ok(());
            };
            let node = *node;
            self.go_over(alloc, &node, &moves)?;
            self.expanded = self.expanded.saturating_add(1);
        }
        Ok(())
    }

    // Tries each move in the next state.
    fn go_over(
        &mut self,
        alloc: Global,
        node: &Node,
        moves: &[Move; MOVES_TRIED],
    ) -> Result<(), AllocError>
        ensures { self.new ≡ self.old }
    {
        let path = self.path_to(alloc, self.expanded)?;
        let mut queues = queues_after(alloc, self.scope, path.as_slice())?;
        for action in moves {
            if !self.scope.has(*action) || node.summary.is_too_much(*action) {
                continue;
            }
            self.steps = self.steps.saturating_add(1);
            let answer = queues.step(*action);
            if self.meet(node, *action, answer)? {
                queues = queues_after(alloc, self.scope, path.as_slice())?;
            }
        }
        Ok(())
    }

    // Records the outcome of a move in the expanded state. Returns whether the move was made.
    fn meet(
        &mut self,
        node: &Node,
        action: Move,
        answer: Result<Note, MachineError>,
    ) -> Result<bool, AllocError>
        ensures { self.new ≡ self.old }
    {
        let pair = Pair {
            action,
            driver: node.summary.driver(),
            controller: node.summary.controller(),
            outcome: OutcomeKind::of(answer),
        };
        self.find(&pair)?;
        match answer {
            Ok(note) => {
                self.reach(node, &pair, note)?;
                Ok(true)
            }
            Err(_) => Ok(false),
        }
    }

    // Records that a pair is met in the expanded state.
    fn find(&mut self, pair: &Pair) -> Result<(), AllocError>
        ensures { self.new ≡ self.old }
    {
        let at = self.expanded;
        if let Some(is_met) = self.met.get_mut(pair.number()) {
            if !*is_met {
                *is_met = true;
                self.found.push(NewPair { pair: *pair, at })?;
            }
        }
        Ok(())
    }

    // Records the state after a pair's move from the expanded state.
    fn reach(&mut self, node: &Node, pair: &Pair, note: Note) -> Result<(), AllocError>
        ensures { self.new ≡ self.old }
    {
        let summary = node.summary.after(pair.action, note);
        if self.reached.insert(summary.key())? {
            self.nodes.push(Node {
                summary,
                from: self.expanded,
                action: Some(pair.action),
                pair: pair.number(),
                depth: node.depth.saturating_add(1),
            })?;
        }
        Ok(())
    }

    // The number of moves that lead to a state.
    fn depth(&self, at: usize) -> usize {
        match self.nodes.get(at) {
            Some(node) => node.depth,
            None => 0,
        }
    }

    // The moves that lead to a state, in their order.
    pub(crate) fn path_to(&self, alloc: Global, at: usize) -> Result<Vec<Move>, AllocError> {
        let mut path = Vec::new(alloc);
        let mut at = at;
        for _ in 0..self.depth(at) {
            if let Some(node) = self.nodes.get(at) {
                if let Some(action) = node.action {
                    path.push(action)?;
                }
                at = node.from;
            }
        }
        path.as_mut_slice().reverse();
        Ok(path)
    }

    /// The pairs found, without those that the list of a later pair meets on its way; the last found first.
    pub(crate) fn chosen(&self, alloc: Global) -> Result<Vec<NewPair>, AllocError> {
        let mut covered = vec![in alloc; false; PAIRS]?;
        let mut chosen = Vec::new(alloc);
        for found in self.found.as_slice().iter().rev() {
            if is_set(&covered, found.pair.number()) {
                continue;
            }
            set(&mut covered, found.pair.number());
            self.cover(&mut covered, found.at);
            chosen.push(*found)?;
        }
        Ok(chosen)
    }

    // Marks the pairs that are met on the way to a state.
    fn cover(&self, covered: &mut Vec<bool>, at: usize) {
        let mut at = at;
        for _ in 0..self.depth(at) {
            if let Some(node) = self.nodes.get(at) {
                set(covered, node.pair);
                at = node.from;
            }
        }
    }

    /// Whether every reached state was expanded.
    pub fn is_whole(&self) -> bool {
        self.expanded >= self.nodes.len()
    }

    /// The number of reached states.
    pub fn states(&self) -> usize {
        self.nodes.len()
    }

    /// The number of expanded states.
    pub fn expanded(&self) -> usize {
        self.expanded
    }

    /// The number of moves tried.
    pub fn steps(&self) -> u64 {
        self.steps
    }

    /// Whether a pair with this pair's number was met.
    pub fn has_met(&self, pair: &Pair) -> bool {
        is_set(&self.met, pair.number())
    }

    /// The number of pairs met.
    pub fn pairs(&self) -> usize {
        self.found.len()
    }
}
