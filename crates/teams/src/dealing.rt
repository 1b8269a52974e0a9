//! Dealing flows to workers in turn, and restoring their order.
ghost use Rattle.std.specs.Prelude.{◌≡◌, ◌+◌, ◌<◌, ◌≤◌, true, List, [], ◌∷◌, ◌++◌, All, IfOk, length, map, vec_len, vec_capacity};
ghost use Rattle.teams.specs.Dealing.{IsDealt, Passes};
ghost use Rattle.teams.specs.Hands.{hand_keys, AllOver};

use crate::flow::Flow;
use std::alloc::{AllocError, Global};

/// Deals items to hands in turn: of `count` hands, item `f` goes to hand `f mod count`. Each hand keeps the order. The
/// hands are empty, and each has room for all items.
pub fn deal<T: Drop>(items: Vec<T>, mut hands: Vec<Vec<T>>) -> Vec<Vec<T>>
    requires some { 0 < vec_len hands }
    requires none { All (λ h. h.items ≡ []) hands.items }
    requires room { All (λ h. vec_len items ≤ vec_capacity h) hands.items }
    ensures count { vec_len result ≡ vec_len hands }
    ensures dealt { IsDealt items.items (map (λ h. h.items) result.items) }
{
    let mut worker = 0;
    for item in items {
        hands[worker].push_reserved(item);
        worker = next_worker(worker, hands.len());
    }
    hands
}

/// The hand that is next in turn.
fn next_worker(worker: usize, count: usize) -> usize
    requires { worker < count }
    ensures in_row { result < count }
    ensures passes { Passes count worker result }
{
    if worker + 1 == count { 0 } else { worker + 1 }
}

/// A vector of `count` empty hands, each with room for `room` items.
pub fn empty_hands<T: Drop>(
    alloc: Global,
    count: usize,
    room: usize,
) -> Result<Vec<Vec<T>>, AllocError>
    ensures count { IfOk result (λ hands. vec_len hands ≡ count) }
    ensures empty { IfOk result (λ hands. All (λ h. h.items ≡ []) hands.items) }
    ensures room { IfOk result (λ hands. All (λ h. room ≤ vec_capacity h) hands.items) }
{
    let mut hands = Vec::with_capacity(alloc, count)?;
    for _ in 0..count {
        hands.push_reserved(Vec::with_capacity(alloc, room)?);
    }
    Ok(hands)
}

/// Restores the order of flows that were dealt, in room allocated before.
pub fn gather<F: Flow>(mut hands: Vec<Vec<F>>, total: usize, mut room: Vec<F>) -> Vec<F>
    requires some { 0 < vec_len hands }
    requires none { room.items ≡ [] }
    requires room { total ≤ vec_capacity room }
    ensures keys { (keys : List F.Key) → length keys ≡ total → IsDealt keys (hand_keys F.key hands.items) → map F.key result.items ≡ keys }
    ensures over { AllOver F.over hands.items → All (λ f. F.over f ≡ true) result.items }
{
    let mut worker = 0;
    for _ in 0..total {
        move_first(&mut hands[worker], &mut room);
        worker = next_worker(worker, hands.len());
    }
    room
}

/// Moves the first flow of a hand, if it has one, to the end of `room`. A hand has few flows, so few move up.
fn move_first<F: Flow>(hand: &mut Vec<F>, room: &mut Vec<F>)
    requires { vec_len room.old < vec_capacity room.old }
    ensures moved { (first : F.Key) (later : List F.Key) → map F.key hand.old.items ≡ first ∷ later → (map F.key hand.new.items ≡ later) × (map F.key room.new.items ≡ map F.key room.old.items ++ first ∷ []) }
    ensures over { All (λ f. F.over f ≡ true) hand.old.items → All (λ f. F.over f ≡ true) room.old.items → All (λ f. F.over f ≡ true) hand.new.items × All (λ f. F.over f ≡ true) room.new.items }
    ensures room { vec_capacity room.new ≡ vec_capacity room.old }
    ensures few { vec_len room.new ≤ vec_len room.old + 1 }
{
    if !hand.is_empty() {
        room.push_reserved(hand.remove(0));
    }
}
