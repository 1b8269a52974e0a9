//! Flows that only count turns, and a gate that refuses one of them.
ghost use Rattle.std.specs.Prelude.{◌<◌};

use forwarding::{Event, Flow, ForwardError, Gate, Progress, Who, admit};
use std::alloc::{AllocError, Global};
use std::sync::Wait;
use teams::{deal, empty_hands};

/// A flow with this number of turns never ends.
pub(crate) const ENDLESS: u32 = u32::MAX;

/// A flow that is over after a number of turns. It passes the gate in each.
#[derive(Drop)]
pub(crate) struct Turns {
    number: usize,
    left: u32,
}

impl Flow for Turns {
    ghost use Rattle.std.specs.Prelude.{ℕ, [], nat_eq};

    ghost Key = { ℕ };

    ghost key = { λ f. f.number };

    ghost over = { λ f. nat_eq f.left 0 };

    ghost numbers = { λ _. [] };

    fn turn<R: Wait, G: Gate>(&mut self, _rt: &R, gate: &G) -> Result<Progress, ForwardError> {
        admit(gate, Who::Driver(self.number), Event::RxBatch)?;
        if self.left != ENDLESS {
            self.left = self.left.saturating_sub(1);
        }
        Ok(if self.left == 0 {
            Progress::Over
        } else {
            Progress::Worked
        })
    }

    fn is_over(&self) -> bool {
        self.left == 0
    }
}

/// A gate that refuses one flow.
pub(crate) struct AllBut(pub usize);

impl Gate for AllBut {
    ghost use Rattle.std.specs.Prelude.{⊤};

    ghost answers = { λ _ _ _ _. ⊤ };

    fn pass(&self, who: Who, _event: Event) -> bool {
        who != Who::Driver(self.0)
    }
}

/// Flows with these numbers of turns, in the order of their numbers, dealt to `workers` workers.
pub(crate) fn dealt(
    alloc: Global,
    turns: &[u32],
    workers: usize,
) -> Result<Vec<Vec<Turns>>, AllocError>
    requires { 0 < workers }
{
    let mut flows = Vec::new(alloc);
    for number in 0..turns.len() {
        let left = turns[number];
        flows.push(Turns { number, left })?;
    }
    let hands = empty_hands(alloc, workers, flows.len())?;
    Ok(deal(flows, hands))
}

/// The numbers of the flows, hand by hand, as the digits of one number: one more than the flow's number, or 0 for a
/// flow that is not over; and a 0 after each hand.
pub(crate) fn digits_of(hands: &[Vec<Turns>]) -> u64 {
    let mut digits: u64 = 0;
    for hand in hands {
        digits = with_hand(digits, hand).wrapping_mul(10);
    }
    digits
}

fn with_hand(mut digits: u64, hand: &[Turns]) -> u64 {
    for flow in hand {
        let digit = if flow.is_over() {
            (flow.number as u64).wrapping_add(1)
        } else {
            0
        };
        digits = digits.wrapping_mul(10).wrapping_add(digit);
    }
    digits
}
