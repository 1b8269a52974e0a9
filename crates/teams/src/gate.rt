//! The gate that workers pass before each call that makes steps.
ghost use Rattle.std.specs.Prelude.{◌≡◌, true, false, IfErr, OnOk};

use refusals::ForwardError;

/// The worker that passes a gate: the side, and the number of the flow.
#[derive(Clone, Copy, Debug, PartialEq, Eq)]
pub enum Who {
    /// The driver's side of this flow.
    Driver(usize),
    /// The controller's side of this flow.
    Controller(usize),
}

/// The call that the worker is about to make.
#[derive(Clone, Copy, Debug, PartialEq, Eq)]
pub enum Event {
    /// Offers a frame to a receive queue.
    Offer,
    /// Gives a transmit queue a turn.
    TxTurn,
    /// Takes a batch.
    RxBatch,
    /// Posts a batch.
    TxBatch,
}

/// A gate is passed just before each of these calls, and forwarding ends if it returns false. It may hold its caller
/// back, so that a program can inspect what runs or enforce an order of steps. Workers in several threads pass one
/// gate, so the calls that start them require `Sync` too.
pub trait Gate {
    ghost use Rattle.std.specs.Prelude.{Bool};
    ghost use Rattle.teams.specs.declared.gate.Who.{Who};
    ghost use Rattle.teams.specs.declared.gate.Event.{Event};

    /// The results that `pass` may return.
    ghost answers: { Self → Who → Event → Bool → Type 0 };

    /// Returns whether forwarding continues.
    fn pass(&self, who: Who, event: Event) -> bool
        ensures { answers self.now who event result };
}

/// The gate that always returns true.
#[derive(Clone, Copy, Debug)]
pub struct Open;

impl Gate for Open {
    ghost use Rattle.std.specs.Prelude.{◌≡◌, true};

    ghost answers = { λ _ _ _ b. b ≡ true };

    #[inline]
    fn pass(&self, _who: Who, _event: Event) -> bool {
        true
    }
}

/// Passes a gate. Returns `Gate` if the gate returned false.
#[inline]
pub fn admit<G: Gate>(gate: &G, who: Who, event: Event) -> Result<(), ForwardError>
    ensures refusal { IfErr result (λ e. (e ≡ ForwardError.Gate) × G.answers gate.now who event false) }
    ensures passed { OnOk result (G.answers gate.now who event true) }
{
    if gate.pass(who, event) {
        Ok(())
    } else {
        Err(ForwardError::Gate)
    }
}
