//! One side of a flow, as a worker serves it.
use crate::gate::Gate;
use refusals::ForwardError;
use std::sync::Wait;

/// The outcome of a turn.
#[derive(Clone, Copy, Debug, PartialEq, Eq)]
pub enum Progress {
    /// The turn did something.
    Worked,
    /// The turn did something, but could have done much more: the other side is only a little ahead.
    Few,
    /// There was nothing to do.
    Idle,
    /// The flow is over: nothing is left to do.
    Over,
}

/// One side of a flow: a driver's or a controller's. A worker gives it one turn after another until it is over.
pub trait Flow: Drop + Send {
    ghost use Rattle.std.specs.Prelude.{◌≡◌, ℕ, Bool, true, List, Result, IfOk, IfErr, ⊤};
    ghost use Rattle.refusals.specs.declared.errors.ForwardError.{ForwardError};
    ghost use Rattle.teams.specs.declared.flow.Progress.{Progress};
    ghost use Rattle.teams.specs.declared.gate.Who.{Who};
    ghost use Rattle.teams.specs.declared.gate.Event.{Event};
    ghost use Rattle.teams.specs.declared.flow.Progress.TheVariants as progress;
    ghost use Rattle.teams.specs.Gates.{Met};
    ghost use Rattle.teams.specs.Numbers.{NoneFalls};

    /// The type of `key`.
    ghost Key: { Type 0 };

    /// The flow's identity, which no turn changes.
    ghost key: { Self → Key };

    /// Whether nothing is left to do.
    ghost over: { Self → Bool };

    /// The numbers that the flow counts, in an order of its own. None ever falls.
    ghost numbers: { Self → List ℕ };

    /// What a turn with this result did, and which events a gate with these answers allowed or refused.
    ghost turned: { (Who → Event → Bool → Type 0) → Self → Result Progress ForwardError → Self → Type 0 } = { λ _ _ _ _. ⊤ };

    /// Makes one turn. After a refusal the flow is as the completed calls left it, and the turn can be repeated.
    fn turn<R: Wait, G: Gate>(&mut self, rt: &R, gate: &G) -> Result<Progress, ForwardError>
        ensures key { key self.new ≡ key self.old }
        ensures none_falls { NoneFalls (numbers self.old) (numbers self.new) }
        ensures turned { turned (G.answers gate.now) self.old result self.new }
        ensures ended { IfOk result (λ p. p ≡ progress.Over → over self.new ≡ true) }
        ensures refused { IfErr result (λ e. Met G.answers gate.now e) };

    /// Whether nothing is left to do. A flow that is over needs no further turn.
    fn is_over(&self) -> bool
        ensures { result ≡ over self.now };
}
