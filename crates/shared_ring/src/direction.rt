//! The parts of a ring that depend on its direction.

/// A direction: the forms of its steps, and how words, slots and records agree with its ring. `D` and `C` are the own
/// steps of its driver and controller. A ring can be made only if the direction's agreement allows the shared steps.
pub trait Direction<D, C> {
    ghost use Rattle.shared_ring.specs.Forms.{Form};

    ghost Ring: { Type 0 };

    ghost Posted: { Type 0 };

    ghost Completed: { Type 0 };

    ghost Reaped: { Type 0 };

    ghost form: { Form Ring Posted Completed Reaped D C };
}

/// A step that only one direction has: the event that it adds to its end's record, and the facts that it establishes
/// besides. `E` is the type of the end's events.
pub trait OwnStep<E> {
    ghost use Rattle.shared_ring.specs.Own.{Event, Tells};

    ghost event: { Event E };

    ghost tells: { Tells E } = { λ n es place r b. Unit {0} };
}

/// A load that takes a buffer back if the word is done.
pub trait OwnTake<E>: OwnStep<E> {
    ghost use Rattle.std.specs.Prelude.{◌≡◌, ℕ, Bool};

    ghost missed: { ℕ → ℕ → E };

    ghost done: { ℕ → Bool };

    fn is_done(word: u64) -> bool
        ensures { result ≡ done word };
}
