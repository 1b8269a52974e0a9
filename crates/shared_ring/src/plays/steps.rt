//! The steps of both directions, each with the event that it adds to its end's record.

use crate::direction::{Direction, OwnStep};
use crate::events::{ControllerEvent, DriverEvent};
use std::marker::PhantomData;

/// A1, B1: stores a descriptor and gives its slot to the ring.
pub struct PostStore;

impl<D> OwnStep<DriverEvent<D>> for PostStore {
    ghost use Rattle.shared_ring.specs.declared.events.DriverEvent.TheVariants.{Posted};

    ghost event = { λ n es place r b. Posted place r b };
}

/// A2, B2: stores the tail (RDT, TDT).
pub struct PublishStore;

impl<D> OwnStep<DriverEvent<D>> for PublishStore {
    ghost use Rattle.shared_ring.specs.declared.events.DriverEvent.TheVariants.{Published};

    ghost event = { λ n es i r b. Published r };
}

/// A3, B3: loads the tail (RDT, TDT).
pub struct TailLoad<D, R>(PhantomData<(D, R)>);

impl<D, C, R: Direction<D, C>> OwnStep<ControllerEvent<C>> for TailLoad<D, R> {
    ghost use Rattle.shared_ring.specs.declared.events.ControllerEvent.TheVariants.{Looked};
    ghost use Rattle.shared_ring.specs.Plays.{IsTail};

    ghost event = { λ n es i r b. Looked r };

    ghost tells = { IsTail R.form };
}

/// A4, B4: loads the next descriptor and takes its buffer.
pub struct NextLoad<D, R>(PhantomData<(D, R)>);

impl<D, C, R: Direction<D, C>> OwnStep<ControllerEvent<C>> for NextLoad<D, R> {
    ghost use Rattle.shared_ring.specs.declared.events.ControllerEvent.TheVariants.{Fetched};
    ghost use Rattle.shared_ring.specs.Plays.{IsNext};

    ghost event = { λ n es place r b. Fetched place r b };

    ghost tells = { IsNext R.form };
}

/// Loads the head (RDH, TDH) for the driver.
pub struct HeadLoad;

impl<D> OwnStep<DriverEvent<D>> for HeadLoad {
    ghost use Rattle.shared_ring.specs.declared.events.DriverEvent.TheVariants.{LoadedHead};
    ghost use Rattle.shared_ring.specs.Plays.{IsPlace};

    ghost event = { λ n es i r b. LoadedHead r };

    ghost tells = { IsPlace };
}

/// C1 and C5: stores the driver's request as the control word (RXDCTL, TXDCTL), 1 for enabling or 3 for disabling.
pub struct AskStore;

/// C2: loads the control word for the driver's request.
pub struct RequestLoad;

/// C3: stores the controller's answer as the control word, 2 for enabled or 0 for disabled.
pub struct AnswerStore;

/// C4: loads the control word for the controller's answer.
pub struct ControlLoad;

impl<D> OwnStep<DriverEvent<D>> for ControlLoad {
    ghost use Rattle.shared_ring.specs.declared.events.DriverEvent.TheVariants.{LoadedControl};
    ghost use Rattle.shared_ring.specs.Plays.{IsControl};

    ghost event = { λ n es i r b. LoadedControl r };

    ghost tells = { IsControl };
}

impl<C> OwnStep<ControllerEvent<C>> for RequestLoad {
    ghost use Rattle.shared_ring.specs.declared.events.ControllerEvent.TheVariants.{LoadedRequest};
    ghost use Rattle.shared_ring.specs.Plays.{IsControl};

    ghost event = { λ n es i r b. LoadedRequest r };

    ghost tells = { IsControl };
}

impl<D> OwnStep<DriverEvent<D>> for AskStore {
    ghost use Rattle.shared_ring.specs.Plays.{asks};

    ghost event = { λ n es i r b. asks r };
}

impl<C> OwnStep<ControllerEvent<C>> for AnswerStore {
    ghost use Rattle.shared_ring.specs.Plays.{answers};

    ghost event = { λ n es i r b. answers r };
}

/// C9: stores 0 as the head (RDH, TDH) of a disabled queue.
pub struct ClearHeadStore;

impl<D> OwnStep<DriverEvent<D>> for ClearHeadStore {
    ghost use Rattle.shared_ring.specs.declared.events.DriverEvent.TheVariants.{ClearedHead};

    ghost event = { λ n es i r b. ClearedHead };
}

/// C10: stores 0 as the tail (RDT, TDT) of a disabled queue.
pub struct ClearTailStore;

impl<D> OwnStep<DriverEvent<D>> for ClearTailStore {
    ghost use Rattle.shared_ring.specs.declared.events.DriverEvent.TheVariants.{ClearedTail};

    ghost event = { λ n es i r b. ClearedTail };
}
