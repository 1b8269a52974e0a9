//! The plays by which an end makes a step: one kind for each treatment of a slot, generic in the end and in the step's
//! event. These types exist for proofs only.

mod steps;

use crate::direction::{Direction, OwnStep, OwnTake};
use crate::events::{ControllerEvent, DriverEvent, View};
use atomic_table::Play;
use buffer_pool::Buf;
use std::marker::PhantomData;
pub use steps::{
    AnswerStore, AskStore, ClearHeadStore, ClearTailStore, ControlLoad, HeadLoad, NextLoad,
    PostStore, PublishStore, RequestLoad, TailLoad,
};

/// The events of one end of a ring; `whose` names the end.
pub trait EndEvent<D, C, R: Direction<D, C>> {
    ghost use Rattle.shared_ring.specs.declared.events.DriverEvent.{DriverEvent};
    ghost use Rattle.shared_ring.specs.declared.events.ControllerEvent.{ControllerEvent};
    ghost use Rattle.shared_ring.specs.declared.events.View.{View};
    ghost use Rattle.shared_ring.specs.Plays.{End};

    ghost whose: { End (View (DriverEvent D) (ControllerEvent C)) Self };
}

impl<D, C, R: Direction<D, C>> EndEvent<D, C, R> for DriverEvent<D> {
    ghost use Rattle.shared_ring.specs.Plays.{driver_end};

    ghost whose = { driver_end R.form };
}

impl<D, C, R: Direction<D, C>> EndEvent<D, C, R> for ControllerEvent<C> {
    ghost use Rattle.shared_ring.specs.Plays.{controller_end};

    ghost whose = { controller_end R.form };
}

/// A play by which an end loads a word. It adds exactly one event to the end's record, which names the load, so no load
/// is missing from the record.
pub trait EndLoad<E: EndEvent<D, C, R>, D, C, R: Direction<D, C>>: Play<
    Buf,
    View<DriverEvent<D>, ControllerEvent<C>>,
> {
    ghost use Rattle.std.specs.Prelude.{ℕ};
    ghost use Rattle.atomic_table.specs.Table.{Step};
    ghost use Rattle.buffer_pool.specs.Buffer.{Buffer};
    ghost use Rattle.shared_ring.specs.declared.events.DriverEvent.{DriverEvent};
    ghost use Rattle.shared_ring.specs.declared.events.ControllerEvent.{ControllerEvent};
    ghost use Rattle.shared_ring.specs.Accesses.{Load};
    ghost use Rattle.shared_ring.specs.Plays.{Seated, Counts};

    ghost counts: { (st : Step Buffer) (m : Seated (DriverEvent D) (ControllerEvent C)) (r : ℕ) (m' : Seated (DriverEvent D) (ControllerEvent C)) → Self.then st m r m' → Counts E.whose Load st m r m' };
}

/// A play by which an end stores a word. It adds exactly one event to the end's record, which names the store, so no
/// store is missing from the record.
pub trait EndStore<E: EndEvent<D, C, R>, D, C, R: Direction<D, C>>: Play<
    Buf,
    View<DriverEvent<D>, ControllerEvent<C>>,
> {
    ghost use Rattle.std.specs.Prelude.{ℕ};
    ghost use Rattle.atomic_table.specs.Table.{Step};
    ghost use Rattle.buffer_pool.specs.Buffer.{Buffer};
    ghost use Rattle.shared_ring.specs.declared.events.DriverEvent.{DriverEvent};
    ghost use Rattle.shared_ring.specs.declared.events.ControllerEvent.{ControllerEvent};
    ghost use Rattle.shared_ring.specs.Accesses.{Store};
    ghost use Rattle.shared_ring.specs.Plays.{Seated, Counts};

    ghost counts: { (st : Step Buffer) (m : Seated (DriverEvent D) (ControllerEvent C)) (r : ℕ) (m' : Seated (DriverEvent D) (ControllerEvent C)) → Self.then st m r m' → Counts E.whose Store st m r m' };
}

/// A store.
pub struct Stores<P, E, R>(PhantomData<(P, E, R)>);

impl<D, C, R: Direction<D, C>, E: EndEvent<D, C, R>, P: OwnStep<E>> Play<
    Buf,
    View<DriverEvent<D>, ControllerEvent<C>>,
> for Stores<P, E, R> {
    ghost use Rattle.shared_ring.specs.Plays.{stores};

    ghost then = { stores E.whose P.event };
}

impl<D, C, R: Direction<D, C>, E: EndEvent<D, C, R>, P: OwnStep<E>> EndStore<E, D, C, R>
    for Stores<P, E, R> {
    ghost use Rattle.shared_ring.specs.Counting.{counts};

    ghost counts = { λ st m r m' t. counts t };
}

/// A load.
pub struct Loads<P, E, R>(PhantomData<(P, E, R)>);

impl<D, C, R: Direction<D, C>, E: EndEvent<D, C, R>, P: OwnStep<E>> Play<
    Buf,
    View<DriverEvent<D>, ControllerEvent<C>>,
> for Loads<P, E, R> {
    ghost use Rattle.shared_ring.specs.Plays.{Loads};

    ghost then = { Loads E.whose P.event P.tells };
}

impl<D, C, R: Direction<D, C>, E: EndEvent<D, C, R>, P: OwnStep<E>> EndLoad<E, D, C, R>
    for Loads<P, E, R> {
    ghost use Rattle.shared_ring.specs.Counting.{counts};

    ghost counts = { λ st m r m' t. counts t.adds };
}

/// A load by which the seat takes the slot of its place.
pub struct Takes<P, E, R>(PhantomData<(P, E, R)>);

impl<D, C, R: Direction<D, C>, E: EndEvent<D, C, R>, P: OwnStep<E>> Play<
    Buf,
    View<DriverEvent<D>, ControllerEvent<C>>,
> for Takes<P, E, R> {
    ghost use Rattle.shared_ring.specs.Accesses.{Load};
    ghost use Rattle.shared_ring.specs.Plays.{Takes};

    ghost then = { Takes E.whose P.event P.tells Load };
}

impl<D, C, R: Direction<D, C>, E: EndEvent<D, C, R>, P: OwnStep<E>> EndLoad<E, D, C, R>
    for Takes<P, E, R> {
    ghost use Rattle.shared_ring.specs.Counting.{counts};

    ghost counts = { λ st m r m' t. counts t.adds };
}

/// A store by which the seat takes the slot of its place.
pub struct Clears<P, E, R>(PhantomData<(P, E, R)>);

impl<D, C, R: Direction<D, C>, E: EndEvent<D, C, R>, P: OwnStep<E>> Play<
    Buf,
    View<DriverEvent<D>, ControllerEvent<C>>,
> for Clears<P, E, R> {
    ghost use Rattle.shared_ring.specs.Accesses.{Store};
    ghost use Rattle.shared_ring.specs.Plays.{Takes};

    ghost then = { Takes E.whose P.event P.tells Store };
}

impl<D, C, R: Direction<D, C>, E: EndEvent<D, C, R>, P: OwnStep<E>> EndStore<E, D, C, R>
    for Clears<P, E, R> {
    ghost use Rattle.shared_ring.specs.Counting.{counts};

    ghost counts = { λ st m r m' t. counts t.adds };
}

/// A load by which the seat takes the slot of its place if the word is done.
pub struct Finds<P, E, R>(PhantomData<(P, E, R)>);

impl<D, C, R: Direction<D, C>, E: EndEvent<D, C, R>, P: OwnTake<E>> Play<
    Buf,
    View<DriverEvent<D>, ControllerEvent<C>>,
> for Finds<P, E, R> {
    ghost use Rattle.shared_ring.specs.Plays.{Finds};

    ghost then = { Finds E.whose P.event P.tells P.missed P.done };
}

impl<D, C, R: Direction<D, C>, E: EndEvent<D, C, R>, P: OwnTake<E>> EndLoad<E, D, C, R>
    for Finds<P, E, R> {
    ghost use Rattle.shared_ring.specs.Counting.{finding_counts};

    ghost counts = { λ st m r m' t. finding_counts t };
}

/// A store by which the seat gives back the slot that it took last.
pub struct Gives<P, E, R>(PhantomData<(P, E, R)>);

impl<D, C, R: Direction<D, C>, E: EndEvent<D, C, R>, P: OwnStep<E>> Play<
    Buf,
    View<DriverEvent<D>, ControllerEvent<C>>,
> for Gives<P, E, R> {
    ghost use Rattle.shared_ring.specs.Plays.{gives};

    ghost then = { gives E.whose P.event };
}

impl<D, C, R: Direction<D, C>, E: EndEvent<D, C, R>, P: OwnStep<E>> EndStore<E, D, C, R>
    for Gives<P, E, R> {
    ghost use Rattle.shared_ring.specs.Counting.{counts};

    ghost counts = { λ st m r m' t. counts t };
}
