//! The steps on a ring's table. Each function makes one kind of step, which adds its event to its end's record.
ghost use Rattle.std.specs.Prelude.{◌≡◌};
ghost use Rattle.limits.specs.RingLength.{IsRingLength};
ghost use Rattle.shared_ring.specs.Directions.{IsDirection};

mod closing;
mod controller;
mod driver;
mod gathering;
mod in_place;
mod own;

use crate::direction::Direction;
use crate::events::{ControllerEvent, DriverEvent, View};
use crate::plays::EndEvent;
use atomic_table::{Seat, Table, TableRule};
use buffer_pool::Buf;
pub use in_place::Sink;
use ring_model::Completion;
use std::alloc::Global;
use std::marker::{Model, PhantomData};

/// The ring's length, and how it reports.
type Key = (usize, Completion);

pub(crate) type RingTable<D, C, R> = Table<
    Buf,
    View<DriverEvent<D>, ControllerEvent<C>>,
    Key,
    Rule<R>,
    Global,
>;

pub(crate) type RingSeat<D, C> = Seat<Buf, View<DriverEvent<D>, ControllerEvent<C>>>;

/// The rule of a direction's table: between any two steps, the words, the slots and both records agree with one ring
/// that a schedule reaches.
pub struct Rule<R>(PhantomData<R>);

impl<D, C, R: Direction<D, C>> TableRule<Buf, View<DriverEvent<D>, ControllerEvent<C>>, Key>
    for Rule<R> {
    ghost use Rattle.shared_ring.specs.declared.events.View.TheVariants.{Maker};
    ghost use Rattle.shared_ring.specs.Keeping.{IsRuled};

    ghost holds = { λ key. IsRuled R.form key.0 key.1 };

    ghost first = { λ _. Maker };
}

/// A ring of one direction, made together with its two ends. Each call on an end takes the ring that the end was made
/// with. Contracts see it as the identity of its table, whose `slots` are the ring's length.
#[derive(Drop)]
pub struct Ring<D, C, R: Direction<D, C>> {
    table: Table<Buf, View<DriverEvent<D>, ControllerEvent<C>>, Key, Rule<R>, Global>,
    room: Vec<Option<Buf>>,
}

impl<D, C, R: Direction<D, C>> Model for Ring<D, C, R> {
    ghost use Rattle.atomic_table.specs.Seated.{TableId};
    ghost use Rattle.shared_ring.specs.Keeping.{IsRing};
    ghost use Rattle.std.specs.Prelude.{vec_capacity};

    ghost Value = { TableId };

    ghost view = { λ r. r.table.shared.table_id };

    ghost invariant = { λ r. IsRing R.form r.table.shared.table_id r.table.shared.key r.room.items (vec_capacity r.room) };
}

/// An end's seat at a ring's table. A driver's seat has the slots of the places that are not out, a controller's seat
/// the slot of the buffer that it fetched.
#[derive(Drop)]
pub struct EndSeat<E: EndEvent<D, C, R>, D, C, R: Direction<D, C>> {
    seat: Seat<Buf, View<DriverEvent<D>, ControllerEvent<C>>>,
    size: u16,
    completion: Completion,
    events: PhantomData<(E, R)>,
}

/// A driver's seat.
pub type DriverSeat<D, C, R> = EndSeat<DriverEvent<D>, D, C, R>;

/// A controller's seat.
pub type ControllerSeat<D, C, R> = EndSeat<ControllerEvent<C>, D, C, R>;

impl<E: EndEvent<D, C, R>, D, C, R: Direction<D, C>> Model for EndSeat<E, D, C, R> {
    ghost use Rattle.shared_ring.specs.Ends.{Side};
    ghost use Rattle.shared_ring.specs.Keeping.{IsSeat};

    ghost Value = { Side E };

    ghost view = { λ s. record { table = s.seat.table_id; completion = s.completion; events = E.whose.part s.seat.me.0 } };

    ghost invariant = { λ s. IsSeat R.form E.whose s.seat.table_id s.seat.me s.size s.completion };
}

impl<E: EndEvent<D, C, R>, D, C, R: Direction<D, C>> EndSeat<E, D, C, R> {
    /// Returns the ring's length.
    #[inline]
    pub fn size(&self) -> u16
        ensures value { result ≡ self.now.table.slots }
        ensures lawful { IsRingLength result }
        ensures law { IsDirection R.form }
    {
        self.size
    }

    /// Returns how the ring reports.
    #[inline]
    pub fn completion(&self) -> Completion
        ensures { result ≡ self.now.completion }
    {
        self.completion
    }
}
