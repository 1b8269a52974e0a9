//! How the records of two ends are split and joined, and the two loads that belong to neither end: at the making of a
//! ring, and at the meeting of its ends. These types exist for proofs only.

use crate::direction::Direction;
use crate::events::{ControllerEvent, DriverEvent, View};
use atomic_table::{Join, Play, Split};
use buffer_pool::Buf;
use std::marker::PhantomData;

/// The seat keeps the driver's record, and the new seat gets the controller's.
pub struct Halve;

impl<D, C> Split<View<D, C>> for Halve {
    ghost use Rattle.shared_ring.specs.Seats.{driver_half, controller_half};

    ghost left = { driver_half };

    ghost right = { controller_half };
}

/// The new seat gets the record, and the seat keeps its slots.
pub struct Lend;

impl<D, C> Split<View<D, C>> for Lend {
    ghost use Rattle.shared_ring.specs.declared.events.View.TheVariants.{Nobody};

    ghost left = { λ _. Nobody };

    ghost right = { λ v. v };
}

/// The driver's seat gets the controller's record too.
pub struct Unite;

impl<D, C> Join<View<D, C>> for Unite {
    ghost use Rattle.shared_ring.specs.declared.events.View.TheVariants.{Nobody};
    ghost use Rattle.shared_ring.specs.Seats.{both_halves};

    ghost both = { both_halves };

    ghost spent = { Nobody };
}

/// The seat that lent its record gets it back.
pub struct Return;

impl<D, C> Join<View<D, C>> for Return {
    ghost use Rattle.shared_ring.specs.declared.events.View.TheVariants.{Nobody};

    ghost both = { λ v w. w };

    ghost spent = { Nobody };
}

/// The load by which the first seat takes all slots, at the making of the ring.
pub struct Deal;

impl<D, C> Play<Buf, View<D, C>> for Deal {
    ghost use Rattle.shared_ring.specs.Plays.{Deals};

    ghost then = { Deals };
}

/// The load of the ends that meet.
pub struct MeetLoad<R>(PhantomData<R>);

impl<D, C, R: Direction<D, C>> Play<Buf, View<DriverEvent<D>, ControllerEvent<C>>> for MeetLoad<R> {
    ghost use Rattle.shared_ring.specs.Plays.{Meets};

    ghost then = { Meets R.form };
}
