//! An end of a ring, together with an owner of the ring.
ghost use Rattle.std.specs.Prelude.{◌≡◌};
ghost use Rattle.std.specs.Arc.{arc_value};

use crate::batches::Sender;
use controller::RxController;
use driver::{RxDriver, TxDriver};
use rx_ring::{RxControllerEnd, RxDriverEnd};
use shared_ring::SharedRing;
use std::alloc::Global;
use std::marker::Model;
use std::sync::Arc;
use tx_ring::{TxControllerEnd, TxDriverEnd};

/// Anything that belongs to one ring: an end, or a driver or controller that uses one.
pub trait OfRing {
    ghost use Rattle.atomic_table.specs.Seated.{TableId};

    /// The identity of the ring's table.
    ghost table: { Self → TableId };
}

impl OfRing for RxDriverEnd {
    ghost table = { λ d. d.table };
}

impl OfRing for RxControllerEnd {
    ghost table = { λ c. c.table };
}

impl OfRing for TxDriverEnd {
    ghost table = { λ d. d.table };
}

impl OfRing for TxControllerEnd {
    ghost table = { λ c. c.table };
}

impl OfRing for RxDriver {
    ghost table = { λ d. d.end.table };
}

impl OfRing for RxController {
    ghost table = { λ c. c.end.table };
}

impl OfRing for TxDriver {
    ghost table = { λ d. d.end.table };
}

impl OfRing for Sender {
    ghost table = { λ s. s.end.table };
}

/// A half of a ring: something that belongs to it, and an owner of it.
#[derive(Drop)]
pub struct Half<R: SharedRing, E: OfRing> {
    pub(crate) ring: Arc<R, Global>,
    pub(crate) end: E,
}

impl<R: SharedRing, E: OfRing> Model for Half<R, E> {
    ghost use Rattle.std.specs.Prelude.{◌≡◌};
    ghost use Rattle.std.specs.Arc.{arc_value};

    ghost Value = { E };

    ghost view = { λ h. h.end };

    ghost invariant = { λ h. E.table h.end ≡ R.table (arc_value h.ring) };
}

impl<R: SharedRing, E: OfRing> Half<R, E> {
    /// Joins something to the owner of its ring.
    pub(crate) fn of(ring: Arc<R, Global>, end: E) -> Half<R, E>
        requires { E.table end ≡ R.table (arc_value ring) }
        ensures { result ≡ end }
    {
        Half { ring, end }
    }

    /// Returns the owner of the ring, and what belongs to it.
    pub(crate) fn parts(self) -> (Arc<R, Global>, E)
        ensures ring { R.table (arc_value result.0) ≡ E.table self }
        ensures end { result.1 ≡ self }
    {
        (self.ring, self.end)
    }
}
