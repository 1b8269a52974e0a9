//! The ring itself.
ghost use Rattle.atomic_table.specs.Seated.{TableId};

use crate::direction::RxShared;
use shared_ring::SharedRing;
use std::marker::Model;

/// A receive ring, made together with its two ends. Each call on an end takes the ring that the end was made with.
/// Contracts see it as the identity of its table, whose `slots` are the ring's length.
#[derive(Drop)]
pub struct RxRing(pub(crate) RxShared);

impl Model for RxRing {
    ghost Value = { TableId };

    ghost view = { λ r. r.0 };
}

impl SharedRing for RxRing {
    ghost table = { λ r. r };
}
