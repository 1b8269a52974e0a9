//! The ring itself.
ghost use Rattle.atomic_table.specs.Seated.{TableId};

use crate::direction::TxShared;
use shared_ring::SharedRing;
use std::marker::Model;

/// A transmit ring, made together with its two ends. Each call on an end takes the ring that the end was made with.
/// Contracts see it as the identity of its table, whose `slots` are the ring's length.
#[derive(Drop)]
pub struct TxRing(pub(crate) TxShared);

impl Model for TxRing {
    ghost Value = { TableId };

    ghost view = { λ r. r.0 };
}

impl SharedRing for TxRing {
    ghost table = { λ r. r };
}
