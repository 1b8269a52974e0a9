//! The device's side of a queue pair: a controller of a receive ring, and one of a transmit ring.
//! Depends on `shared_ring`, `rx_ring`, `tx_ring`, `ring_model`, `ring_laws`, `buffer_pool`, `descriptor`, `counters`,
//! `limits` and `refusals`.
//! Guarantees that the stored frames grow by exactly the frames reported as `Stored`, and the wire by exactly the
//! frames sent.
//!
//! An [`RxController`] is offered incoming frames and stores each whole or not at all: it cuts the frame into segments,
//! fetches a descriptor and writes it back for each, and then stores the head once. A [`TxController`] sends whole
//! frames onto a [`Wire`], which keeps them in order, or into a caller's bytes. Only `turn` and `turn_into` allocate.
#![tactic(auto)]

mod arena;
mod control;
mod offer;
mod receiving;
mod sending;
mod sending_into;
mod storing;
mod tally;
mod transmitting;
mod wire;

pub use counters::Tally;
pub use limits::is_fill_size;
pub use offer::Offer;
pub use receiving::RxController;
pub use refusals::CtlError;
pub use sending_into::TurnInto;
pub use transmitting::{Turn, TxController};
pub use wire::{Frames, Wire};
