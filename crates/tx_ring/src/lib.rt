//! A transmit ring of the 82599 that a driver and a controller share without a lock, each in its own thread.
//! Depends on `shared_ring`, `ring_model`, `ring_laws`, `buffer_pool`, `descriptor` and `limits`, and on `atomic_table`
//! in contracts.
//! Guarantees that for every interleaving the sent segments are a prefix of the posted ones, byte for byte, each once
//! and in order.
//!
//! A ring has a word for each descriptor, a head, a tail and a control word, and a slot for a buffer at each place.
//! Each call of an end makes one sequentially consistent load or store of one word, or none; only `renew` makes two or
//! three stores. A slot's buffer is exchanged only by the end to which a step gave the slot. No call locks or waits:
//! none takes a parameter that would let it.
//!
//! The controller reports sent segments either by DD in the descriptor that asked for a report, or by its head in a
//! separate word (`Completion`). `poll_report`, `report` and `clean` guarantee the same for both.
//!
//! A ring begins disabled. The driver asks for enabling and disabling, and the controller answers. Once all buffers of
//! a disabled ring are reclaimed, it can be renewed and enabled again.
//!
//! Each end keeps a record of the words that it loaded and stored, in proofs only. Between any two steps the words, the
//! slots and both records agree with a ring of `ring_model` that some schedule reaches, and therefore with a lawful
//! one.
#![tactic(auto)]

mod controller;
mod direction;
mod driver;
mod events;
mod making;
mod ring;
mod steps;

pub use controller::TxControllerEnd;
pub use direction::TxRule;
pub use driver::TxDriverEnd;
pub use events::{TxControllerEvent, TxControllerOwn, TxDriverEvent, TxDriverOwn};
pub use making::{close, meet_tx};
pub use ring::TxRing;
pub use ring_model::Completion;
pub use shared_ring::{
    Control, ControllerEnd, ControllerEvent, ControllerLoad, ControllerPlaces, DriverEnd,
    DriverEvent, DriverPlaces, HandshakeStep, RingError, SharedRing, Sink, View,
};
