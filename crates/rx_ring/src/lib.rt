//! A receive ring of the 82599 that a driver and a controller share without a lock, each in its own thread.
//! Depends on `shared_ring`, `ring_model`, `ring_laws`, `buffer_pool`, `descriptor` and `limits`, and on `atomic_table`
//! in contracts.
//! Guarantees that for every interleaving the taken segments are a prefix of the stored ones, byte for byte, each once
//! and in order.
//!
//! A ring has a word for each descriptor, a head, a tail, a control word and a quiet word, and a slot for a buffer at
//! each place. Each call of an end makes one sequentially consistent load or store of one word, or none; only `renew`
//! makes three stores. A slot's buffer is exchanged only by the end to which a step gave the slot. No call locks or
//! waits: none takes a parameter that would let it.
//!
//! A ring begins disabled. The driver asks for enabling and disabling, and the controller answers. Once all buffers of
//! a disabled ring are reclaimed, it can be renewed and enabled again.
//!
//! Each end keeps a record of the words that it loaded and stored, in proofs only. Between any two steps the words, the
//! slots and both records agree with a ring of `ring_model` that some schedule reaches, and therefore with a lawful
//! one.
#![tactic(auto)]

mod controller;
mod direction;
mod driver;
mod events;
mod making;
mod ring;
mod steps;

pub use controller::RxControllerEnd;
pub use direction::RxRule;
pub use driver::{Poll, RxDriverEnd};
pub use events::{RxControllerEvent, RxControllerOwn, RxDriverEvent, RxDriverOwn};
pub use making::{close, meet_rx};
pub use ring::RxRing;
pub use shared_ring::{
    Control, ControllerEnd, ControllerEvent, ControllerLoad, ControllerPlaces, DriverEnd,
    DriverEvent, DriverPlaces, HandshakeStep, RingError, SharedRing, View,
};
