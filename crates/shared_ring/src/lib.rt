//! The shared part of the receive and transmit rings: a driver and a controller on one descriptor ring of the 82599,
//! without a lock.
//! Depends on `atomic_table`, `buffer_pool`, `limits`, `refusals`, `ring_model` and `ring_laws`.
//! Guarantees that each step of an end makes its access to the ring's table and adds its event to the end's record; no
//! other code can name a table, a seat's fields or a slot.
//!
//! A ring's table has a word for each descriptor, then head, tail, control and quiet, and a slot for a buffer at each
//! place. This crate has the values of the control word, the refusals, the records of the two ends, the table with the
//! seats that carry them, the steps of both directions, and the making, meeting and closing of a ring. A ring of one
//! direction adds how its words, slots and records agree (`Direction`), and its own steps (`OwnStep`).
#![tactic(auto)]

mod accesses;
mod control;
mod direction;
mod ends;
mod events;
mod plays;
mod registers;
mod slots;
mod splitting;
mod steps;

pub use control::Control;
pub use direction::{Direction, OwnStep, OwnTake};
pub use ends::{
    ControllerEnd, ControllerLoad, ControllerPlaces, DriverEnd, DriverPlaces, HandshakeStep,
    SharedRing,
};
pub use events::{ControllerEvent, DriverEvent, View};
pub use plays::EndEvent;
pub use refusals::RingError;
pub use registers::{CONTROL, QUIET, REPORT, TAIL};
pub use steps::{ControllerSeat, DriverSeat, EndSeat, Ring, Rule, Sink};
