//! The command `schedules`: drawn lists of moves for testing a driver or an emulator of the controller, and their
//! expected outcomes.
//! Depends on `requests`, `schedules`, `commands`, `refusals`, `ring_machine` and `ring_model`.
//! Guarantees that a successful request prints exactly the requested lists, and that nothing is printed if the queues
//! cannot exist.
//!
//! [`perform`] draws the lists of a [`ScheduleRequest`] and prints each as soon as it is drawn. [`answer`] also
//! prints refusals and returns an exit status. `replay` of `commands` computes the expected outcome.
//! [`covering`] is `schedules --cover`.
#![tactic(auto)]

mod answering;
pub mod covering;
mod listing;

pub use answering::{answer, perform};
pub use requests::ScheduleRequest;
