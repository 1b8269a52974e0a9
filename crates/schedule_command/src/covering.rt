//! The command `schedules --cover`: lists of moves that meet every reachable pair of a queue of 8, for testing a
//! driver or an emulator of the controller, and their expected outcomes. Each printed list meets the pair that its
//! comment names.
//!
//! [`perform`] searches the states of a receive queue and then of a transmit queue, and prints the lists for a
//! [`CoverRequest`]. [`answer`] also prints refusals and returns an exit status. `replay` of `commands` computes the
//! expected outcome.

mod answering;
mod listing;
mod searching;

pub use answering::{answer, perform};
pub use requests::CoverRequest;
