//! Workers in threads of their own, which serve flows by turns.
//! Depends on `refusals`, `crossbeam_utils` and `atomic_table`; it knows neither rings nor buffers.
//! Guarantees that every started worker is joined, and that all flows come back.
//!
//! A [`Flow`] is one side of a flow as a worker serves it, turn by turn. A [`Gate`] is passed before each call that makes
//! steps, so that a caller can hold or end what runs.
//!
//! A worker has several flows of one side. It gives each of them a turn, round after round, until all are over or the
//! stop word is set, which it loads before each turn. A worker that meets a refusal sets the word, and the refusal of
//! the first one to do so is returned: exactly one setter of the word learns that it was the first. [`run_teams`] runs a
//! team for each side.
#![tactic(auto)]

mod dealing;
mod ending;
mod flow;
mod gate;
mod rule;
mod running;
mod serving;
mod status;
mod team;
mod word;

pub use dealing::{deal, empty_hands, gather};
pub use flow::{Flow, Progress};
pub use gate::{Event, Gate, Open, Who, admit};
pub use refusals::ForwardError;
pub use running::{Ran, run_teams};
pub use word::{StopPass, StopWord};
