//! Step-by-step laws of `ring_model` for the proofs of machines and running rings: states, places, lists, frames,
//! queues, schedules and rings.
//! Depends on `ring_model` and `limits`.
//! Guarantees each law as a clause of a public function that does nothing.
//!
//! The laws about whole rings are in `ring_model`. A file of `specs/` re-exports each clause's lemma under its name, so
//! that a proof can cite it: a crate's `specs/` may not name its own `proofs/`, and a clause cannot be cited where
//! nothing is called. This is why these laws are in a crate of their own.
#![tactic(auto)]

mod frames;
mod lists;
mod places;
mod queues;
mod rings;
mod schedules;
mod states;

pub use frames::{frames_grow, postings_go_on, what_follows_goes_on};
pub use lists::beginnings_agree;
pub use places::{items_are_written, items_lie_apart};
pub use queues::kept_queues_tell;
pub use rings::{rx_rings_are_kept, tx_rings_are_kept};
pub use schedules::schedules_go_on;
pub use states::states_tell;
