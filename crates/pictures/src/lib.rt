//! Pictures of a queue's machine, as lines of text like those in `docs/MODEL.md` and as JSON objects: a line or an
//! object for each place, with its owner.
//! Depends on `ring_machine`, `ring_model` and `limits`.
//! Guarantees the exact text.
//!
//! [`NoteMembers`] prints a step's note as members of such an object.
#![tactic(auto)]

mod columns;
mod fields;
mod following;
mod members;
mod picture;
mod queues;
mod states;

pub use following::{write_opening, write_state};
pub use members::NoteMembers;
pub use picture::write_picture;
pub use queues::write_queue;
