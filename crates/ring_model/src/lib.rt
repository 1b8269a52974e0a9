//! Receive and transmit queues of the 82599 as plain data: segments and frames, rings, their atomic steps, and what
//! every schedule of steps preserves.
//! Depends on `limits`.
//! Guarantees laws that hold for every ring that a schedule reaches; they are contracts of functions that do nothing.
//!
//! The pure machines and the running rings use the same definitions, which are in `specs/`: `shared` for both
//! directions, `receive` and `transmit` for one, `Worlds` for queues side by side, `NoteTexts` for the texts of notes,
//! `kept` for the invariants of steps, and `rows` for the worked rows. `ring_laws` has the laws that proofs of other
//! crates use step by step. Only the place of an item wraps, and nothing here knows of threads.
#![tactic(auto)]

mod frame_laws;
mod handshake;
mod laws;
mod note_text;
mod notes;
mod places;
mod rows;
mod states;
mod steps;

pub use frame_laws::{chains_are_lawful, frames_are_rejoined};
pub use handshake::Handshake;
pub use laws::{
    control_words_fit, counts_are_ordered, epochs_are_fixed, queues_stand_apart,
    rings_are_concluded, rings_are_lawful,
};
pub use notes::{FetchedSegment, Note, TakenSegment};
pub use places::{place_after, places_between};
pub use rows::worked_rows;
pub use states::{Completion, ControllerState, DriverState, Owner};
pub use steps::{ControlStep, RxStep, TxStep};
