//! Receive and transmit queues of the 82599 as pure machines, with words and slots by place, and places that wrap.
//! Depends on `ring_model`, whose types it re-exports, `ring_laws`, `limits`, `refusals`, `arrayvec` and `text_lines`.
//! Guarantees that a machine that agrees with a ring of `ring_model` agrees, after any schedule, with the ring after
//! that schedule, and so do queues side by side with their world.
//!
//! One core of places, words and slots serves both directions. Each move has one line of text, which is printed and
//! read. [`Queues::obstacle`] says why a move is not enabled.
#![tactic(auto)]

mod counting;
mod machine;
mod moves;
mod obstacle;
mod queues;
mod registers;
mod state_words;

pub use limits::is_ring_length;
pub use machine::{QueueMachine, RxMachine, TxMachine};
pub use moves::arguments::{SegmentDescriptor, SegmentLength};
pub use moves::{Move, MoveName, QueueNumber};
pub use obstacle::Obstacle;
pub use queues::Queues;
pub use refusals::MachineError;
pub use registers::{QUEUE_STRIDE, QueueKind, RDH, RDT, RXDCTL, Registers, TDH, TDT, TXDCTL};
pub use ring_model::{
    Completion, ControlStep, ControllerState, DriverState, FetchedSegment, Note, Owner, RxStep,
    TakenSegment, TxStep,
};
pub use state_words::{controller_word, driver_word};
