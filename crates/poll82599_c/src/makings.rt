//! Making the objects behind handles: a ring's two halves, its ends or a queue's driver and device, a stash of new
//! buffers, boxed objects and their handles, and the reasons for a refusal.

mod ends;
mod halves;
mod handing;
mod owners;
mod queues;
mod stash;
mod unmade;

pub(crate) use ends::{rx_ends, tx_ends};
pub(crate) use halves::{completion_of, rx_halves, tx_halves};
pub(crate) use handing::{put_both, put_one};
pub(crate) use owners::{both_boxed, boxed, lying, sole, unclosed};
pub(crate) use queues::{rx_queue, tx_queue};
pub(crate) use stash::stash_of;
pub(crate) use unmade::Unmade;
