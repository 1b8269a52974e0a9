//! Tests of the crates below the rings: buffers, pools, descriptors, counters, wire scripts and captures.
//! Depends on these crates.
//! Guarantees what its example workers of a pool need: they return all buffers that they take.
//!
//! The tests are in a crate above those that they test, so that these are proved without tests.
//!
//! [`work`] is one worker: it refills a stash, uses the buffers and returns them. [`share_out`] runs four of them side
//! by side on one pool.
#![tactic(auto)]

mod sharing;
#[cfg(test)]
mod tests;
mod worker;

pub use sharing::{in_two, share_out};
pub use worker::{BATCH, Job, Manner, work};
