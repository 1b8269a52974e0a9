//! Lists of moves for queues, drawn from a seed or covering what a queue can do: cases for testing a driver or an
//! emulator of the controller.
//! Depends on `ring_machine`, `ring_model`, `ring_laws`, `settings`, `limits`, `refusals`, `arrayvec`, `rand`,
//! `rand_core` and `rand_pcg`.
//! Guarantees that each list has the requested number of moves, states of each whether it happens, and keeps to the
//! allowed percentage of moves that do not.
//!
//! [`draw`] draws a list for a [`SchedulePlan`]. The weights of the moves change along the list, so that rings fill,
//! wrap, drain, and are disabled in the middle of frames and renewed. Each move is made at once on queues of the
//! machine, which decide whether it happens. With [`Thresholds`] in the plan, the moves are instead those of a poll-mode
//! driver, DPDK's ixgbe, and of its device. One seed yields the same list on every machine: numbers come from PCG
//! XSL RR 128/64 of `rand_pcg`.
//!
//! [`covering`] finds lists that together meet every reachable pair of a state and a move.
#![tactic(auto)]

mod chance;
pub mod covering;
mod drawing;
mod driver;
mod lane;
mod proposing;
mod receiving;
mod transmitting;
mod weights;

pub use drawing::{Drawn, draw};
pub use settings::{SchedulePlan, Thresholds};
