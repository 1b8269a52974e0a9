//! The account of the buffers that a worker takes from a pool for two drivers.
//! Depends on `pool`, `driver`, `buffer_pool`, the ring crates, `limits` and `arrayvec`.
//! Guarantees that the buffers that a worker's pass holds are always those in its places, and that all of them return
//! to the pool.
//!
//! The places of a worker are its stash, its receive ring, the chain of an unfinished frame, the packets that wait, and
//! its transmit ring. The laws state that each call of a driver only moves buffers between them. Once both queues are
//! disabled, [`give_disabled`] and [`give_packets`] return all buffers to the pool.
#![tactic(auto)]

mod laws;
mod lent;
mod returning;

pub use laws::{batches_move_buffers, reclaiming_moves_buffers, refills_are_held};
pub use lent::LentDriver;
pub use returning::{give_disabled, give_packets};
