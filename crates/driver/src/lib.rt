//! A poll-mode driver over the rings' driver ends, in batches, in the manner of ixy's ixgbe driver.
//! Depends on `shared_ring`, `rx_ring`, `tx_ring`, `ring_model`, `ring_laws`, `buffer_pool`, `limits`, `refusals` and
//! `arrayvec`.
//! Guarantees which steps each call makes and how it extends the lists of its end.
//!
//! An [`RxDriver`] owns the driver's end of a receive ring. It takes completed packets, posts empty buffers of a stash
//! in their place, and keeps the chain of an unfinished frame. A [`TxDriver`] owns the driver's end of a transmit ring.
//! It posts packets and moves the buffers that are reported as sent into a stash. Both are [`QueueDriver`]s: they
//! enable, disable, reclaim and renew their queue.
//!
//! No call allocates, waits, or starts a thread.
#![tactic(auto)]

mod handshake;
mod queue_driver;
mod reclaiming;
mod rx_driver;
mod tx_driver;

pub use limits::{MOST_BATCH, MOST_RS_EVERY};
pub use queue_driver::QueueDriver;
pub use refusals::DriverError;
pub use rx_driver::RxDriver;
pub use tx_driver::TxDriver;
