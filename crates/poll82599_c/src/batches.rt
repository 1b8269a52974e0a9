//! Queues in batches: a worker's empty buffers and up to 32 packets, which a receive queue's driver fills a batch at a
//! time, a pool of buffers for workers, and the driver and the device of a receive or transmit queue.

mod found;
mod packets;
mod pool;
mod queue;
mod ranges;
mod rx_device;
mod tx_device;

pub(crate) use found::Found;
pub(crate) use packets::{Packets, fresh_packets};
pub(crate) use pool::{Pool, fresh_pool};
pub(crate) use queue::{BatchQueue, RxQueue, TxQueue};
pub(crate) use rx_device::RxDevice;
pub(crate) use tx_device::{Sender, TxDevice};
