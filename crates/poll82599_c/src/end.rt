//! The object behind a handle.

use crate::batches::{Packets, Pool, RxDevice, RxQueue, TxDevice, TxQueue};
use crate::rings::{RxDriving, RxServing, TxDriving, TxServing};
use counters::{RegisterReader, RegisterWriter};

/// One end of a ring, step by step or in batches, a worker's packets, a pool of buffers, or a side of counters.
#[derive(Drop)]
pub enum End {
    /// A receive ring's driver.
    RxDriver(RxDriving),
    /// A receive ring's controller.
    RxController(RxServing),
    /// A transmit ring's driver.
    TxDriver(TxDriving),
    /// A transmit ring's controller.
    TxController(TxServing),
    /// A receive queue's driver.
    RxQueue(RxQueue),
    /// A receive queue's device.
    RxDevice(RxDevice),
    /// A transmit queue's driver.
    TxQueue(TxQueue),
    /// A transmit queue's device.
    TxDevice(TxDevice),
    /// A worker's packets.
    Packets(Packets),
    /// A pool of empty buffers.
    Pool(Pool),
    /// Counters that this thread may write.
    Counters(RegisterWriter),
    /// Counters that another thread may write.
    CounterReader(RegisterReader),
}
