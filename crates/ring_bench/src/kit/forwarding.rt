//! The drivers of both layers: they send the packets of a receive queue on a transmit queue.
ghost use Rattle.std.specs.Prelude.{◌≡◌, ◌+◌, ◌<◌, ◌≤◌, length, IfOk, OnOk};
ghost use Rattle.ring_model.specs.shared.Frames.{frames};
ghost use Rattle.ring_model.specs.transmit.Ring.{carried};
ghost use Rattle.rx_ring.specs.Calls as receive;
ghost use Rattle.tx_ring.specs.Calls as transmit;
ghost use Rattle.tx_ring.specs.Ends.{posted};
ghost use Rattle.ring_bench.specs.Forwarding.{CanForward};

use crate::kit::supply::spare_for;
use anyhow::{Result, ensure};
use arrayvec::ArrayVec;
use buffer_pool::{Packet, STASH_BUFFERS, Stash, Stock};
use driver::{DriverError, MOST_BATCH, QueueDriver, RxDriver, TxDriver};
use limits::MOST_RING;
use rx_ring::{RxDriverEnd, RxRing};
use std::alloc::Global;
use tx_ring::{TxDriverEnd, TxRing};

/// One in 32 frames asks for a report, and so does the last frame of each batch.
const REPORT_EVERY: u16 = 32;

/// How many packets a call received and sent on.
#[derive(Clone, Copy)]
pub struct Moved {
    pub received: usize,
    pub sent: usize,
}

/// A driver of each direction, the empty buffers, and the packets that were received but not sent yet.
#[derive(Drop)]
pub struct Forwarder {
    pub rx: RxDriver,
    pub tx: TxDriver,
    pub stash: Stash,
    pub packets: ArrayVec<Packet, MOST_BATCH>,
}

impl Forwarder {
    /// Makes drivers of two fresh ends.
    pub fn new(rx: RxDriverEnd, tx: TxDriverEnd, batch: usize) -> Forwarder
        requires some { 0 < batch }
        requires few { batch ≤ MOST_BATCH }
        requires receives { receive.IsFreshDriver rx }
        requires sends { transmit.IsFreshDriver tx }
        ensures { CanForward rx.table tx.table result }
    {
        Forwarder {
            rx: RxDriver::new(rx, batch),
            tx: TxDriver::new(tx, REPORT_EVERY),
            stash: Stash::new(),
            packets: ArrayVec::new(),
        }
    }

    /// Asks for both queues to be enabled, unless it has asked already. Returns whether it saw both enabled.
    pub fn enable(&mut self, from: &RxRing, to: &TxRing) -> Result<bool, DriverError>
        requires can { CanForward from.now to.now self.old }
        ensures can { OnOk result (CanForward from.now to.now self.new) }
    {
        let receives = self.rx.enable(from)?;
        let sends = self.tx.enable(to)?;
        Ok(receives & sends)
    }

    /// Checks that both queues are enabled, after the request and its answer. Refuses if one is not.
    pub fn see_enabled(&mut self, from: &RxRing, to: &TxRing) -> Result<()>
        requires can { CanForward from.now to.now self.old }
        ensures can { OnOk result (CanForward from.now to.now self.new) }
    {
        ensure!(self.enable(from, to)?, "the queues are not enabled");
        Ok(())
    }

    /// Fills the receive ring, of `ring` descriptors, and the stash with buffers of a new stock.
    pub fn supply(&mut self, alloc: Global, from: &RxRing, to: &TxRing, ring: u32) -> Result<()>
        requires can { CanForward from.now to.now self.old }
        ensures can { OnOk result (CanForward from.now to.now self.new) }
    {
        let mut stock = spare_for(alloc, ring)?;
        Ok(self.fill(from, to, &mut stock)?)
    }

    /// Posts buffers of the stock at each place of the receive ring, and fills the stash, as far as the stock reaches.
    fn fill(&mut self, from: &RxRing, to: &TxRing, stock: &mut Stock) -> Result<(), DriverError>
        requires can { CanForward from.now to.now self.old }
        ensures can { OnOk result (CanForward from.now to.now self.new) }
    {
        for _ in 0..MOST_RING / STASH_BUFFERS + 1 {
            top_up(&mut self.stash, stock);
            self.forward(from, to)?;
        }
        top_up(&mut self.stash, stock);
        Ok(())
    }

    /// Receives a batch of packets, and sends on the packets that are waiting.
    #[inline]
    pub fn forward(&mut self, from: &RxRing, to: &TxRing) -> Result<Moved, DriverError>
        requires can { CanForward from.now to.now self.old }
        ensures can { OnOk result (CanForward from.now to.now self.new) }
        ensures sent { IfOk result (λ m. length (frames carried (posted self.new.tx.end)) ≡ length (frames carried (posted self.old.tx.end)) + m.sent) }
    {
        let received = self.rx.rx_batch(from, &mut self.stash, &mut self.packets)?;
        let sent = self.tx.tx_batch(to, &mut self.stash, &mut self.packets)?;
        Ok(Moved { received, sent })
    }

    /// Returns the drivers' ends.
    pub fn into_ends(self) -> (RxDriverEnd, TxDriverEnd)
        ensures rx { result.0 ≡ self.rx.end }
        ensures tx { result.1 ≡ self.tx.end }
    {
        let (rx, _chain) = self.rx.into_end();
        (rx, self.tx.into_end())
    }
}

/// Fills the stash with buffers of the stock, as far as it reaches.
fn top_up(stash: &mut Stash, stock: &mut Stock) {
    for _ in stash.len()..STASH_BUFFERS {
        let Some(buf) = stock.take() else {
            return;
        };
        let _ = stash.put(buf);
    }
}
