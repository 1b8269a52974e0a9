//! The drivers of receive and transmit queues: their common calls, and those of each direction.
ghost use Rattle.std.specs.Prelude.{◌≡◌, true, false, IfOk, OnErr, OnOk};
ghost use Rattle.ring_model.specs.shared.Handshakes.{is_on, is_stopped};
ghost use Rattle.shared_ring.specs.Ends.{driver_state};
ghost use Rattle.poll82599_c.specs.batches.Packets.{MovedBuffers};
ghost use Rattle.poll82599_c.specs.batches.Queues.{AllCame, AskedDisable, FilledUp, directed, TriedDisable, TriedEnable, TriedEnabling, TriedFinish, TriedLeft, TriedReclaim, TriedRenewal};
ghost use Rattle.poll82599_c.specs.batches.Receiving.{FoundQuiet, receiver};
ghost use Rattle.poll82599_c.specs.batches.Receiving as rx;
ghost use Rattle.poll82599_c.specs.batches.Transmitting.{IsOutstanding, TriedCleaning, transmitter};
ghost use Rattle.poll82599_c.specs.batches.Transmitting as tx;

use crate::batches::found::Found;
use crate::batches::packets::Packets;
use crate::half::Half;
use driver::{DriverError, QueueDriver, RxDriver, TxDriver};
use rx_ring::RxRing;
use tx_ring::TxRing;

/// The driver of a receive queue in batches, which one thread owns.
pub(crate) type RxQueue = Half<RxRing, RxDriver>;

/// The driver of a transmit queue in batches, which one thread owns.
pub(crate) type TxQueue = Half<TxRing, TxDriver>;

/// The driver of a queue of either direction, with the ring that it shares. Each direction supplies the `try_` calls of
/// its own driver. The calls with result numbers follow from them.
pub trait BatchQueue: Sized {
    ghost use Rattle.poll82599_c.specs.batches.Queues.{Directed};

    /// The definitions of its direction.
    ghost way: { Directed Self };

    /// Whether a disabling was seen answered.
    fn is_stopped(&self) -> bool
        ensures { result ≡ is_stopped (driver_state (way.kind.end_of self.now)) };

    /// Takes the buffers of a disabled queue back into the stash, and returns how many. Refuses if the stash has no
    /// room for all; then as many as fit have come back.
    fn try_reclaim(&mut self, packets: &mut Packets) -> Result<usize, DriverError>
        requires stopped { is_stopped (driver_state (way.kind.end_of self.old)) ≡ true }
        ensures own { (way.kind.end_of self.new).table ≡ (way.kind.end_of self.old).table }
        ensures all { IfOk result (λ count. AllCame way.kind count self.old packets.old self.new packets.new) }
        ensures full { OnErr result (FilledUp way.kind self.old packets.old self.new packets.new) };

    /// Asks for an enabling if nothing was asked yet, and loads the control word. Returns whether the queue is on, and
    /// refuses if it was seen disabled.
    fn try_enable(&mut self) -> Result<bool, DriverError>
        ensures own { (way.kind.end_of self.new).table ≡ (way.kind.end_of self.old).table }
        ensures asked { IfOk result (λ on. TriedEnabling way.kind on self.old self.new) }
        ensures stopped { OnErr result ((is_stopped (driver_state (way.kind.end_of self.old)) ≡ true) × (self.new ≡ self.old)) };

    /// Asks for a disabling. Refuses if the queue is not on.
    fn try_disable(&mut self) -> Result<(), DriverError>
        ensures own { (way.kind.end_of self.new).table ≡ (way.kind.end_of self.old).table }
        ensures asked { OnOk result (AskedDisable way.kind self.old self.new) }
        ensures off { OnErr result ((is_on (driver_state (way.kind.end_of self.old)) ≡ false) × (self.new ≡ self.old)) };

    /// Loads the control word and, once the disabling is answered, the head. Returns how many segments are left.
    fn try_finish(&mut self) -> Option<u32>
        ensures own { (way.kind.end_of self.new).table ≡ (way.kind.end_of self.old).table }
        ensures step { TriedFinish way.kind result self.old self.new };

    /// Clears the registers of a disabled queue. Refuses if not all buffers came back.
    fn try_renew(&mut self) -> Result<(), DriverError>
        ensures own { (way.kind.end_of self.new).table ≡ (way.kind.end_of self.old).table }
        ensures renewed { OnOk result (way.kind.Renewed self.old self.new) }
        ensures left { OnErr result ((¬ way.kind.IsEmptied self.old) × (self.new ≡ self.old)) };

    /// Takes the buffers of a disabled queue back into the stash, and counts them. Returns 1: done; 0: the stash is full,
    /// and some are left; 2: no disabling was seen answered.
    final fn reclaim(&mut self, packets: &mut Packets) -> Found
        ensures own { (way.kind.end_of self.new).table ≡ (way.kind.end_of self.old).table }
        ensures step { TriedReclaim way.kind result.answer result.count self.old packets.old self.new packets.new }
        ensures some { (result.answer ≡ 0) → MovedBuffers result.count packets.old packets.new }
    {
        if !self.is_stopped() {
            return Found::nothing(2);
        }
        let had = packets.stash.len();
        match self.try_reclaim(packets) {
            Ok(count) => Found { answer: 1, count },
            Err(_) => Found {
                answer: 0,
                count: packets.moved_since(had),
            },
        }
    }

    /// Asks for an enabling if nothing was asked yet, and loads the control word. Returns 1: the queue is on; 0: it is
    /// not; 2: it was seen disabled, and must be renewed first.
    final fn enable(&mut self) -> u32
        ensures own { (way.kind.end_of self.new).table ≡ (way.kind.end_of self.old).table }
        ensures step { TriedEnable way.kind result self.old self.new }
    {
        match self.try_enable() {
            Ok(true) => 1,
            Ok(false) => 0,
            Err(_) => 2,
        }
    }

    /// Asks for a disabling. Returns 1, or 0 if the queue is not on.
    final fn ask_disable(&mut self) -> u32
        ensures own { (way.kind.end_of self.new).table ≡ (way.kind.end_of self.old).table }
        ensures step { TriedDisable way.kind result self.old self.new }
    {
        match self.try_disable() {
            Ok(()) => 1,
            Err(_) => 0,
        }
    }

    /// Loads the control word and, once the disabling is answered, the head. Returns 1 and how many segments are left,
    /// once; otherwise 0.
    final fn finish_disable(&mut self) -> Found
        ensures own { (way.kind.end_of self.new).table ≡ (way.kind.end_of self.old).table }
        ensures step { TriedLeft way.kind result.answer result.count self.old self.new }
    {
        match self.try_finish() {
            Some(left) => Found {
                answer: 1,
                count: left as usize,
            },
            None => Found::nothing(0),
        }
    }

    /// Clears the registers of a disabled queue. Returns 1, or 0 if it was not seen disabled or not all buffers came
    /// back.
    final fn renew(&mut self) -> u32
        ensures own { (way.kind.end_of self.new).table ≡ (way.kind.end_of self.old).table }
        ensures step { TriedRenewal way.kind result self.old self.new }
    {
        match self.try_renew() {
            Ok(()) => 1,
            Err(_) => 0,
        }
    }
}

impl BatchQueue for Half<RxRing, RxDriver> {
    ghost way = { directed receiver };

    fn is_stopped(&self) -> bool {
        self.end.is_stopped()
    }

    fn try_reclaim(&mut self, packets: &mut Packets) -> Result<usize, DriverError> {
        self.end.reclaim_into(&self.ring, &mut packets.stash)
    }

    fn try_enable(&mut self) -> Result<bool, DriverError> {
        self.end.enable(&self.ring)
    }

    fn try_disable(&mut self) -> Result<(), DriverError> {
        self.end.ask_disable(&self.ring)
    }

    fn try_finish(&mut self) -> Option<u32> {
        self.end.finish_disable(&self.ring)
    }

    fn try_renew(&mut self) -> Result<(), DriverError> {
        self.end.renew(&self.ring)
    }
}

impl BatchQueue for Half<TxRing, TxDriver> {
    ghost way = { directed transmitter };

    fn is_stopped(&self) -> bool {
        self.end.is_stopped()
    }

    fn try_reclaim(&mut self, packets: &mut Packets) -> Result<usize, DriverError> {
        self.end.reclaim_into(&self.ring, &mut packets.stash)
    }

    fn try_enable(&mut self) -> Result<bool, DriverError> {
        self.end.enable(&self.ring)
    }

    fn try_disable(&mut self) -> Result<(), DriverError> {
        self.end.ask_disable(&self.ring)
    }

    fn try_finish(&mut self) -> Option<u32> {
        self.end.finish_disable(&self.ring)
    }

    fn try_renew(&mut self) -> Result<(), DriverError> {
        self.end.renew(&self.ring)
    }
}

impl Half<RxRing, RxDriver> {
    /// Takes the packets that are complete, up to a batch and as many as the worker has room for, and posts empty
    /// buffers of its stash. Returns 1: done, and how many packets; 0: the queue was not seen on, or was seen disabled.
    pub(crate) fn batch(&mut self, packets: &mut Packets) -> Found
        ensures own { self.new.end.table ≡ self.old.end.table }
        ensures step { rx.TriedBatch result.answer result.count self.old packets.old self.new packets.new }
    {
        match self
            .end
            .rx_batch(&self.ring, &mut packets.stash, &mut packets.list)
        {
            Ok(count) => Found { answer: 1, count },
            Err(_) => Found::nothing(0),
        }
    }

    /// Loads the quiet word. Returns 1 if the device stores no more, otherwise 0.
    pub(crate) fn is_quiet(&mut self) -> u32
        ensures own { self.new.end.table ≡ self.old.end.table }
        ensures step { FoundQuiet result self.old self.new }
    {
        u32::from(self.end.is_quiet(&self.ring))
    }
}

impl Half<TxRing, TxDriver> {
    /// Takes reported buffers back into the stash, then posts and publishes the worker's packets from the oldest on
    /// while they fit. Returns 1: done, and how many packets; 0: the queue was not seen on, or was seen disabled; 3:
    /// the oldest packet is too long for the ring, and only reported buffers came back.
    pub(crate) fn batch(&mut self, packets: &mut Packets) -> Found
        ensures own { self.new.end.table ≡ self.old.end.table }
        ensures step { tx.TriedBatch result.answer result.count self.old packets.old self.new packets.new }
    {
        match self
            .end
            .tx_batch(&self.ring, &mut packets.stash, &mut packets.list)
        {
            Ok(count) => Found { answer: 1, count },
            Err(DriverError::TooLong) => Found::nothing(3),
            Err(_) => Found::nothing(0),
        }
    }

    /// Takes reported buffers back into the stash. Returns 1: done, and how many; 0: the queue was not seen on, or was
    /// seen disabled.
    pub(crate) fn clean(&mut self, packets: &mut Packets) -> Found
        ensures own { self.new.end.table ≡ self.old.end.table }
        ensures step { TriedCleaning result.answer result.count self.old packets.old self.new packets.new }
    {
        if !self.end.is_live() {
            return Found::nothing(0);
        }
        let count = self.end.clean(&self.ring, &mut packets.stash);
        Found { answer: 1, count }
    }

    /// Returns 1, and how many posted segments have neither been cleaned nor reclaimed.
    pub(crate) fn outstanding(&self) -> Found
        ensures { IsOutstanding result.answer result.count self.now self.now }
    {
        let count = usize::from(self.end.at().out);
        Found { answer: 1, count }
    }
}
