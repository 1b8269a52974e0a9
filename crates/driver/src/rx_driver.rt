//! The receive driver.
ghost use Rattle.std.specs.Prelude.{◌≡◌, ◌+◌, ◌<◌, ◌≤◌, ◌↔◌, true, false, [], length, IsTrue, IsErr, IfErr, OnErr, IfOk, OnOk};
ghost use Rattle.rx_ring.specs.Ends.{driver_size, driver_record, driver_state, posted, reclaimed, returned, known_of, saw_quiet, driver_grown};
ghost use Rattle.ring_model.specs.shared.Handshakes.{is_live, is_open};
ghost use Rattle.rx_ring.specs.Calls.{told_quiet};
ghost use Rattle.ring_model.specs.shared.Agreement.{bit};
ghost use Rattle.shared_ring.specs.declared.events.DriverEvent.TheVariants.{Own};
ghost use Rattle.rx_ring.specs.declared.events.RxDriverOwn.TheVariants.{LoadedQuiet};
ghost use Rattle.refusals.specs.declared.errors.DriverError.TheVariants.{QueueOff};
ghost use Rattle.driver.specs.receive.Receiver.{IsReady, hands};
ghost use Rattle.driver.specs.receive.Batches.{Batched, IsFilled};

mod handshake;
mod polling;
mod reclaiming;

use arrayvec::ArrayVec;
use buffer_pool::{Packet, Stash};
use limits::MOST_BATCH;
use refusals::DriverError;
use rx_ring::{DriverEnd, RxDriverEnd, RxRing};
use std::marker::Model;

/// A driver of a receive queue: its end of the ring, the chain of a frame whose last segment is not taken yet, and the
/// batch size.
///
/// Contracts see all three. Each call takes the ring for which the end was made.
#[derive(Drop)]
pub struct RxDriver {
    end: RxDriverEnd,
    chain: Packet,
    batch: usize,
}

impl Model for RxDriver {
    ghost use Rattle.limits.specs.declared.profile.TheConstants.{MOST_BATCH};
    ghost use Rattle.driver.specs.receive.Receiver.{Receiver, IsRxDriver};

    ghost Value = { Receiver };

    ghost view = { λ d. record { end = d.end; chain = d.chain; batch = d.batch } };

    ghost invariant = { λ d. IsRxDriver MOST_BATCH (record { end = d.end; chain = d.chain; batch = d.batch }) };
}

impl RxDriver {
    /// A driver that takes up to `batch` packets at once, 1 to `MOST_BATCH`.
    pub fn new(end: RxDriverEnd, batch: usize) -> RxDriver
        requires ready { IsReady end }
        requires some { 0 < batch }
        requires few { batch ≤ MOST_BATCH }
        ensures { result ≡ record { end = end; chain = []; batch = batch } }
    {
        RxDriver {
            end,
            chain: Packet::default(),
            batch,
        }
    }

    /// Returns the end and its unfinished chain.
    pub fn into_end(self) -> (RxDriverEnd, Packet)
        ensures end { result.0 ≡ self.end }
        ensures chain { result.1 ≡ self.chain }
    {
        (self.end, self.chain)
    }

    /// How many more buffers can be posted.
    #[inline]
    pub fn room(&self) -> u32
        ensures { result + length (posted self.now.end) + 1 ≡ driver_size self.now.end + returned self.now.end }
    {
        self.end.room()
    }

    /// The maximum number of packets that a batch takes.
    #[inline]
    pub fn batch(&self) -> usize
        ensures value { result ≡ self.now.batch }
        ensures some { 0 < result }
        ensures few { result ≤ MOST_BATCH }
    {
        self.batch
    }

    /// Whether segments of an unfinished frame were taken.
    #[inline]
    pub fn has_chain(&self) -> bool
        ensures { IsTrue result ↔ (0 < length self.now.chain) }
    {
        self.chain.segments() > 0
    }

    /// Loads the quiet word: whether the controller announced that it stores no more. After that, a batch that ends
    /// because nothing more is done shows that everything stored is taken.
    #[inline]
    pub fn is_quiet(&mut self, ring: &RxRing) -> bool
        requires own { self.old.end.table ≡ ring.now }
        ensures ring { self.new.end.table ≡ self.old.end.table }
        ensures step { self.new ≡ record self.old { end = driver_grown self.old.end (Own (LoadedQuiet (bit result))) } }
        ensures record { driver_record self.new.end ≡ driver_record self.old.end }
        ensures seen { result ≡ true → saw_quiet self.new.end ≡ true }
        ensures known { known_of self.new.end ≡ told_quiet result self.old.end }
    {
        self.end.is_quiet(ring)
    }

    /// Takes up to a batch of completed packets and appends them to the list, until the list is full or nothing more is
    /// done. Returns how many packets it appended. It posts an empty buffer of the stash after each segment, at the end
    /// as many as the ring has room for, and publishes them once. After a disabling was asked it posts nothing.
    ///
    /// Returns `QueueOff` if the queue was not seen enabled, or was seen disabled; nothing is done then.
    pub fn rx_batch(
        &mut self,
        ring: &RxRing,
        stash: &mut Stash,
        packets: &mut ArrayVec<Packet, MOST_BATCH>,
    ) -> Result<usize, DriverError>
        requires own { self.old.end.table ≡ ring.now }
        ensures ring { self.new.end.table ≡ self.old.end.table }
        ensures state { driver_state self.new.end ≡ driver_state self.old.end }
        ensures none_back { reclaimed self.new.end ≡ reclaimed self.old.end }
        ensures off { IsErr result ↔ (is_live (driver_state self.old.end) ≡ false) }
        ensures refusal { IfErr result (λ e. e ≡ QueueOff) }
        ensures unchanged { OnErr result (hands self.new stash.new packets.new.items ≡ hands self.old stash.old packets.old.items) }
        ensures batch { self.new.batch ≡ self.old.batch }
        ensures few { IfOk result (λ count. count ≤ self.old.batch) }
        ensures done { IfOk result (λ count. Batched self.old.batch MOST_BATCH count (hands self.old stash.old packets.old.items)
            (hands self.new stash.new packets.new.items)) }
        ensures filled { OnOk result (is_open (driver_state self.old.end) ≡ true → IsFilled self.new.end stash.new) }
    {
        if !self.end.is_live() {
            return Err(DriverError::QueueOff);
        }
        let had = stash.len();
        let count = polling::take(
            &mut self.end,
            &mut self.chain,
            ring,
            stash,
            packets,
            self.batch,
        );
        if self.end.is_open() {
            polling::fill(&mut self.end, ring, stash);
            if stash.len() < had {
                self.end.publish(ring);
            }
        }
        Ok(count)
    }
}
