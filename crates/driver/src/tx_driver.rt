//! The driver of a transmit queue.
ghost use Rattle.std.specs.Prelude.{◌≡◌, ◌+◌, ◌<◌, ◌≤◌, ◌↔◌, ◌⊎◌, true, false, ◌++◌, length, take, map, All, IfOk, IfErr, Err};
ghost use Rattle.buffer_pool.specs.Packed.{IsPacket, bytes_of};
ghost use Rattle.ring_model.specs.shared.Handshakes.{is_answered, is_live};
ghost use Rattle.ring_model.specs.shared.Frames.{frames};
ghost use Rattle.ring_model.specs.transmit.Ring.{are_whole, carried};
ghost use Rattle.tx_ring.specs.Ends.{driver_size, posted, reclaimed, returned, driver_state};
ghost use Rattle.refusals.specs.declared.errors.DriverError.TheVariants.{QueueOff, TooLong};
ghost use Rattle.driver.specs.transmit.Transmitter.{IsReady, room_of, sending};
ghost use Rattle.driver.specs.transmit.Frames.{IsTooLong};
ghost use Rattle.driver.specs.transmit.Batches.{CleanedAll, Batched, OnlyCleaned};

mod cleaning;
mod handshake;
mod posting;

use arrayvec::ArrayVec;
use buffer_pool::{Packet, Stash};
use cleaning::clean_all;
use limits::{MOST_BATCH, MOST_RS_EVERY};
use posting::{is_too_long, post_fitting};
use refusals::DriverError;
use std::marker::Model;
use tx_ring::{DriverEnd, TxDriverEnd, TxRing};

/// A driver of a transmit queue: its end of the ring, its report interval, and its count of frames.
///
/// Contracts see all three. Each call takes the ring for which the end was made.
#[derive(Drop)]
pub struct TxDriver {
    end: TxDriverEnd,
    every: u16,
    frames: u16,
}

impl Model for TxDriver {
    ghost use Rattle.limits.specs.declared.profile.TheConstants.{MOST_RS_EVERY};
    ghost use Rattle.driver.specs.transmit.Transmitter.{Transmitter, IsTxDriver};

    ghost Value = { Transmitter };

    ghost view = { λ d. record { end = d.end; every = d.every; frames = d.frames } };

    ghost invariant = { λ d. IsTxDriver MOST_RS_EVERY (record { end = d.end; every = d.every; frames = d.frames }) };
}

impl TxDriver {
    /// A driver that asks for a report with each `rs_every`th frame of an epoch, 1 to `MOST_RS_EVERY`, besides the last
    /// of each batch.
    pub fn new(end: TxDriverEnd, rs_every: u16) -> TxDriver
        requires ready { IsReady end }
        requires some { 0 < rs_every }
        requires few { rs_every ≤ MOST_RS_EVERY }
        ensures { result ≡ record { end = end; every = rs_every; frames = 0 } }
    {
        let _places = end.at(); // by which nothing was reclaimed so far
        TxDriver {
            end,
            every: rs_every,
            frames: 0,
        }
    }

    /// Returns the end, which is between two frames.
    pub fn into_end(self) -> TxDriverEnd
        ensures value { result ≡ self.end }
        ensures whole { are_whole (posted result) ≡ true }
    {
        self.end
    }

    /// The report interval: at least each `rs_every`th frame asks for a report.
    #[inline]
    pub fn rs_every(&self) -> u16
        ensures some { 0 < result }
        ensures few { result ≤ MOST_RS_EVERY }
        ensures value { result ≡ self.now.every }
    {
        self.every
    }

    /// How many more descriptors can be posted. Until the disabling is seen answered, this is the ring's length less 1
    /// exactly if all that was posted is cleaned.
    #[inline]
    pub fn room(&self) -> u32
        ensures sum { result + length (posted self.now.end) + 1 ≡ driver_size self.now.end + returned self.now.end }
        ensures value { result ≡ room_of self.now.end }
        ensures none_back { is_answered (driver_state self.now.end) ≡ false → reclaimed self.now.end ≡ 0 }
    {
        self.end.room()
    }

    /// Moves buffers that are reported as sent into the stash, until it is full or there is no further report. Returns
    /// how many it moved. Does nothing on a queue that is not live.
    pub fn clean(&mut self, ring: &TxRing, stash: &mut Stash) -> usize
        requires own { self.old.end.table ≡ ring.now }
        ensures ring { self.new.end.table ≡ self.old.end.table }
        ensures off { is_live (driver_state self.old.end) ≡ false → (self.new ≡ self.old) × (stash.new ≡ stash.old) }
        ensures done { is_live (driver_state self.old.end) ≡ true → CleanedAll self.old.end stash.old self.new.end stash.new }
        ensures state { driver_state self.new.end ≡ driver_state self.old.end }
        ensures none_back { reclaimed self.new.end ≡ reclaimed self.old.end }
        ensures count { length stash.new ≡ length stash.old + result }
        ensures same { self.new ≡ record self.old { end = self.new.end } }
    {
        if !self.end.is_live() {
            return 0;
        }
        let had = stash.len();
        clean_all(&mut self.end, ring, stash);
        stash.len() - had
    }

    /// Cleans as `clean` does, then removes whole packets from the front of the list as long as they fit, posts and
    /// publishes them, and returns their number. The last of them asks for a report. After a disabling was asked it
    /// posts nothing.
    ///
    /// Returns `QueueOff` if the queue was not seen enabled, or was seen disabled; nothing is done then. Returns
    /// `TooLong` if the first packet has more segments than the ring can ever hold; cleaning is done then, and all
    /// packets stay.
    pub fn tx_batch(
        &mut self,
        ring: &TxRing,
        stash: &mut Stash,
        packets: &mut ArrayVec<Packet, MOST_BATCH>,
    ) -> Result<usize, DriverError>
        requires own { self.old.end.table ≡ ring.now }
        requires packets { All IsPacket packets.old.items }
        ensures ring { self.new.end.table ≡ self.old.end.table }
        ensures state { driver_state self.new.end ≡ driver_state self.old.end }
        ensures none_back { reclaimed self.new.end ≡ reclaimed self.old.end }
        ensures whole { All IsPacket packets.new.items }
        ensures off { (result ≡ Err QueueOff) ↔ (is_live (driver_state self.old.end) ≡ false) }
        ensures unchanged { result ≡ Err QueueOff → sending self.new stash.new packets.new.items ≡ sending self.old stash.old packets.old.items }
        ensures long { (result ≡ Err TooLong) ↔ ((is_live (driver_state self.old.end) ≡ true) × IsTooLong (driver_size self.old.end) packets.old.items) }
        ensures cleaned { result ≡ Err TooLong → OnlyCleaned (sending self.old stash.old packets.old.items) (sending self.new stash.new packets.new.items) }
        ensures refusal { IfErr result (λ e. (e ≡ QueueOff) ⊎ (e ≡ TooLong)) }
        ensures frames { IfOk result (λ count. frames carried (posted self.new.end) ≡ frames carried (posted self.old.end) ++ map bytes_of (take count packets.old.items)) }
        ensures done { IfOk result (λ count. Batched count (sending self.old stash.old packets.old.items) (sending self.new stash.new packets.new.items)) }
    {
        if !self.end.is_live() {
            return Err(DriverError::QueueOff);
        }
        clean_all(&mut self.end, ring, stash);
        if is_too_long(packets.as_slice(), self.end.size()) {
            return Err(DriverError::TooLong);
        }
        let (count, frames) = post_fitting(&mut self.end, ring, packets, self.every, self.frames);
        self.frames = frames;
        Ok(count)
    }
}
