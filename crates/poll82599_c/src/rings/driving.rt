//! The drivers of receive and transmit rings, step by step: an end, the ring that it shares, and its empty buffers.
ghost use Rattle.std.specs.Prelude.{◌≡◌, ◌≢◌, IfSome};
ghost use Rattle.rx_ring.specs.Calls as rx;
ghost use Rattle.tx_ring.specs.Calls as tx;
ghost use Rattle.tx_ring.specs.Calls.{SawReported};
ghost use Rattle.tx_ring.specs.Ends.{posted};
ghost use Rattle.poll82599_c.specs.rings.Following.{IsPosting};
ghost use Rattle.poll82599_c.specs.rings.RxEnds.{FoundQuiet, PostedOne, TookNone, TookOne};
ghost use Rattle.poll82599_c.specs.rings.TxEnds.{CleanedBuffer, PostedSegment, SawNoReport};
ghost use Rattle.poll82599_c.specs.rings.Steps.{PublishedAll, ReclaimedOne, TriedControlStep};

use crate::rings::handed::Handed;
use crate::rings::handshake::{control_step, is_emptied};
use crate::rings::partial_frame::{Asking, PartialFrame};
use buffer_pool::Stash;
use limits::BUFFER_BYTES;
use rx_ring::{Poll, RxDriverEnd, RxRing};
use shared_ring::{DriverEnd, HandshakeStep};
use std::alloc::Global;
use std::marker::Model;
use std::sync::Arc;
use tx_ring::{TxDriverEnd, TxRing};

/// The driver of a receive ring, which one thread owns.
#[derive(Drop)]
pub struct RxDriving {
    pub(crate) ring: Arc<RxRing, Global>,
    pub(crate) end: RxDriverEnd,
    pub(crate) stash: Stash,
    // whether a buffer was reclaimed in this epoch
    pub(crate) reclaiming: bool,
}

impl Model for RxDriving {
    ghost use Rattle.std.specs.Arc.{arc_value};
    ghost use Rattle.rx_ring.specs.Ends.{DriverSide};
    ghost use Rattle.poll82599_c.specs.rings.RxEnds.{IsDriving};

    ghost Value = { DriverSide };

    ghost view = { λ d. d.end };

    ghost invariant = { λ d. IsDriving (arc_value d.ring) d.end d.reclaiming };
}

impl RxDriving {
    /// Posts an empty buffer. Returns 1, or 0 if a disabling was asked for, or there is no free descriptor or no
    /// buffer.
    pub(crate) fn post(&mut self) -> u32
        ensures own { self.new.table ≡ self.old.table }
        ensures step { (result ≡ 1) → PostedOne self.old self.new }
        ensures kept { (result ≢ 1) → self.new ≡ self.old }
    {
        if !self.end.is_open() || self.end.room() == 0 {
            return 0;
        }
        match self.stash.take() {
            None => 0,
            Some(buf) => {
                self.end.post(&self.ring, buf);
                1
            }
        }
    }

    /// Stores the tail after the last posted descriptor. Returns 1, or 0 if a disabling was asked for.
    pub(crate) fn publish(&mut self) -> u32
        ensures own { self.new.table ≡ self.old.table }
        ensures step { (result ≡ 1) → PublishedAll self.old self.new }
        ensures kept { (result ≢ 1) → self.new ≡ self.old }
    {
        if !self.end.is_open() {
            return 0;
        }
        self.end.publish(&self.ring);
        1
    }

    /// Takes the next segment into `bytes`, at least 2,048. Returns 1: done; 0: the next descriptor is not done; 2:
    /// nothing is posted; 3: the queue is off; 4: `bytes` is too small. Only 1 takes a segment.
    pub(crate) fn poll(&mut self, bytes: &mut [u8]) -> Handed
        ensures own { self.new.table ≡ self.old.table }
        ensures taken { (result.answer ≡ 1) → TookOne result.len result.eop bytes.old bytes.new self.old self.new }
        ensures none { (result.answer ≢ 1) → TookNone result.answer bytes.old bytes.new self.old self.new }
    {
        if bytes.len() < BUFFER_BYTES {
            return Handed::nothing(4);
        }
        match self.end.poll(&self.ring) {
            Poll::Segment { buf, eop } => {
                let handed = Handed::segment(bytes, &buf, eop);
                drop(self.stash.put(buf));
                handed
            }
            Poll::NotDone => Handed::nothing(0),
            Poll::Empty => Handed::nothing(2),
            Poll::Off => Handed::nothing(3),
        }
    }

    /// Makes a step of the handshake, and returns the result of `handshake::control_step`.
    pub(crate) fn control_step(&mut self, step: HandshakeStep) -> u32
        ensures own { self.new.table ≡ self.old.table }
        ensures step { TriedControlStep step result self.old self.new }
    {
        control_step(&mut self.end, &self.ring, step)
    }

    /// Loads the quiet word. Returns 1 if the controller stores no more, otherwise 0.
    pub(crate) fn is_quiet(&mut self) -> u32
        ensures own { self.new.table ≡ self.old.table }
        ensures step { FoundQuiet result self.old self.new }
    {
        u32::from(self.end.is_quiet(&self.ring))
    }

    /// Loads the head, and puts into `len` how many segments were stored and not taken when the disabling was answered.
    /// Returns 1: done; 0: a buffer was reclaimed before; 2: no disabling was seen answered.
    pub(crate) fn left(&mut self) -> Handed
        ensures own { self.new.table ≡ self.old.table }
        ensures step { (result.answer ≡ 1) → rx.FoundLeft self.old result.len self.new }
        ensures kept { (result.answer ≢ 1) → self.new ≡ self.old }
    {
        if !self.end.is_stopped() {
            return Handed::nothing(2);
        }
        if self.reclaiming {
            return Handed::nothing(0);
        }
        Handed::told(1, self.end.left(&self.ring))
    }

    /// Takes back the oldest buffer in the ring. Returns 1: done; 0: there is none; 2: no disabling was seen answered.
    pub(crate) fn reclaim(&mut self) -> u32
        ensures own { self.new.table ≡ self.old.table }
        ensures step { (result ≡ 1) → ReclaimedOne self.old self.new }
        ensures kept { (result ≢ 1) → self.new ≡ self.old }
    {
        if !self.end.is_stopped() {
            return 2;
        }
        match self.end.reclaim(&self.ring) {
            None => 0,
            Some(buf) => {
                drop(self.stash.put(buf));
                self.reclaiming = true;
                1
            }
        }
    }

    /// Clears the registers of a disabled queue, which can then be enabled again. Returns 1, or 0 if no disabling was
    /// seen answered or a buffer is still in the ring.
    pub(crate) fn renew(&mut self) -> u32
        ensures own { self.new.table ≡ self.old.table }
        ensures step { (result ≡ 1) → rx.GoneOver self.old self.new }
        ensures kept { (result ≢ 1) → self.new ≡ self.old }
    {
        if !is_emptied(&self.end) {
            return 0;
        }
        self.end.renew(&self.ring);
        self.reclaiming = false;
        1
    }
}

/// The driver of a transmit ring, which one thread owns.
#[derive(Drop)]
pub struct TxDriving {
    pub(crate) ring: Arc<TxRing, Global>,
    pub(crate) end: TxDriverEnd,
    pub(crate) stash: Stash,
    // how much of the unfinished frame is posted, and its PAYLEN
    pub(crate) begun: PartialFrame,
    pub(crate) paylen: u32,
}

impl Model for TxDriving {
    ghost use Rattle.std.specs.Arc.{arc_value};
    ghost use Rattle.tx_ring.specs.Ends.{DriverSide};
    ghost use Rattle.poll82599_c.specs.rings.TxEnds.{IsDriving};

    ghost Value = { DriverSide };

    ghost view = { λ d. d.end };

    ghost invariant = { λ d. IsDriving (arc_value d.ring) d.end d.begun d.paylen };
}

impl TxDriving {
    /// How much of the unfinished frame is posted. Returns nothing if its PAYLEN is not `paylen`.
    fn begun(&self, paylen: u32) -> Option<PartialFrame>
        ensures { IfSome result (λ b. IsPosting (posted self.now) b paylen) }
    {
        if self.end.is_whole() {
            return Some(PartialFrame::none());
        }
        if self.paylen == paylen {
            return Some(self.begun);
        }
        None
    }

    /// Posts a segment. Returns 1: done; 0: there is no free descriptor or no buffer, or a disabling was asked for; 2:
    /// it may not follow the frame's segments so far.
    pub(crate) fn post(&mut self, bytes: &[u8], ask: &Asking) -> u32
        ensures own { self.new.table ≡ self.old.table }
        ensures step { (result ≡ 1) → PostedSegment bytes.now ask.now.eop ask.now.rs ask.now.paylen self.old self.new }
        ensures kept { (result ≢ 1) → self.new ≡ self.old }
    {
        let Some(begun) = self.begun(ask.paylen) else {
            return 2;
        };
        if !begun.can_post(bytes.len(), ask, self.end.size()) {
            return 2;
        }
        if !self.end.is_open() || self.end.room() == 0 {
            return 0;
        }
        match self.stash.take() {
            None => 0,
            Some(empty) => {
                let mut buf = empty;
                buf.fill(bytes);
                self.end
                    .post(&self.ring, buf, ask.eop, ask.rs, ask.paylen as u16);
                if !ask.eop {
                    self.begun = begun.with(bytes.len());
                    self.paylen = ask.paylen;
                }
                1
            }
        }
    }

    /// Stores the tail after the last posted descriptor. Returns 1, or 0 if a disabling was asked for or a frame is
    /// unfinished.
    pub(crate) fn publish(&mut self) -> u32
        ensures own { self.new.table ≡ self.old.table }
        ensures step { (result ≡ 1) → PublishedAll self.old self.new }
        ensures kept { (result ≢ 1) → self.new ≡ self.old }
    {
        if !self.end.is_open() || !self.end.is_whole() {
            return 0;
        }
        self.end.publish(&self.ring);
        1
    }

    /// Looks for the oldest report that was asked for and not seen. Returns 1 if it is made, otherwise 0.
    pub(crate) fn poll_report(&mut self) -> u32
        ensures own { self.new.table ≡ self.old.table }
        ensures step { (result ≡ 1) → SawReported self.old self.new }
        ensures none { (result ≢ 1) → SawNoReport self.old self.new }
    {
        if self.end.poll_report(&self.ring) {
            return 1;
        }
        0
    }

    /// Cleans the oldest descriptor that is seen reported, and takes its buffer back. Returns 1, or 0 if there is none.
    pub(crate) fn clean(&mut self) -> u32
        ensures own { self.new.table ≡ self.old.table }
        ensures step { (result ≡ 1) → CleanedBuffer self.old self.new }
        ensures kept { (result ≢ 1) → self.new ≡ self.old }
    {
        if !self.end.is_live() || self.end.reported() == 0 {
            return 0;
        }
        let buf = self.end.clean(&self.ring);
        drop(self.stash.put(buf));
        1
    }

    /// Makes a step of the handshake, and returns the result of `handshake::control_step`.
    pub(crate) fn control_step(&mut self, step: HandshakeStep) -> u32
        ensures own { self.new.table ≡ self.old.table }
        ensures step { TriedControlStep step result self.old self.new }
    {
        control_step(&mut self.end, &self.ring, step)
    }

    /// Loads the head, and puts into `len` how many segments were posted and not sent when the disabling was answered.
    /// Returns 1: done; 2: no disabling was seen answered.
    pub(crate) fn left(&mut self) -> Handed
        ensures own { self.new.table ≡ self.old.table }
        ensures step { (result.answer ≡ 1) → tx.FoundLeft self.old result.len self.new }
        ensures kept { (result.answer ≢ 1) → self.new ≡ self.old }
    {
        if !self.end.is_stopped() {
            return Handed::nothing(2);
        }
        Handed::told(1, self.end.left(&self.ring))
    }

    /// Takes back the oldest buffer in the ring. Returns 1: done; 0: there is none; 2: no disabling was seen answered.
    pub(crate) fn reclaim(&mut self) -> u32
        ensures own { self.new.table ≡ self.old.table }
        ensures step { (result ≡ 1) → ReclaimedOne self.old self.new }
        ensures kept { (result ≢ 1) → self.new ≡ self.old }
    {
        if !self.end.is_stopped() {
            return 2;
        }
        match self.end.reclaim(&self.ring) {
            None => 0,
            Some(buf) => {
                drop(self.stash.put(buf));
                1
            }
        }
    }

    /// Clears the registers of a disabled queue, which can then be enabled again. Returns 1, or 0 if no disabling was
    /// seen answered or a buffer is still in the ring.
    pub(crate) fn renew(&mut self) -> u32
        ensures own { self.new.table ≡ self.old.table }
        ensures step { (result ≡ 1) → tx.GoneOver self.old self.new }
        ensures kept { (result ≢ 1) → self.new ≡ self.old }
    {
        if !is_emptied(&self.end) {
            return 0;
        }
        self.end.renew(&self.ring);
        1
    }
}
