//! The controllers of receive and transmit rings, step by step: an end, and the ring that it shares.
ghost use Rattle.std.specs.Prelude.{◌≡◌, ◌≢◌, ◌<◌, ◌≤◌, true, false, length, None};
ghost use Rattle.limits.specs.declared.profile.TheConstants.{BUFFER_BYTES};
ghost use Rattle.ring_model.specs.shared.Handshakes.{is_serving};
ghost use Rattle.ring_model.specs.shared.Segments.{piece_of};
ghost use Rattle.rx_ring.specs.Ends as rx;
ghost use Rattle.rx_ring.specs.Ends.{controller_size, is_quiet, known_free, stored};
ghost use Rattle.tx_ring.specs.Ends as tx;
ghost use Rattle.tx_ring.specs.Ends.{is_owed, known_ready};
ghost use Rattle.poll82599_c.specs.rings.Following.{CanFollow, IsBegun};
ghost use Rattle.poll82599_c.specs.rings.RxEnds.{FoundNoneFree, SaidNoMore, StoredOne, WroteOne};
ghost use Rattle.poll82599_c.specs.rings.TxEnds.{SentNone, SentOne};
ghost use Rattle.poll82599_c.specs.rings.Steps.{TriedAnswer};

use crate::half::Half;
use crate::rings::handed::Handed;
use crate::rings::handshake::answer_asked;
use crate::rings::partial_frame::PartialFrame;
use limits::BUFFER_BYTES;
use rx_ring::{RxControllerEnd, RxRing};
use shared_ring::ControllerEnd;
use std::alloc::Global;
use std::marker::Model;
use std::sync::Arc;
use tx_ring::{TxControllerEnd, TxRing};

/// The controller of a receive ring, which one thread owns.
#[derive(Drop)]
pub struct RxServing {
    pub(crate) ring: Arc<RxRing, Global>,
    pub(crate) end: RxControllerEnd,
    // how much of the unfinished frame is stored
    pub(crate) begun: PartialFrame,
}

impl Model for RxServing {
    ghost use Rattle.std.specs.Arc.{arc_value};
    ghost use Rattle.rx_ring.specs.Ends.{ControllerSide};
    ghost use Rattle.poll82599_c.specs.rings.RxEnds.{IsServing};

    ghost Value = { ControllerSide };

    ghost view = { λ s. s.end };

    ghost invariant = { λ s. IsServing (arc_value s.ring) s.end s.begun };
}

impl RxServing {
    /// How much of the unfinished frame is stored.
    fn begun(&self) -> PartialFrame
        ensures { IsBegun piece_of (stored self.now) result }
    {
        if self.end.is_between_frames() {
            return PartialFrame::none();
        }
        self.begun
    }

    /// Loads the control word, and returns the result of `handshake::answer_asked`.
    pub(crate) fn answer(&mut self) -> u32
        ensures own { self.new.table ≡ self.old.table }
        ensures step { TriedAnswer result self.old self.new }
    {
        answer_asked(&mut self.end, &self.ring)
    }

    /// Stores a segment, and the head if it ends its frame. Returns 1: done; 0: no descriptor is free; 2: the segment
    /// may not follow the frame's segments so far; 3: the queue is off or quiet.
    pub(crate) fn store(&mut self, bytes: &[u8], eop: bool) -> u32
        ensures own { self.new.table ≡ self.old.table }
        ensures stored { (result ≡ 1) → StoredOne bytes.now eop self.old self.new }
        ensures none { (result ≡ 0) → FoundNoneFree self.old self.new }
        ensures kept { (result ≢ 0) → (result ≢ 1) → self.new ≡ self.old }
    {
        if !self.end.is_serving() || self.end.is_holding() || self.end.has_finished() {
            return 3;
        }
        let begun = self.begun();
        if !begun.can_follow(bytes.len(), eop, self.end.size()) {
            return 2;
        }
        if self.end.free() == 0 && self.end.look(&self.ring) == 0 {
            return 0;
        }
        self.write(bytes, eop, begun);
        1
    }

    // Writes a segment into the next descriptor, and stores the head if it ends its frame.
    fn write(&mut self, bytes: &[u8], eop: bool, begun: PartialFrame)
        requires serving { is_serving (rx.controller_state self.old) ≡ true }
        requires held { rx.held self.old ≡ None }
        requires quiet { is_quiet self.old ≡ false }
        requires free { 0 < known_free self.old }
        requires begun { IsBegun piece_of (stored self.old) begun }
        requires can { CanFollow (controller_size self.old) begun (length bytes.now) eop }
        ensures own { self.new.table ≡ self.old.table }
        ensures wrote { WroteOne bytes.now eop self.old self.new }
    {
        self.end.store(&self.ring, bytes, eop);
        if eop {
            self.end.set_head(&self.ring);
        } else {
            self.begun = begun.with(bytes.len());
        }
    }

    /// Says that no more is stored in this epoch. Returns 1, or 0 if the queue is off or a frame is unfinished.
    pub(crate) fn set_quiet(&mut self) -> u32
        ensures own { self.new.table ≡ self.old.table }
        ensures step { (result ≡ 1) → SaidNoMore self.old self.new }
        ensures kept { (result ≢ 1) → self.new ≡ self.old }
    {
        if !self.end.is_serving() || self.end.is_holding() || !self.end.is_between_frames() {
            return 0;
        }
        self.end.set_quiet(&self.ring);
        1
    }
}

/// The controller of a transmit ring, which one thread owns.
pub(crate) type TxServing = Half<TxRing, TxControllerEnd>;

impl Half<TxRing, TxControllerEnd> {
    /// Loads the control word, and returns the result of `handshake::answer_asked`.
    pub(crate) fn answer(&mut self) -> u32
        ensures own { self.new.table ≡ self.old.table }
        ensures step { TriedAnswer result self.old self.new }
    {
        answer_asked(&mut self.end, &self.ring)
    }

    /// Sends the next segment into `bytes`, at least 2,048, and reports it if it asks for a report. Returns 1: done; 0:
    /// none is ready; 3: the queue is off; 4: `bytes` is too small.
    pub(crate) fn send(&mut self, bytes: &mut [u8]) -> Handed
        ensures own { self.new.table ≡ self.old.table }
        ensures sent { (result.answer ≡ 1) → SentOne result.len result.eop bytes.old bytes.new self.old self.new }
        ensures none { (result.answer ≢ 1) → SentNone result.answer bytes.old bytes.new self.old self.new }
    {
        if bytes.len() < BUFFER_BYTES {
            return Handed::nothing(4);
        }
        if !self.end.is_serving() || self.end.is_holding() || self.end.owes_report() {
            return Handed::nothing(3);
        }
        if self.end.ready() == 0 && self.end.look(&self.ring) == 0 {
            return Handed::nothing(0);
        }
        self.hand_out(bytes)
    }

    // Sends the segment that is ready into `bytes`, and reports it if it asks for a report.
    fn hand_out(&mut self, bytes: &mut [u8]) -> Handed
        requires room { BUFFER_BYTES ≤ length bytes.old }
        requires serving { is_serving (tx.controller_state self.old) ≡ true }
        requires held { tx.held self.old ≡ None }
        requires paid { is_owed self.old ≡ false }
        requires ready { 0 < known_ready self.old }
        ensures own { self.new.table ≡ self.old.table }
        ensures answer { result.answer ≡ 1 }
        ensures sent { SentOne result.len result.eop bytes.old bytes.new self.old self.new }
    {
        let (buf, read) = self.end.fetch(&self.ring);
        let handed = Handed::segment(bytes, &buf, read.eop);
        self.end.give_back(&self.ring, buf);
        if self.end.owes_report() {
            self.end.report(&self.ring);
        }
        handed
    }
}
