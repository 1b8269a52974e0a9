//! The device's side of a receive queue.
ghost use Rattle.std.specs.Prelude.{◌≡◌, ◌↔◌, [], ◌++◌, false, if◌then◌else◌};
ghost use Rattle.ring_model.specs.shared.Frames.{HasFrameLength, frames};
ghost use Rattle.ring_model.specs.shared.Handshakes.{is_serving};
ghost use Rattle.ring_model.specs.shared.Segments.{piece_of};
ghost use Rattle.rx_ring.specs.Ends.{controller_state, stored, seen, is_quiet};
ghost use Rattle.limits.specs.FillSize.{IsFillSize};
ghost use Rattle.controller.specs.Handshaking.{TurnedControl, begins};
ghost use Rattle.controller.specs.Receiving.{IsIdle, Offered, Finished, frames_by, may_store};
ghost use Rattle.counters.specs.Kinds.{AddsUp, nothing};

use crate::control::answer;
use crate::offer::Offer;
use crate::storing::decide;
use crate::tally::counted;
use counters::Tally;
use limits::{LEAST_FRAME, MOST_FRAME};
use refusals::CtlError;
use rx_ring::{Control, ControllerEnd, RxControllerEnd, RxRing};
use std::marker::Model;

/// The device's side of a receive queue. It stores each offered frame whole or not at all, and answers enabling and
/// disabling between two frames.
#[derive(Drop)]
pub struct RxController {
    end: RxControllerEnd,
    bsize: usize,
    drop_en: bool,
    tally: Tally,
}

impl Model for RxController {
    ghost use Rattle.controller.specs.Receiving.{Receiving, IsReceiver};

    ghost Value = { Receiving };

    ghost view = { λ c. record { end = c.end; bsize = c.bsize; drop_en = c.drop_en; tally = c.tally } };

    ghost invariant = { λ c. IsReceiver (record { end = c.end; bsize = c.bsize; drop_en = c.drop_en; tally = c.tally }) };
}

impl RxController {
    /// A controller that fills buffers to `bsize` bytes, 1,024 or 2,048. If too few descriptors are free, it drops the
    /// frame with `drop_en` set, and holds it otherwise (82599 datasheet, SRRCTL.Drop_En). The end must be between two
    /// frames, hold no buffer, and have stored its head.
    pub fn new(end: RxControllerEnd, bsize: usize, drop_en: bool) -> RxController
        requires bsize { IsFillSize bsize }
        requires idle { IsIdle end }
        ensures { result ≡ record { end = end; bsize = bsize; drop_en = drop_en; tally = nothing } }
    {
        RxController {
            end,
            bsize,
            drop_en,
            tally: Tally::default(),
        }
    }

    /// Whether the controller answered the enabling of this epoch, and no disabling since.
    #[inline]
    pub fn is_serving(&self) -> bool
        ensures { result ≡ is_serving (controller_state self.now.end) }
    {
        self.end.is_serving()
    }

    /// Whether the controller announced that it stores no more in this epoch.
    #[inline]
    pub fn has_finished(&self) -> bool
        ensures { result ≡ is_quiet self.now.end }
    {
        self.end.has_finished()
    }

    /// Offers an incoming frame. Returns `FrameLength` if its length is not `LEAST_FRAME` to `MOST_FRAME` bytes;
    /// nothing is done then.
    pub fn offer(&mut self, ring: &RxRing, frame: &[u8]) -> Result<Offer, CtlError>
        requires own { self.old.end.table ≡ ring.now }
        ensures refused { (result ≡ Err CtlError.FrameLength) ↔ ¬ HasFrameLength frame.now }
        ensures decided { Offered self.old frame.now result self.new }
        ensures frames { frames piece_of (stored self.new.end) ≡ frames piece_of (stored self.old.end) ++ frames_by result frame.now }
        ensures state { controller_state self.new.end ≡ controller_state self.old.end }
        ensures seen { seen self.new.end ≡ seen self.old.end }
        ensures quiet { is_quiet self.new.end ≡ is_quiet self.old.end }
        ensures over { may_store self.old.end ≡ false → self.new ≡ self.old }
        ensures own { self.new.end.table ≡ ring.now }
    {
        if frame.len() < LEAST_FRAME || MOST_FRAME < frame.len() {
            return Err(CtlError::FrameLength);
        }
        let scarce = if self.drop_en {
            Offer::Dropped
        } else {
            Offer::Held
        };
        let offer = decide(ring, &mut self.end, self.bsize, frame, scarce);
        self.tally = counted(self.tally, offer);
        Ok(offer)
    }

    /// Loads the control word, and answers the request if there is one. Returns the control value that it stored, or
    /// else the one that it loaded.
    pub fn turn_control(&mut self, ring: &RxRing) -> Control
        requires own { self.old.end.table ≡ ring.now }
        ensures turned { TurnedControl self.old.end result self.new.end }
        ensures lists { stored self.new.end ≡ (if begins self.old.end self.new.end then [] else stored self.old.end) }
        ensures quiet { is_quiet self.new.end ≡ (if begins self.old.end self.new.end then false else is_quiet self.old.end) }
        ensures same { self.new ≡ record self.old { end = self.new.end } }
        ensures own { self.new.end.table ≡ ring.now }
    {
        let asked = self.end.asked(ring);
        if !self.end.can_answer() {
            return asked;
        }
        answer(&mut self.end, ring)
    }

    /// Announces that no more is stored in this epoch: the quiet word becomes 1. Returns false, without a step, if the
    /// end does not serve the queue or announced it before.
    pub fn finish(&mut self, ring: &RxRing) -> bool
        requires own { self.old.end.table ≡ ring.now }
        ensures finished { Finished self.old.end result self.new.end }
        ensures over { may_store self.new.end ≡ false }
        ensures same { self.new ≡ record self.old { end = self.new.end } }
        ensures own { self.new.end.table ≡ ring.now }
    {
        if !self.end.is_serving() || self.end.has_finished() {
            return false;
        }
        self.end.set_quiet(ring);
        true
    }

    /// How many frames were offered, and their outcomes.
    pub fn tally(&self) -> Tally
        ensures value { result ≡ self.now.tally }
        ensures adds { AddsUp result }
    {
        self.tally
    }

    /// Returns the end, which is between two frames.
    pub fn into_end(self) -> RxControllerEnd
        ensures end { result ≡ self.end }
        ensures idle { IsIdle result }
    {
        self.end
    }
}
