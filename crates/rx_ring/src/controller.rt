//! The controller's end: answers enabling and disabling, loads the tail, fetches posted buffers, writes them back
//! filled, and stores the head.
ghost use Rattle.std.specs.Prelude.{◌≡◌, ◌+◌, ◌<◌, true, false, [], ◌∷◌, ◌++◌, length, Some, None};
ghost use Rattle.buffer_pool.specs.Buffer.{buffer};
ghost use Rattle.ring_model.specs.receive.Agreement.{rx_word};
ghost use Rattle.ring_model.specs.shared.Segments.{piece_of};
ghost use Rattle.ring_model.specs.shared.Frames.{Follows, unfinished};
ghost use Rattle.ring_model.specs.shared.Handshakes.{is_serving};
ghost use Rattle.shared_ring.specs.declared.events.ControllerEvent.TheVariants.{StoredHead, Own};
ghost use Rattle.rx_ring.specs.declared.events.RxControllerOwn.TheVariants.{WroteBack, SaidQuiet};
ghost use Rattle.rx_ring.specs.Ends.{controller_size, controller_record, stored, known_free, held, held_number, controller_state, is_quiet, is_at_frame_end, serve_place, controller_grown};
ghost use Rattle.shared_ring.specs.Ends.{controller_of, controller_side};
ghost use Rattle.rx_ring.specs.Form.{rx};
ghost use Rattle.rx_ring.specs.Calls.{IsFreshController, Fetched, StoredBytes, segment};

use crate::direction::{RxControllerSeat, RxRule};
use crate::events::{RxControllerOwn, RxDriverOwn};
use crate::ring::RxRing;
use crate::steps::{self, HeadStore};
use buffer_pool::Buf;
use ring_model::place_after;
use shared_ring::{ControllerEnd, ControllerLoad, ControllerPlaces};
use std::marker::Model;

/// The controller's end of a receive ring. Contracts see the ring's identity and the record of the end's own steps.
///
/// `is_serving`, `is_holding`, `is_between_frames`, `has_finished`, `can_answer` and `free` test the conditions of its
/// calls.
#[derive(Drop)]
pub struct RxControllerEnd {
    pub(crate) seat: RxControllerSeat,
    pub(crate) at: ControllerPlaces,
    // the head that the end stored last: a place
    head: u16,
    // whether the end said in this epoch that it stores no more
    finished: bool,
}

impl Model for RxControllerEnd {
    ghost use Rattle.shared_ring.specs.Ends.{controller_of};
    ghost use Rattle.rx_ring.specs.Ends.{ControllerSide};
    ghost use Rattle.rx_ring.specs.Form.{rx};
    ghost use Rattle.rx_ring.specs.Calls.{IsControllerEnd};

    ghost Value = { ControllerSide };

    ghost view = { λ e. controller_of rx e.seat };

    ghost invariant = { λ e. IsControllerEnd (controller_of rx e.seat) e.at e.head e.finished };
}

impl RxControllerEnd {
    pub(crate) fn new(seat: RxControllerSeat) -> RxControllerEnd
        requires { IsFreshController (controller_of rx seat) }
        ensures { result ≡ controller_of rx seat }
    {
        let at = ControllerPlaces::new(seat.size());
        RxControllerEnd {
            seat,
            at,
            head: 0,
            finished: false,
        }
    }

    /// How many descriptors the end knows to be free, from the next one up to the tail that it loaded last.
    #[inline]
    pub fn free(&self) -> u32
        ensures { result ≡ known_free self.now }
    {
        self.at.available as u32
    }

    /// Loads the next descriptor and takes its empty buffer.
    #[inline]
    pub fn fetch(&mut self, ring: &RxRing) -> Buf
        requires own { self.old.table ≡ ring.now }
        requires serving { is_serving (controller_state self.old) ≡ true }
        requires free { 0 < known_free self.old }
        requires held { held self.old ≡ None }
        requires quiet { is_quiet self.old ≡ false }
        ensures { Fetched self.old result self.new }
    {
        let (buf, _) = self.seat.fetch(&ring.0, self.at.serve);
        self.at.holding = true;
        buf
    }

    /// Puts the fetched buffer back and stores its write-back: DD, the length, and EOP if its bytes end the frame
    /// (82599 datasheet, 7.1.6.2). The bytes must be allowed after the frame's segments so far.
    #[inline]
    pub fn write_back(&mut self, ring: &RxRing, buf: Buf, eop: bool)
        requires own { self.old.table ≡ ring.now }
        requires held { held_number self.old ≡ Some buf.number }
        requires real { buf ≡ buffer buf.number buf.bytes }
        requires follows { Follows piece_of (controller_size self.old) (unfinished piece_of (stored self.old)) buf.bytes eop }
        ensures step { self.new ≡ controller_grown self.old (Own (WroteBack (serve_place self.old) (rx_word (length buf.bytes) eop) buf)) }
        ensures record { controller_record self.new ≡ record (controller_record self.old) { completed = stored self.old ++ segment buf eop ∷ []; held = None } }
    {
        steps::write_back(&mut self.seat, &ring.0, self.at.serve, buf, eop);
        self.at.serve = place_after(self.at.serve, self.at.size);
        self.at.available -= 1;
        self.at.holding = false;
        self.at.at_frame_end = eop;
    }

    /// Stores a segment in the next descriptor: does the work of `fetch`, `Buf::fill` and `write_back` in one call. The
    /// buffer stays in its slot, which is faster. The bytes must be allowed after the frame's segments so far.
    #[inline]
    pub fn store(&mut self, ring: &RxRing, bytes: &[u8], eop: bool)
        requires own { self.old.table ≡ ring.now }
        requires serving { is_serving (controller_state self.old) ≡ true }
        requires free { 0 < known_free self.old }
        requires held { held self.old ≡ None }
        requires quiet { is_quiet self.old ≡ false }
        requires follows { Follows piece_of (controller_size self.old) (unfinished piece_of (stored self.old)) bytes.now eop }
        ensures { StoredBytes self.old bytes.now eop self.new }
    {
        steps::store(&mut self.seat, &ring.0, self.at.serve, bytes, eop);
        self.at.serve = place_after(self.at.serve, self.at.size);
        self.at.available -= 1;
        self.at.at_frame_end = eop;
    }

    /// Stores the head (RDH): the place after the last stored segment.
    #[inline]
    pub fn set_head(&mut self, ring: &RxRing)
        requires own { self.old.table ≡ ring.now }
        requires serving { is_serving (controller_state self.old) ≡ true }
        requires held { held self.old ≡ None }
        ensures step { self.new ≡ controller_grown self.old (StoredHead (serve_place self.old)) }
        ensures record { controller_record self.new ≡ record (controller_record self.old) { head = serve_place self.old } }
    {
        let index = self.at.size as usize;
        self.seat
            .store_own::<HeadStore>(&ring.0, index, self.at.serve as u64);
        self.head = self.at.serve;
    }

    /// Whether the end said in this epoch that it stores no more.
    #[inline]
    pub fn has_finished(&self) -> bool
        ensures { result ≡ is_quiet self.now }
    {
        self.finished
    }

    /// Stores the quiet word as 1: the end stores no more in this epoch.
    #[inline]
    pub fn set_quiet(&mut self, ring: &RxRing)
        requires own { self.old.table ≡ ring.now }
        requires serving { is_serving (controller_state self.old) ≡ true }
        requires held { held self.old ≡ None }
        requires at_frame_end { is_at_frame_end self.old ≡ true }
        ensures step { self.new ≡ controller_grown self.old (Own SaidQuiet) }
        ensures record { controller_record self.new ≡ record (controller_record self.old) { barred = true } }
    {
        self.finished = true;
        steps::say_quiet(&mut self.seat, &ring.0);
    }
}

impl ControllerEnd<RxDriverOwn, RxControllerOwn, RxRule> for RxControllerEnd {
    type Ring = RxRing;

    ghost side = { controller_side rx };

    #[inline]
    fn at(&self) -> ControllerPlaces {
        self.at
    }

    #[inline]
    fn is_settled(&self) -> bool {
        let at = self.at;
        at.state.is_serving() && !at.holding && at.at_frame_end && self.head == at.serve
    }

    #[inline]
    fn load(&mut self, ring: &RxRing, which: ControllerLoad) -> u16 {
        self.seat.load(&ring.0, which, &mut self.at)
    }

    #[inline]
    fn answer(&mut self, ring: &RxRing) {
        self.seat.answer(&ring.0, &mut self.at);
        if self.at.state.is_serving() {
            self.head = 0;
            self.finished = false;
        }
    }
}
