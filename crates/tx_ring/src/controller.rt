//! The controller's end: answers enabling and disabling, loads the tail, fetches posted descriptors with their buffers,
//! gives the buffers back once they are sent, and reports.
ghost use Rattle.std.specs.Prelude.{◌≡◌, ◌+◌, ◌%◌, ◌<◌, true, false, [], ◌∷◌, ◌++◌, length, Some, None};
ghost use Rattle.ring_model.specs.shared.Handshakes.{is_serving};
ghost use Rattle.shared_ring.specs.declared.events.ControllerEvent.TheVariants.{Own};
ghost use Rattle.tx_ring.specs.declared.events.TxControllerOwn.TheVariants.{Sent};
ghost use Rattle.descriptor.specs.Transmit.{rs_of};
ghost use Rattle.tx_ring.specs.Records.{posting_of};
ghost use Rattle.shared_ring.specs.Ends.{controller_of, controller_side};
ghost use Rattle.tx_ring.specs.Form.{tx};
ghost use Rattle.tx_ring.specs.Ends.{controller_size, controller_record, sent, known_ready, held, held_word, controller_state, is_owed, controller_grown};
ghost use Rattle.tx_ring.specs.Calls.{IsFreshController, Fetched, CanTake, SentTo, report_of};

use crate::direction::{TxControllerSeat, TxRule};
use crate::events::{TxControllerOwn, TxDriverOwn};
use crate::ring::TxRing;
use crate::steps;
use buffer_pool::Buf;
use descriptor::TxRead;
use ring_model::place_after;
use shared_ring::{ControllerEnd, ControllerLoad, ControllerPlaces, Sink};
use std::marker::Model;

/// The controller's end of a transmit ring. Contracts see the ring's identity and the record of the end's own steps.
///
/// `is_serving`, `is_holding`, `is_between_frames`, `owes_report`, `can_answer` and `ready` test the conditions of its
/// calls.
#[derive(Drop)]
pub struct TxControllerEnd {
    pub(crate) seat: TxControllerSeat,
    pub(crate) at: ControllerPlaces,
    // the place of the last sent segment, for its report
    last: u16,
    // whether the last fetched descriptor ends its frame (EOP)
    ends: bool,
    // whether it asks for a report (RS)
    asks: bool,
    // whether a report of the last sent segment is owed
    owed: bool,
}

impl Model for TxControllerEnd {
    ghost use Rattle.shared_ring.specs.Ends.{controller_of};
    ghost use Rattle.tx_ring.specs.Ends.{ControllerSide};
    ghost use Rattle.tx_ring.specs.Form.{tx};
    ghost use Rattle.tx_ring.specs.Calls.{IsControllerEnd};

    ghost Value = { ControllerSide };

    ghost view = { λ e. controller_of tx e.seat };

    ghost invariant = { λ e. IsControllerEnd (controller_of tx e.seat) e.at e.last e.ends e.asks e.owed };
}

impl TxControllerEnd {
    pub(crate) fn new(seat: TxControllerSeat) -> TxControllerEnd
        requires { IsFreshController (controller_of tx seat) }
        ensures { result ≡ controller_of tx seat }
    {
        let at = ControllerPlaces::new(seat.size());
        TxControllerEnd {
            seat,
            at,
            last: 0,
            ends: false,
            asks: false,
            owed: false,
        }
    }

    /// Loads the next descriptor and takes its buffer. Returns the buffer with the posted bytes, and the contents of
    /// the descriptor. While a frame is unfinished, all of its descriptors are known to be ready.
    #[inline]
    pub fn fetch(&mut self, ring: &TxRing) -> (Buf, TxRead)
        requires own { self.old.table ≡ ring.now }
        requires serving { is_serving (controller_state self.old) ≡ true }
        requires ready { 0 < known_ready self.old }
        requires held { held self.old ≡ None }
        requires paid { is_owed self.old ≡ false }
        ensures { Fetched self.old result.0 result.1 self.new }
    {
        let (buf, word) = self.seat.fetch(&ring.0, self.at.serve);
        self.at.holding = true;
        self.ends = TxRead::ends_frame(word);
        self.asks = TxRead::asks_report(word);
        let read = TxRead::new(
            buf.number(),
            buf.len() as u16,
            self.ends,
            self.asks,
            TxRead::frame_len(word) as u16,
        );
        (buf, read)
    }

    /// How many descriptors the end knows to be ready, from the next one up to the tail that it loaded last.
    #[inline]
    pub fn ready(&self) -> u32
        ensures { result ≡ known_ready self.now }
    {
        self.at.available as u32
    }

    /// Gives the fetched buffer back into its slot, as sent, and stores the head (TDH): the place after it. If its
    /// descriptor asked for a report (RS), the end owes one.
    #[inline]
    pub fn give_back(&mut self, ring: &TxRing, buf: Buf)
        requires own { self.old.table ≡ ring.now }
        requires held { held self.old ≡ Some buf }
        ensures step { self.new ≡ controller_grown self.old (Own (Sent ((length (sent self.old) + 1) % controller_size self.old) (held_word self.old) buf)) }
        ensures record { controller_record self.new ≡ record (controller_record self.old) { completed = sent self.old ++ posting_of (held_word self.old) buf ∷ []; held = None; head = (length (sent self.old) + 1) % controller_size self.old; barred = rs_of (held_word self.old) } }
    {
        let head = place_after(self.at.serve, self.at.size);
        steps::send(&mut self.seat, &ring.0, self.at.serve, head, buf);
        self.last = self.at.serve;
        self.at.serve = head;
        self.at.available -= 1;
        self.at.holding = false;
        self.at.at_frame_end = self.ends;
        self.owed = self.asks;
    }

    /// Sends the next segment: does the work of `fetch` and `give_back` in one call, and in between shows `sink` the
    /// buffer, which stays in its slot. That is faster. Returns whether the segment ends its frame.
    #[inline(always)]
    pub fn send<S: Sink>(&mut self, ring: &TxRing, sink: &mut S) -> bool
        requires own { self.old.table ≡ ring.now }
        requires serving { is_serving (controller_state self.old) ≡ true }
        requires ready { 0 < known_ready self.old }
        requires held { held self.old ≡ None }
        requires paid { is_owed self.old ≡ false }
        requires takes { CanTake S.may self.old sink.old }
        ensures { SentTo S.took self.old sink.old result self.new sink.new }
    {
        let head = place_after(self.at.serve, self.at.size);
        let word = steps::send_next(&mut self.seat, &ring.0, self.at.serve, head, sink);
        let ends = TxRead::ends_frame(word);
        self.last = self.at.serve;
        self.at.serve = head;
        self.at.available -= 1;
        self.at.at_frame_end = ends;
        self.owed = TxRead::asks_report(word);
        ends
    }

    /// Whether the last sent segment asked for a report that is not made yet.
    #[inline]
    pub fn owes_report(&self) -> bool
        ensures { result ≡ is_owed self.now }
    {
        self.owed
    }

    /// Reports the last that was sent, and so all segments before it (82599 datasheet, 7.2.3.5).
    #[inline]
    pub fn report(&mut self, ring: &TxRing)
        requires own { self.old.table ≡ ring.now }
        requires owed { is_owed self.old ≡ true }
        ensures step { self.new ≡ controller_grown self.old (Own (report_of (controller_size self.old) self.old.completion (length (sent self.old)))) }
        ensures record { controller_record self.new ≡ record (controller_record self.old) { barred = false } }
    {
        if self.seat.completion().is_by_head() {
            steps::report_head(&mut self.seat, &ring.0, self.at.serve);
            self.owed = false;
        } else {
            steps::report_status(&mut self.seat, &ring.0, self.last);
            self.owed = false;
        }
    }
}

impl ControllerEnd<TxDriverOwn, TxControllerOwn, TxRule> for TxControllerEnd {
    type Ring = TxRing;

    ghost side = { controller_side tx };

    #[inline]
    fn at(&self) -> ControllerPlaces {
        self.at
    }

    #[inline]
    fn is_settled(&self) -> bool {
        self.at.state.is_serving() && !self.at.holding && self.at.at_frame_end && !self.owed
    }

    #[inline]
    fn load(&mut self, ring: &TxRing, which: ControllerLoad) -> u16 {
        self.seat.load(&ring.0, which, &mut self.at)
    }

    #[inline]
    fn answer(&mut self, ring: &TxRing) {
        self.seat.answer(&ring.0, &mut self.at);
        self.owed = false;
    }
}
