//! The driver's end: enables and disables the queue, posts frames, publishes them by the tail, looks for reports, and
//! cleans up after reported frames.
ghost use Rattle.std.specs.Prelude.{◌≡◌, ◌+◌, ◌-◌, ◌%◌, ◌<◌, ◌≤◌, true, false, [], ◌∷◌, ◌++◌, length};
ghost use Rattle.std.specs.Box.{boxed_slice_items};
ghost use Rattle.buffer_pool.specs.Buffer.{buffer};
ghost use Rattle.ring_model.specs.declared.states.DriverState.TheVariants as state;
ghost use Rattle.ring_model.specs.shared.Frames.{unfinished};
ghost use Rattle.ring_model.specs.shared.Handshakes.{is_open, is_live, is_new, is_on, is_stopped};
ghost use Rattle.ring_model.specs.transmit.Agreement.{tx_word};
ghost use Rattle.ring_model.specs.transmit.Frames.{MayFollow};
ghost use Rattle.ring_model.specs.transmit.Ring.{are_whole, carried};
ghost use Rattle.shared_ring.specs.declared.events.DriverEvent.TheVariants.{Posted, Published};
ghost use Rattle.shared_ring.specs.Ends.{driver_of, driver_side};
ghost use Rattle.tx_ring.specs.Form.{tx};
ghost use Rattle.tx_ring.specs.Ends.{driver_size, driver_record, posted, cleaned, returned, seen_reported, driver_state, known_of, fill_place, driver_grown};
ghost use Rattle.tx_ring.specs.Calls.{IsFreshDriver, item_of, OldestAhead, Polled, CleanedOne, Reclaimed, FoundLeft, GoneOver};

use crate::direction::{TxDriverSeat, TxRule};
use crate::events::{TxControllerOwn, TxDriverOwn};
use crate::ring::TxRing;
use crate::steps;
use buffer_pool::Buf;
use ring_model::{place_after, places_between};
use shared_ring::{Control, DriverEnd, DriverPlaces, HandshakeStep};
use std::alloc::Global;
use std::boxed::BoxedSlice;
use std::marker::Model;

/// The driver's end of a transmit ring. Contracts see the ring's identity and the record of the end's own steps.
///
/// `is_new`, `is_open`, `is_live`, `is_on`, `is_stopped`, `is_whole` and `reported` test the conditions of its calls.
#[derive(Drop)]
pub struct TxDriverEnd {
    pub(crate) seat: TxDriverSeat,
    pub(crate) at: DriverPlaces,
    // the place after the newest item that the end saw reported
    seen: u16,
    // how many items the end saw reported and has not cleaned
    done: u16,
    // how many items are posted and not seen reported
    unseen: u16,
    // whether the last posted segment ends a frame, or nothing is posted
    whole: bool,
    // whether a report was asked for, by place
    asks: BoxedSlice<bool, Global>,
    // how many of the oldest items not seen reported are known to ask for no report
    passed: u16,
}

impl Model for TxDriverEnd {
    ghost use Rattle.shared_ring.specs.Ends.{driver_of};
    ghost use Rattle.tx_ring.specs.Ends.{DriverSide};
    ghost use Rattle.tx_ring.specs.Form.{tx};
    ghost use Rattle.tx_ring.specs.Calls.{IsDriverEnd};
    ghost use Rattle.std.specs.Box.{boxed_slice_items};

    ghost Value = { DriverSide };

    ghost view = { λ e. driver_of tx e.seat };

    ghost invariant = { λ e. IsDriverEnd (driver_of tx e.seat) e.at e.seen e.done e.unseen e.whole (boxed_slice_items e.asks) e.passed };
}

impl TxDriverEnd {
    pub(crate) fn new(seat: TxDriverSeat, asks: BoxedSlice<bool, Global>) -> TxDriverEnd
        requires fresh { IsFreshDriver (driver_of tx seat) }
        requires asks { length (boxed_slice_items asks) ≡ driver_size (driver_of tx seat) }
        ensures { result ≡ driver_of tx seat }
    {
        let at = DriverPlaces::new(seat.size());
        TxDriverEnd {
            seat,
            at,
            seen: 0,
            done: 0,
            unseen: 0,
            whole: true,
            asks,
            passed: 0,
        }
    }

    /// How many buffers the end saw reported and has not cleaned.
    #[inline]
    pub fn reported(&self) -> u32
        ensures { result + length (cleaned self.now) ≡ seen_reported self.now }
    {
        self.done as u32
    }

    /// Whether the last posted segment ends a frame, or nothing is posted.
    #[inline]
    pub fn is_whole(&self) -> bool
        ensures value { result ≡ are_whole (posted self.now) }
        ensures rest { result ≡ true → unfinished carried (posted self.now) ≡ [] }
    {
        self.whole
    }

    /// Posts a buffer with the next segment of a frame: it goes into the slot, and the descriptor says its length, EOP
    /// if it ends the frame, RS if it asks for a report, and the length of the whole frame (82599 datasheet,
    /// 7.2.3.2.4). The controller sees it after `publish`.
    #[inline]
    pub fn post(&mut self, ring: &TxRing, buf: Buf, eop: bool, rs: bool, paylen: u16)
        requires own { self.old.table ≡ ring.now }
        requires open { is_open (driver_state self.old) ≡ true }
        requires room { length (posted self.old) + 1 < returned self.old + driver_size self.old }
        requires real { buf ≡ buffer buf.number buf.bytes }
        requires follows { MayFollow (driver_size self.old) (unfinished carried (posted self.old)) (item_of buf eop rs paylen) }
        ensures step { self.new ≡ driver_grown self.old (Posted (fill_place self.old) (tx_word (length buf.bytes) eop rs paylen) buf) }
        ensures record { driver_record self.new ≡ record (driver_record self.old) { posted = posted self.old ++ item_of buf eop rs paylen ∷ [] } }
        ensures known { known_of self.new ≡ known_of self.old }
    {
        steps::post(&mut self.seat, &ring.0, self.at.fill, buf, eop, rs, paylen);
        self.asks[self.at.fill as usize] = rs;
        self.at.fill = place_after(self.at.fill, self.at.size);
        self.at.out += 1;
        self.unseen += 1;
        self.whole = eop;
    }

    /// Stores the tail (TDT), which gives all posted segments to the controller.
    #[inline]
    pub fn publish(&mut self, ring: &TxRing)
        requires own { self.old.table ≡ ring.now }
        requires open { is_open (driver_state self.old) ≡ true }
        requires whole { are_whole (posted self.old) ≡ true }
        ensures step { self.new ≡ driver_grown self.old (Published (fill_place self.old)) }
        ensures record { driver_record self.new ≡ record (driver_record self.old) { published = length (posted self.old) } }
        ensures known { known_of self.new ≡ known_of self.old }
    {
        self.seat.publish(&ring.0, self.at.fill);
    }

    // Returns how many places the oldest outstanding report is ahead of those seen reported.
    fn oldest(&self) -> Option<u16>
        ensures { OldestAhead self.now result }
    {
        let mut place = place_ahead(self.seen, self.passed, self.at.size);
        for ahead in self.passed..self.unseen {
            if self.asks[place as usize] {
                return Some(ahead);
            }
            place = place_after(place, self.at.size);
        }
        None
    }

    /// Looks for the oldest report that was asked for and not seen, and returns whether it is made. If it is, all
    /// buffers up to it can be cleaned (82599 datasheet, 7.2.3.5). Makes no step if no report is outstanding or the
    /// queue is not live.
    #[inline]
    pub fn poll_report(&mut self, ring: &TxRing) -> bool
        requires own { self.old.table ≡ ring.now }
        ensures found { Polled self.old result self.new }
        ensures own { self.new.table ≡ self.old.table }
    {
        if !self.at.state.is_live() {
            return false;
        }
        let Some(ahead) = self.oldest() else {
            return false;
        };
        let size = self.at.size;
        let place = place_ahead(self.seen, ahead, size);
        if !steps::find_report(&mut self.seat, &ring.0, place, self.seen) {
            self.passed = ahead;
            return false;
        }
        self.passed = 0;
        self.seen = place_after(place, size);
        self.done += ahead + 1;
        self.unseen -= ahead + 1;
        true
    }

    /// Takes back the oldest reported buffer, with the bytes that were posted.
    #[inline]
    pub fn clean(&mut self, ring: &TxRing) -> Buf
        requires own { self.old.table ≡ ring.now }
        requires live { is_live (driver_state self.old) ≡ true }
        requires reported { length (cleaned self.old) < seen_reported self.old }
        ensures { CleanedOne self.old result self.new }
    {
        let buf = steps::clean(&mut self.seat, &ring.0, self.at.next);
        self.at.next = place_after(self.at.next, self.at.size);
        self.at.out -= 1;
        self.done -= 1;
        buf
    }

    /// Loads the head. Returns the number of postings that were not sent when the disabling was answered. The number is
    /// final: nothing more is sent in this epoch.
    #[inline]
    pub fn left(&mut self, ring: &TxRing) -> u32
        requires own { self.old.table ≡ ring.now }
        requires stopped { is_stopped (driver_state self.old) ≡ true }
        ensures { FoundLeft self.old result self.new }
    {
        let head = self.seat.load_head(&ring.0);
        places_between(head, self.at.fill, self.at.size) as u32
    }

    /// Takes back the oldest buffer that is out, after the disabling was seen answered. Returns `None` if all are back.
    /// The buffer has the bytes that were posted.
    #[inline]
    pub fn reclaim(&mut self, ring: &TxRing) -> Option<Buf>
        requires own { self.old.table ≡ ring.now }
        requires stopped { is_stopped (driver_state self.old) ≡ true }
        ensures back { Reclaimed self.old result self.new }
        ensures own { self.new.table ≡ self.old.table }
    {
        self.seat.reclaim_next(&ring.0, &mut self.at)
    }

    /// Clears the head, the tail, and the head word of reports if there is one, once all buffers are back, so that the
    /// queue can be enabled again. A new epoch begins.
    pub fn renew(&mut self, ring: &TxRing)
        requires own { self.old.table ≡ ring.now }
        requires stopped { is_stopped (driver_state self.old) ≡ true }
        requires back { returned self.old ≡ length (posted self.old) }
        ensures { GoneOver self.old self.new }
    {
        steps::go_over(&mut self.seat, &ring.0, self.at.fill);
        self.at = DriverPlaces::new(self.at.size);
        self.seen = 0;
        self.done = 0;
        self.unseen = 0;
        self.whole = true;
        self.passed = 0;
    }
}

/// Returns the place `ahead` places after `place`.
#[inline]
fn place_ahead(place: u16, ahead: u16, size: u16) -> u16
    requires place { place < size }
    requires ahead { ahead ≤ size }
    ensures { result ≡ (place + ahead) % size }
{
    let before = size - place; // places up to the first
    if ahead < before {
        place + ahead
    } else {
        ahead - before
    }
}

impl DriverEnd<TxDriverOwn, TxControllerOwn, TxRule> for TxDriverEnd {
    type Ring = TxRing;

    ghost side = { driver_side tx };

    #[inline]
    fn at(&self) -> DriverPlaces {
        self.at
    }

    #[inline]
    fn control_step(&mut self, ring: &TxRing, step: HandshakeStep) -> Control {
        self.seat.control_step(&ring.0, step, &mut self.at.state)
    }
}
