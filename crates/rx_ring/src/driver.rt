//! The driver's end: enables and disables the queue, posts empty buffers, publishes them by the tail, and takes buffers
//! that were written back.
ghost use Rattle.std.specs.Prelude.{◌≡◌, ◌+◌, ◌-◌, ◌<◌, true, [], ◌∷◌, ◌++◌, length, Some};
ghost use Rattle.buffer_pool.specs.Buffer.{buffer};
ghost use Rattle.ring_model.specs.shared.Agreement.{bit};
ghost use Rattle.ring_model.specs.declared.states.DriverState.TheVariants as state;
ghost use Rattle.ring_model.specs.shared.Handshakes.{is_open, is_live, is_new, is_on, is_stopped};
ghost use Rattle.shared_ring.specs.declared.events.DriverEvent.TheVariants.{Posted, Published, Own};
ghost use Rattle.rx_ring.specs.declared.events.RxDriverOwn.TheVariants.{LoadedQuiet};
ghost use Rattle.rx_ring.specs.Ends.{driver_size, driver_record, posted, taken, returned, driver_state, known_of, saw_quiet, fill_place, driver_grown};
ghost use Rattle.shared_ring.specs.Ends.{driver_of, driver_side};
ghost use Rattle.rx_ring.specs.Form.{rx};
ghost use Rattle.rx_ring.specs.Calls.{IsFreshDriver, Polled, told_quiet, Reclaimed, FoundLeft, GoneOver};

use crate::direction::{RxDriverSeat, RxRule};
use crate::events::{RxControllerOwn, RxDriverOwn};
use crate::ring::RxRing;
use crate::steps;
use buffer_pool::Buf;
use ring_model::{place_after, places_between};
use shared_ring::{Control, DriverEnd, DriverPlaces, HandshakeStep};
use std::marker::Model;

/// The result of a poll of the next descriptor.
#[derive(Drop)]
pub enum Poll {
    /// DD was set.
    Segment {
        /// The buffer, with the bytes that were written to it.
        buf: Buf,
        /// Whether the bytes end their frame (EOP).
        eop: bool,
    },
    /// The next descriptor was loaded, and DD was not set.
    NotDone,
    /// No posted buffer is out. No step was made.
    Empty,
    /// The end has not seen the queue enabled, or saw its disabling answered. No step was made.
    Off,
}

/// The driver's end of a receive ring. Contracts see the ring's identity and the record of the end's own steps.
///
/// `is_new`, `is_open`, `is_live`, `is_on` and `is_stopped` test the state that a call requires.
#[derive(Drop)]
pub struct RxDriverEnd {
    pub(crate) seat: RxDriverSeat,
    pub(crate) at: DriverPlaces,
}

impl Model for RxDriverEnd {
    ghost use Rattle.shared_ring.specs.Ends.{driver_of};
    ghost use Rattle.rx_ring.specs.Ends.{DriverSide};
    ghost use Rattle.rx_ring.specs.Form.{rx};
    ghost use Rattle.rx_ring.specs.Calls.{IsDriverEnd};

    ghost Value = { DriverSide };

    ghost view = { λ e. driver_of rx e.seat };

    ghost invariant = { λ e. IsDriverEnd (driver_of rx e.seat) e.at };
}

impl RxDriverEnd {
    pub(crate) fn new(seat: RxDriverSeat) -> RxDriverEnd
        requires { IsFreshDriver (driver_of rx seat) }
        ensures { result ≡ driver_of rx seat }
    {
        let at = DriverPlaces::new(seat.size());
        RxDriverEnd { seat, at }
    }

    /// Posts an empty buffer at the next place: puts it into the slot and stores 0 as the descriptor, which clears DD.
    /// The controller sees it after `publish`.
    #[inline]
    pub fn post(&mut self, ring: &RxRing, buf: Buf)
        requires own { self.old.table ≡ ring.now }
        requires open { is_open (driver_state self.old) ≡ true }
        requires room { length (posted self.old) + 1 < returned self.old + driver_size self.old }
        requires empty { buf ≡ buffer buf.number [] }
        ensures step { self.new ≡ driver_grown self.old (Posted (fill_place self.old) 0 buf) }
        ensures record { driver_record self.new ≡ record (driver_record self.old) { posted = posted self.old ++ buf.number ∷ [] } }
        ensures known { known_of self.new ≡ known_of self.old }
    {
        self.seat.post(&ring.0, self.at.fill, 0, buf);
        self.at.fill = place_after(self.at.fill, self.at.size);
        self.at.out += 1;
    }

    /// Stores the tail (RDT), which gives all posted buffers to the controller.
    #[inline]
    pub fn publish(&mut self, ring: &RxRing)
        requires own { self.old.table ≡ ring.now }
        requires open { is_open (driver_state self.old) ≡ true }
        ensures step { self.new ≡ driver_grown self.old (Published (fill_place self.old)) }
        ensures record { driver_record self.new ≡ record (driver_record self.old) { published = length (posted self.old) } }
        ensures known { known_of self.new ≡ known_of self.old }
    {
        self.seat.publish(&ring.0, self.at.fill);
    }

    /// Loads the next descriptor, and takes its buffer if DD is set. The segments up to one with EOP form a lawful
    /// frame, in the order in which they were stored.
    #[inline]
    pub fn poll(&mut self, ring: &RxRing) -> Poll
        requires own { self.old.table ≡ ring.now }
        ensures found { Polled self.old result self.new }
        ensures own { self.new.table ≡ self.old.table }
    {
        if !self.at.state.is_live() {
            return Poll::Off;
        }
        if self.at.out == 0 {
            return Poll::Empty;
        }
        match steps::take(&mut self.seat, &ring.0, self.at.next) {
            None => Poll::NotDone,
            Some((buf, eop)) => {
                self.at.next = place_after(self.at.next, self.at.size);
                self.at.out -= 1;
                Poll::Segment { buf, eop }
            }
        }
    }

    /// Loads the quiet word. Returns whether the controller said that it stores no more. If it did, and a later `poll`
    /// returns `NotDone` or `Empty`, everything stored is taken.
    #[inline]
    pub fn is_quiet(&mut self, ring: &RxRing) -> bool
        requires own { self.old.table ≡ ring.now }
        ensures step { self.new ≡ driver_grown self.old (Own (LoadedQuiet (bit result))) }
        ensures record { driver_record self.new ≡ driver_record self.old }
        ensures seen { result ≡ true → saw_quiet self.new ≡ true }
        ensures known { known_of self.new ≡ told_quiet result self.old }
    {
        steps::load_quiet(&mut self.seat, &ring.0)
    }

    /// Loads the head. Returns the number of segments that were stored and not taken when the disabling was answered.
    /// The number is final: nothing more is stored in this epoch.
    #[inline]
    pub fn left(&mut self, ring: &RxRing) -> u32
        requires own { self.old.table ≡ ring.now }
        requires stopped { is_stopped (driver_state self.old) ≡ true }
        requires whole { returned self.old ≡ length (taken self.old) }
        ensures { FoundLeft self.old result self.new }
    {
        let head = self.seat.load_head(&ring.0);
        places_between(self.at.next, head, self.at.size) as u32
    }

    /// Takes back the oldest buffer that is out, after the disabling was seen answered. Returns `None` if all are back.
    /// The buffer has whatever bytes were written to it.
    #[inline]
    pub fn reclaim(&mut self, ring: &RxRing) -> Option<Buf>
        requires own { self.old.table ≡ ring.now }
        requires stopped { is_stopped (driver_state self.old) ≡ true }
        ensures back { Reclaimed self.old result self.new }
        ensures own { self.new.table ≡ self.old.table }
    {
        self.seat.reclaim_next(&ring.0, &mut self.at)
    }

    /// Clears the head, the tail and the quiet word once all buffers are back, so that the queue can be enabled again.
    /// A new epoch begins.
    pub fn renew(&mut self, ring: &RxRing)
        requires own { self.old.table ≡ ring.now }
        requires stopped { is_stopped (driver_state self.old) ≡ true }
        requires back { returned self.old ≡ length (posted self.old) }
        ensures { GoneOver self.old self.new }
    {
        self.seat.clear_head(&ring.0);
        self.seat.clear_tail(&ring.0);
        steps::clear_quiet(&mut self.seat, &ring.0, self.at.fill);
        self.at = DriverPlaces::new(self.at.size);
    }
}

impl DriverEnd<RxDriverOwn, RxControllerOwn, RxRule> for RxDriverEnd {
    type Ring = RxRing;

    ghost side = { driver_side rx };

    #[inline]
    fn at(&self) -> DriverPlaces {
        self.at
    }

    #[inline]
    fn control_step(&mut self, ring: &RxRing, step: HandshakeStep) -> Control {
        self.seat.control_step(&ring.0, step, &mut self.at.state)
    }
}
