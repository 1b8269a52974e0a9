//! The controller's shared steps.
ghost use Rattle.std.specs.Prelude.{◌≡◌, ◌<◌, true, false, None};
ghost use Rattle.ring_model.specs.shared.Handshakes.{is_serving};
ghost use Rattle.shared_ring.specs.Calls.{IsServer, MayTell, MayAnswer, Answered, MayLoadWord, LoadedWord};
ghost use Rattle.shared_ring.specs.Words.{control_word};
ghost use Rattle.shared_ring.specs.declared.events.ControllerEvent.TheVariants.{LoadedRequest};
ghost use Rattle.shared_ring.specs.Ends.{controller_record, known_ahead, held, controller_state, is_barred, serve_place, controller_of, grown};
ghost use Rattle.shared_ring.specs.Plays.{answers};
ghost use Rattle.shared_ring.specs.Steps.{FoundTail, CameOut};

use super::{EndSeat, Ring};
use crate::accesses::{load, store};
use crate::control::Control;
use crate::direction::Direction;
use crate::ends::{ControllerLoad, ControllerPlaces};
use crate::events::ControllerEvent;
use crate::plays::{AnswerStore, Loads, NextLoad, RequestLoad, Stores, TailLoad, Takes};
use crate::registers::{CONTROL, TAIL};
use crate::slots::take_out;
use buffer_pool::Buf;
use ring_model::{ControllerState, places_between};

impl<D, C, R: Direction<D, C>> EndSeat<ControllerEvent<C>, D, C, R> {
    /// A3, B3: loads the tail (RDT, TDT).
    #[inline]
    pub fn look(&mut self, ring: &Ring<D, C, R>) -> u16
        requires own { self.old.table ≡ ring.now }
        requires serving { is_serving (controller_state (controller_of R.form self.old)) ≡ true }
        ensures { FoundTail (controller_of R.form self.old) result (controller_of R.form self.new) }
    {
        let index = self.size as usize + TAIL;
        load::<Loads<TailLoad<D, R>, _, R>, _, _, _, _>(&ring.table, &mut self.seat, index) as u16
    }

    /// A4, B4: loads the next descriptor and takes its buffer. Returns the buffer and the word.
    #[inline]
    pub fn fetch(&mut self, ring: &Ring<D, C, R>, place: u16) -> (Buf, u64)
        requires own { self.old.table ≡ ring.now }
        requires place { place ≡ serve_place (controller_of R.form self.old) }
        requires serving { is_serving (controller_state (controller_of R.form self.old)) ≡ true }
        requires ahead { 0 < known_ahead (controller_of R.form self.old) }
        requires held { held (controller_of R.form self.old) ≡ None }
        requires free { is_barred (controller_of R.form self.old) ≡ false }
        ensures { CameOut (controller_of R.form self.old) place result.0 result.1 (controller_of R.form self.new) }
    {
        let place = place as usize;
        let word = load::<Takes<NextLoad<D, R>, _, R>, _, _, _, _>(
            &ring.table,
            &mut self.seat,
            place,
        );
        let buf = take_out(&ring.table, &mut self.seat, place);
        (buf, word)
    }

    /// C2: loads the control word (RXDCTL, TXDCTL) for the driver's request.
    #[inline]
    pub fn load_request(&mut self, ring: &Ring<D, C, R>) -> Control
        requires own { self.old.table ≡ ring.now }
        ensures { self.new ≡ grown self.old (LoadedRequest (control_word result)) }
    {
        let index = self.size as usize + CONTROL;
        let value = load::<Loads<RequestLoad, _, R>, _, _, _, _>(
            &ring.table,
            &mut self.seat,
            index,
        );
        Control::of_word(value)
    }

    /// C3: stores the answer as the control word (RXDCTL, TXDCTL), 2 for enabled or 0 for disabled.
    #[inline]
    pub fn tell(&mut self, ring: &Ring<D, C, R>, told: Control)
        requires own { self.old.table ≡ ring.now }
        requires may { MayTell told (controller_of R.form self.old) }
        ensures { self.new ≡ grown self.old (answers (control_word told)) }
    {
        let index = self.size as usize + CONTROL;
        let value = told.word() as u64;
        store::<Stores<AnswerStore, _, R>, _, _, _, _>(&ring.table, &mut self.seat, index, value);
    }

    /// A3, B3 or C2: loads the tail or the control word, and updates `at` with it.
    #[inline]
    pub fn load(
        &mut self,
        ring: &Ring<D, C, R>,
        which: ControllerLoad,
        at: &mut ControllerPlaces,
    ) -> u16
        requires own { self.old.table ≡ ring.now }
        requires at { IsServer R.form.carries self.old.table.slots (controller_record (controller_of R.form self.old)) at.old }
        requires may { MayLoadWord which (controller_of R.form self.old) }
        ensures loaded { LoadedWord which (controller_of R.form self.old) result (controller_of R.form self.new) }
        ensures at { IsServer R.form.carries self.new.table.slots (controller_record (controller_of R.form self.new)) at.new }
    {
        match which {
            ControllerLoad::Tail => {
                let tail = self.look(ring);
                at.available = places_between(at.serve, tail, at.size);
                tail
            }
            ControllerLoad::Request => {
                at.seen = self.load_request(ring);
                at.seen.word() as u16
            }
        }
    }

    /// C3: stores the answer as the control word (RXDCTL, TXDCTL): 2, which begins an epoch, or 0.
    #[inline]
    pub fn answer(&mut self, ring: &Ring<D, C, R>, at: &mut ControllerPlaces)
        requires own { self.old.table ≡ ring.now }
        requires at { IsServer R.form.carries self.old.table.slots (controller_record (controller_of R.form self.old)) at.old }
        requires asked { MayAnswer (controller_of R.form self.old) }
        ensures answered { Answered (controller_of R.form self.old) (controller_of R.form self.new) }
        ensures at { IsServer R.form.carries self.new.table.slots (controller_record (controller_of R.form self.new)) at.new }
    {
        if at.state.is_serving() {
            self.tell(ring, Control::Disabled);
            at.state = ControllerState::Ended;
            at.seen = Control::Disabled;
        } else {
            self.tell(ring, Control::Enabled);
            at.serve = 0;
            at.available = 0;
            at.at_frame_end = true;
            at.state = ControllerState::Serving;
            at.seen = Control::Enabled;
        }
    }
}
