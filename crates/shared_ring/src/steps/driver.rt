//! The driver's shared steps.
ghost use Rattle.std.specs.Prelude.{◌≡◌, ◌+◌, ◌<◌, true, length};
ghost use Rattle.ring_model.specs.shared.Handshakes.{is_open, is_stopped, is_cleared};
ghost use Rattle.shared_ring.specs.Words.{control_word};
ghost use Rattle.shared_ring.specs.declared.events.DriverEvent.TheVariants.{Posted, Published, LoadedControl, LoadedHead, ClearedHead, ClearedTail};
ghost use Rattle.shared_ring.specs.Calls.{IsPoster, MayAsk, MayControlStep, StoredBy, control_event, after_control_step, ReclaimedNext};
ghost use Rattle.shared_ring.specs.Ends.{driver_record, posted, returned, driver_state, fill_place, next_place, driver_of, grown};
ghost use Rattle.shared_ring.specs.Plays.{asks};
ghost use Rattle.shared_ring.specs.Steps.{CameBack};

use super::own::Reclaiming;
use super::{EndSeat, Ring};
use crate::accesses::{load, store};
use crate::control::Control;
use crate::direction::Direction;
use crate::ends::{DriverPlaces, HandshakeStep};
use crate::events::DriverEvent;
use crate::plays::{
    AskStore, ClearHeadStore, ClearTailStore, ControlLoad, Gives, HeadLoad, Loads, PostStore,
    PublishStore, Stores,
};
use crate::registers::{CONTROL, TAIL};
use crate::slots::put_in;
use buffer_pool::Buf;
use ring_model::{DriverState, place_after};

impl<D, C, R: Direction<D, C>> EndSeat<DriverEvent<D>, D, C, R> {
    /// A1, B1: puts a buffer into the next slot and stores the word as its descriptor.
    #[inline]
    pub fn post(&mut self, ring: &Ring<D, C, R>, place: u16, word: u64, buf: Buf)
        requires own { self.old.table ≡ ring.now }
        requires place { place ≡ fill_place (driver_of R.form self.old) }
        requires open { is_open (driver_state (driver_of R.form self.old)) ≡ true }
        requires room { length (posted (driver_of R.form self.old)) + 1 < returned (driver_of R.form self.old) + self.old.table.slots }
        requires may { R.form.MayPost self.old.table.slots (posted (driver_of R.form self.old)) word buf }
        ensures { self.new ≡ grown self.old (Posted place word buf) }
    {
        let place = place as usize;
        put_in(&ring.table, &mut self.seat, place, buf);
        store::<Gives<PostStore, _, R>, _, _, _, _>(&ring.table, &mut self.seat, place, word);
    }

    /// A2, B2: stores the tail (RDT, TDT).
    #[inline]
    pub fn publish(&mut self, ring: &Ring<D, C, R>, tail: u16)
        requires own { self.old.table ≡ ring.now }
        requires tail { tail ≡ fill_place (driver_of R.form self.old) }
        requires open { is_open (driver_state (driver_of R.form self.old)) ≡ true }
        requires may { R.form.MayPublish (posted (driver_of R.form self.old)) }
        ensures { self.new ≡ grown self.old (Published tail) }
    {
        let (index, tail) = (self.size as usize + TAIL, tail as u64);
        store::<Stores<PublishStore, _, R>, _, _, _, _>(&ring.table, &mut self.seat, index, tail);
    }

    /// C1 or C5: stores the request as the control word (RXDCTL, TXDCTL), 1 for enabling or 3 for disabling.
    #[inline]
    pub fn ask(&mut self, ring: &Ring<D, C, R>, request: Control)
        requires own { self.old.table ≡ ring.now }
        requires may { MayAsk request (driver_state (driver_of R.form self.old)) }
        ensures { self.new ≡ grown self.old (asks (control_word request)) }
    {
        let index = self.size as usize + CONTROL;
        let value = request.word() as u64;
        store::<Stores<AskStore, _, R>, _, _, _, _>(&ring.table, &mut self.seat, index, value);
    }

    /// C4: loads the control word (RXDCTL, TXDCTL) for the controller's answer.
    #[inline]
    pub fn load_control(&mut self, ring: &Ring<D, C, R>) -> Control
        requires own { self.old.table ≡ ring.now }
        ensures { self.new ≡ grown self.old (LoadedControl (control_word result)) }
    {
        let index = self.size as usize + CONTROL;
        let value = load::<Loads<ControlLoad, _, R>, _, _, _, _>(
            &ring.table,
            &mut self.seat,
            index,
        );
        Control::of_word(value)
    }

    /// Loads the head (RDH, TDH).
    #[inline]
    pub fn load_head(&mut self, ring: &Ring<D, C, R>) -> u16
        requires own { self.old.table ≡ ring.now }
        requires stopped { is_stopped (driver_state (driver_of R.form self.old)) ≡ true }
        ensures step { self.new ≡ grown self.old (LoadedHead result) }
        ensures below { result < self.old.table.slots }
    {
        let index = self.size as usize;
        load::<Loads<HeadLoad, _, R>, _, _, _, _>(&ring.table, &mut self.seat, index) as u16
    }

    /// C6: stores 0 as the oldest descriptor that is out, and takes its buffer back.
    #[inline]
    pub fn reclaim(&mut self, ring: &Ring<D, C, R>, place: u16) -> Buf
        requires own { self.old.table ≡ ring.now }
        requires place { place ≡ next_place (driver_of R.form self.old) }
        requires stopped { is_stopped (driver_state (driver_of R.form self.old)) ≡ true }
        requires out { returned (driver_of R.form self.old) < length (posted (driver_of R.form self.old)) }
        ensures { CameBack (driver_of R.form self.old) place result (driver_of R.form self.new) }
    {
        let _size = self.size(); // which says that the length is lawful
        self.clear_own::<Reclaiming<C, R>>(ring, place)
    }

    /// C6: takes back the oldest buffer that is out. Returns `None` if none is out.
    #[inline]
    pub fn reclaim_next(&mut self, ring: &Ring<D, C, R>, at: &mut DriverPlaces) -> Option<Buf>
        requires own { self.old.table ≡ ring.now }
        requires at { IsPoster self.old.table.slots (driver_record (driver_of R.form self.old)) at.old }
        requires stopped { is_stopped (driver_state (driver_of R.form self.old)) ≡ true }
        ensures back { ReclaimedNext (driver_of R.form self.old) result (driver_of R.form self.new) }
        ensures at { IsPoster self.new.table.slots (driver_record (driver_of R.form self.new)) at.new }
    {
        if at.out == 0 {
            return None;
        }
        let buf = self.reclaim(ring, at.next);
        at.next = place_after(at.next, at.size);
        at.out -= 1;
        Some(buf)
    }

    /// C9: stores 0 as the head (RDH, TDH).
    #[inline]
    pub fn clear_head(&mut self, ring: &Ring<D, C, R>)
        requires own { self.old.table ≡ ring.now }
        requires stopped { is_stopped (driver_state (driver_of R.form self.old)) ≡ true }
        requires back { returned (driver_of R.form self.old) ≡ length (posted (driver_of R.form self.old)) }
        ensures { self.new ≡ grown self.old ClearedHead }
    {
        let index = self.size as usize;
        store::<Stores<ClearHeadStore, _, R>, _, _, _, _>(&ring.table, &mut self.seat, index, 0);
    }

    /// C10: stores 0 as the tail (RDT, TDT), if this does not end the epoch.
    #[inline]
    pub fn clear_tail(&mut self, ring: &Ring<D, C, R>)
        requires own { self.old.table ≡ ring.now }
        requires may { R.form.MayClearTail self.old.completion }
        requires cleared { is_cleared (driver_state (driver_of R.form self.old)) ≡ true }
        ensures { self.new ≡ grown self.old ClearedTail }
    {
        let index = self.size as usize + TAIL;
        store::<Stores<ClearTailStore, _, R>, _, _, _, _>(&ring.table, &mut self.seat, index, 0);
    }

    /// C1, C4 or C5: makes a step of the handshake and updates the driver's state. Returns the control value that was
    /// stored or loaded.
    #[inline]
    pub fn control_step(
        &mut self,
        ring: &Ring<D, C, R>,
        step: HandshakeStep,
        state: &mut DriverState,
    ) -> Control
        requires own { self.old.table ≡ ring.now }
        requires is { state.old ≡ driver_state (driver_of R.form self.old) }
        requires may { MayControlStep step (driver_state (driver_of R.form self.old)) }
        ensures stored { StoredBy step result }
        ensures step { self.new ≡ grown self.old (control_event step (control_word result)) }
        ensures state { state.new ≡ after_control_step step state.old (control_word result) }
    {
        match step {
            HandshakeStep::AskEnable => {
                self.ask(ring, Control::EnableAsked);
                *state = DriverState::Asked;
                Control::EnableAsked
            }
            HandshakeStep::LoadControl => {
                let control = self.load_control(ring);
                *state = state.learned(control.word());
                control
            }
            HandshakeStep::AskDisable => {
                self.ask(ring, Control::DisableAsked);
                *state = DriverState::Stopping;
                Control::DisableAsked
            }
        }
    }
}
