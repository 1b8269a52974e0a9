//! The common interface of the ends of both directions: their places and states, and the calls that depend on nothing
//! else.
ghost use Rattle.std.specs.Prelude.{◌≡◌, ◌+◌, ◌<◌, ◌↔◌, true, false, [], length, None, IsTrue};
ghost use Rattle.limits.specs.RingLength.{IsRingLength};
ghost use Rattle.ring_model.specs.declared.states.DriverState.TheVariants as state;
ghost use Rattle.ring_model.specs.shared.Handshakes.{is_open, is_live, is_new, is_on, is_stopped, is_serving, learned};
ghost use Rattle.ring_model.specs.shared.Frames.{unfinished};
ghost use Rattle.ring_model.specs.declared.states.ControllerState.TheVariants as controller_state_is;
ghost use Rattle.shared_ring.specs.Calls.{IsPoster, MayControlStep, StoredBy, control_event, after_control_step, IsServer, IsSettled, MayAnswer, Answered, MayLoadWord, LoadedWord, FoundAhead};
ghost use Rattle.shared_ring.specs.Ends.{Side, driver_of, driver_size, driver_record, posted, returned, driver_state, known_of, driver_grown, controller_of, controller_size, controller_record, completed, known_ahead, held, controller_state, is_at_frame_end, controller_grown};
ghost use Rattle.shared_ring.specs.Words.{control_word};
ghost use Rattle.shared_ring.specs.declared.events.DriverEvent.{DriverEvent};
ghost use Rattle.shared_ring.specs.declared.events.DriverEvent.TheVariants.{AskedEnable, LoadedControl, AskedDisable};
ghost use Rattle.shared_ring.specs.declared.control.Control.TheVariants as control;
ghost use Rattle.shared_ring.specs.declared.events.ControllerEvent.{ControllerEvent};
ghost use Rattle.shared_ring.specs.declared.events.ControllerEvent.TheVariants.{LoadedRequest};

use crate::control::Control;
use crate::direction::Direction;
use ring_model::{ControllerState, DriverState};

/// A ring of one direction, shared by its two ends.
pub trait SharedRing {
    ghost use Rattle.atomic_table.specs.Seated.{TableId};

    /// The identity of its table.
    ghost table: { Self → TableId };
}

/// The places and the state of a driver's end.
#[derive(Clone, Copy)]
pub struct DriverPlaces {
    /// The ring's length.
    pub size: u16,
    /// The next place to post.
    pub fill: u16,
    /// The oldest place that is out: posted, and not back.
    pub next: u16,
    /// How many places are out.
    pub out: u16,
    /// How far the driver is in enabling and disabling the queue.
    pub state: DriverState,
}

impl DriverPlaces {
    /// Returns the places at the beginning of an epoch in a ring of this length.
    pub fn new(size: u16) -> DriverPlaces
        ensures { result ≡ record { size = size; fill = 0; next = 0; out = 0; state = state.New } }
    {
        DriverPlaces {
            size,
            fill: 0,
            next: 0,
            out: 0,
            state: DriverState::New,
        }
    }
}

/// A step of the driver's half of the handshake.
#[derive(Clone, Copy)]
pub enum HandshakeStep {
    /// C1: stores 1 as the control word (RXDCTL, TXDCTL).
    AskEnable,
    /// C4: loads the control word (RXDCTL, TXDCTL).
    LoadControl,
    /// C5: stores 3 as the control word (RXDCTL, TXDCTL).
    AskDisable,
}

/// A driver's end of a ring of either direction. `is_new`, `is_open`, `is_live`, `is_on` and `is_stopped` test the
/// state that a call requires.
pub trait DriverEnd<D, C, R: Direction<D, C>>: Sized {
    /// The ring that the end was made with, which each call takes.
    type Ring: SharedRing;

    /// The record of the end's own steps.
    ghost side: { Self → Side (DriverEvent D) };

    /// Returns the end's places and state.
    fn at(&self) -> DriverPlaces
        ensures { IsPoster (driver_size (driver_of R.form (side self.now))) (driver_record (driver_of R.form (side self.now))) result };

    /// Makes a step of the handshake. Returns the control value that it stored or loaded.
    fn control_step(&mut self, ring: &Self::Ring, step: HandshakeStep) -> Control
        requires own { (side self.old).table ≡ Self.Ring.table ring.now }
        requires may { MayControlStep step (driver_state (driver_of R.form (side self.old))) }
        ensures stored { StoredBy step result }
        ensures step { driver_of R.form (side self.new) ≡ driver_grown (driver_of R.form (side self.old)) (control_event step (control_word result)) }
        ensures record { driver_record (driver_of R.form (side self.new)) ≡ record (driver_record (driver_of R.form (side self.old))) { state = after_control_step step (driver_state (driver_of R.form (side self.old))) (control_word result) } }
        ensures known { known_of (driver_of R.form (side self.new)) ≡ known_of (driver_of R.form (side self.old)) };

    /// Returns the ring's length. A function that uses no field of an end or a seat learns none of their invariants; to
    /// learn that the length is lawful, it says `let _size = end.size();`.
    #[inline]
    final fn size(&self) -> u32
        ensures lawful { IsRingLength result }
        ensures value { result ≡ driver_size (driver_of R.form (side self.now)) }
    {
        self.at().size as u32
    }

    /// How many more buffers can be posted: `n - 1` less those that are out, since head equal to tail means an empty
    /// ring (82599 datasheet, 7.1.9 and 7.2.3.4).
    #[inline]
    final fn room(&self) -> u32
        ensures most { result < driver_size (driver_of R.form (side self.now)) }
        ensures value { result + length (posted (driver_of R.form (side self.now))) + 1 ≡ driver_size (driver_of R.form (side self.now)) + returned (driver_of R.form (side self.now)) }
    {
        let at = self.at();
        (at.size - 1 - at.out) as u32
    }

    /// Whether the end has asked for nothing in this epoch.
    #[inline]
    final fn is_new(&self) -> bool
        ensures { result ≡ is_new (driver_state (driver_of R.form (side self.now))) }
    {
        self.at().state.is_new()
    }

    /// Whether the end may post and publish: it has not asked for disabling in this epoch.
    #[inline]
    final fn is_open(&self) -> bool
        ensures { result ≡ is_open (driver_state (driver_of R.form (side self.now))) }
    {
        self.at().state.is_open()
    }

    /// Whether the end saw the queue enabled, and has not seen a disabling answered.
    #[inline]
    final fn is_live(&self) -> bool
        ensures { result ≡ is_live (driver_state (driver_of R.form (side self.now))) }
    {
        self.at().state.is_live()
    }

    /// Whether the end saw the queue enabled, and has not asked for disabling.
    #[inline]
    final fn is_on(&self) -> bool
        ensures { result ≡ is_on (driver_state (driver_of R.form (side self.now))) }
    {
        self.at().state.is_on()
    }

    /// Whether the end saw the disabling answered.
    #[inline]
    final fn is_stopped(&self) -> bool
        ensures { result ≡ is_stopped (driver_state (driver_of R.form (side self.now))) }
    {
        self.at().state.is_stopped()
    }

    /// Asks the controller to enable the queue (82599 datasheet, RXDCTL.ENABLE and TXDCTL.ENABLE).
    #[inline]
    final fn ask_enable(&mut self, ring: &Self::Ring)
        requires own { (side self.old).table ≡ Self.Ring.table ring.now }
        requires new { is_new (driver_state (driver_of R.form (side self.old))) ≡ true }
        ensures step { driver_of R.form (side self.new) ≡ driver_grown (driver_of R.form (side self.old)) AskedEnable }
        ensures record { driver_record (driver_of R.form (side self.new)) ≡ record (driver_record (driver_of R.form (side self.old))) { state = state.Asked } }
        ensures known { known_of (driver_of R.form (side self.new)) ≡ known_of (driver_of R.form (side self.old)) }
    {
        self.control_step(ring, HandshakeStep::AskEnable);
    }

    /// Loads the control word. It shows the end whether the controller answered its request.
    #[inline]
    final fn state(&mut self, ring: &Self::Ring) -> Control
        requires own { (side self.old).table ≡ Self.Ring.table ring.now }
        ensures step { driver_of R.form (side self.new) ≡ driver_grown (driver_of R.form (side self.old)) (LoadedControl (control_word result)) }
        ensures record { driver_record (driver_of R.form (side self.new)) ≡ record (driver_record (driver_of R.form (side self.old))) { state = learned (driver_state (driver_of R.form (side self.old))) (control_word result) } }
        ensures known { known_of (driver_of R.form (side self.new)) ≡ known_of (driver_of R.form (side self.old)) }
    {
        self.control_step(ring, HandshakeStep::LoadControl)
    }

    /// Asks the controller to disable the queue.
    #[inline]
    final fn ask_disable(&mut self, ring: &Self::Ring)
        requires own { (side self.old).table ≡ Self.Ring.table ring.now }
        requires on { is_on (driver_state (driver_of R.form (side self.old))) ≡ true }
        ensures step { driver_of R.form (side self.new) ≡ driver_grown (driver_of R.form (side self.old)) AskedDisable }
        ensures record { driver_record (driver_of R.form (side self.new)) ≡ record (driver_record (driver_of R.form (side self.old))) { state = state.Stopping } }
        ensures known { known_of (driver_of R.form (side self.new)) ≡ known_of (driver_of R.form (side self.old)) }
    {
        self.control_step(ring, HandshakeStep::AskDisable);
    }
}

/// The places and the state of a controller's end.
#[derive(Clone, Copy)]
pub struct ControllerPlaces {
    /// The ring's length.
    pub size: u16,
    /// The next place to serve.
    pub serve: u16,
    /// How many descriptors the end knows to be ready, from that place on.
    pub available: u16,
    /// Whether the end holds a fetched buffer.
    pub holding: bool,
    /// Whether the last completed segment ends a frame, or none is completed.
    pub at_frame_end: bool,
    /// How far the controller is in enabling and disabling the queue.
    pub state: ControllerState,
    /// The control value that the end last loaded or stored.
    pub seen: Control,
}

impl ControllerPlaces {
    /// Returns the places in a ring of this length that was never enabled.
    pub fn new(size: u16) -> ControllerPlaces
        ensures { result ≡ record { size = size; serve = 0; available = 0; holding = false; at_frame_end = true; state = controller_state_is.Off; seen = control.Disabled } }
    {
        ControllerPlaces {
            size,
            serve: 0,
            available: 0,
            holding: false,
            at_frame_end: true,
            state: ControllerState::Off,
            seen: Control::Disabled,
        }
    }
}

/// A word that a controller loads.
#[derive(Clone, Copy)]
pub enum ControllerLoad {
    /// A3, B3: the tail (RDT, TDT).
    Tail,
    /// C2: the control word (RXDCTL, TXDCTL).
    Request,
}

/// A controller's end of a ring of either direction. `is_serving`, `is_holding`, `is_between_frames` and `can_answer`
/// test the conditions of its calls.
pub trait ControllerEnd<D, C, R: Direction<D, C>>: Sized {
    /// The ring that the end was made with, which each call takes.
    type Ring: SharedRing;

    /// The record of the end's own steps.
    ghost side: { Self → Side (ControllerEvent C) };

    /// Returns the end's places and state.
    fn at(&self) -> ControllerPlaces
        ensures { IsServer R.form.carries (controller_size (controller_of R.form (side self.now))) (controller_record (controller_of R.form (side self.now))) result };

    /// Whether a disabling may be answered, if the end last loaded one.
    fn is_settled(&self) -> bool
        ensures { IsTrue result ↔ IsSettled (controller_of R.form (side self.now)) };

    /// Loads the tail or the control word.
    fn load(&mut self, ring: &Self::Ring, which: ControllerLoad) -> u16
        requires own { (side self.old).table ≡ Self.Ring.table ring.now }
        requires may { MayLoadWord which (controller_of R.form (side self.old)) }
        ensures { LoadedWord which (controller_of R.form (side self.old)) result (controller_of R.form (side self.new)) };

    /// Answers the enabling or disabling that the end last loaded: once after each load, and a disabling only between
    /// two frames, with the head stored and no report owed.
    fn answer(&mut self, ring: &Self::Ring)
        requires own { (side self.old).table ≡ Self.Ring.table ring.now }
        requires asked { MayAnswer (controller_of R.form (side self.old)) }
        ensures { Answered (controller_of R.form (side self.old)) (controller_of R.form (side self.new)) };

    /// Returns the ring's length.
    #[inline]
    final fn size(&self) -> u32
        ensures lawful { IsRingLength result }
        ensures value { result ≡ controller_size (controller_of R.form (side self.now)) }
    {
        self.at().size as u32
    }

    /// Whether the end answered the enabling of this epoch, and no disabling since.
    #[inline]
    final fn is_serving(&self) -> bool
        ensures { result ≡ is_serving (controller_state (controller_of R.form (side self.now))) }
    {
        self.at().state.is_serving()
    }

    /// Whether the end holds a fetched buffer.
    #[inline]
    final fn is_holding(&self) -> bool
        ensures { (result ≡ false) ↔ (held (controller_of R.form (side self.now)) ≡ None) }
    {
        self.at().holding
    }

    /// Whether the last stored or sent segment ends a frame, or none was stored or sent.
    #[inline]
    final fn is_between_frames(&self) -> bool
        ensures value { result ≡ is_at_frame_end (controller_of R.form (side self.now)) }
        ensures rest { result ≡ true → unfinished R.form.carries (completed (controller_of R.form (side self.now))) ≡ [] }
    {
        self.at().at_frame_end
    }

    /// Whether `answer` may be called: the end last loaded an enabling and does not serve, or last loaded a disabling
    /// and is between two frames, with the head stored and no report owed.
    #[inline]
    final fn can_answer(&self) -> bool
        ensures { IsTrue result ↔ MayAnswer (controller_of R.form (side self.now)) }
    {
        let at = self.at();
        match at.seen {
            Control::EnableAsked => !at.state.is_serving(),
            Control::DisableAsked => self.is_settled(),
            Control::Disabled | Control::Enabled => false,
        }
    }

    /// Loads the tail (RDT, TDT). Returns the number of ready descriptors, from the next one on (82599 datasheet, 7.1.9
    /// and 7.2.3.4).
    #[inline]
    final fn look(&mut self, ring: &Self::Ring) -> u32
        requires own { (side self.old).table ≡ Self.Ring.table ring.now }
        requires serving { is_serving (controller_state (controller_of R.form (side self.old))) ≡ true }
        ensures step { FoundAhead (controller_of R.form (side self.old)) result (controller_of R.form (side self.new)) }
        ensures ahead { known_ahead (controller_of R.form (side self.new)) ≡ result }
    {
        self.load(ring, ControllerLoad::Tail);
        self.at().available as u32
    }

    /// Loads the control word, to see whether the driver asks for enabling or disabling.
    #[inline]
    final fn asked(&mut self, ring: &Self::Ring) -> Control
        requires own { (side self.old).table ≡ Self.Ring.table ring.now }
        ensures step { controller_of R.form (side self.new) ≡ controller_grown (controller_of R.form (side self.old)) (LoadedRequest (control_word result)) }
        ensures record { controller_record (controller_of R.form (side self.new)) ≡ record (controller_record (controller_of R.form (side self.old))) { seen = control_word result } }
    {
        self.load(ring, ControllerLoad::Request);
        self.at().seen
    }
}
