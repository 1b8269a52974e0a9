//! The core of a machine of either direction: its words and slots by place, and the private state of driver and
//! controller.

ghost use Rattle.std.specs.Prelude.{◌≡◌, ◌<◌, ◌≤◌, ◌↔◌, ◌⊎◌, ◌&&◌, not, ◌==◌, Some, IfErr, IfOk, is_none, length, replicate, slice_index};
ghost use Rattle.limits.specs.RingLength.{IsRingLength};
ghost use Rattle.limits.specs.declared.profile.TheConstants.{MOST_RING};
ghost use Rattle.ring_model.specs.shared.Handshakes.{control_value, enables};
ghost use Rattle.ring_model.specs.shared.Lists.{slot_at};
ghost use Rattle.refusals.specs.declared.errors.MachineError.TheVariants.{Memory, RingLength};
ghost use Rattle.ring_machine.specs.code.Sound.{IsSound};
ghost use Rattle.ring_machine.specs.Registers.{registers_held};
ghost use Rattle.ring_machine.specs.shared.Machine.{told_owner};
ghost use Rattle.ring_model.specs.shared.Places.{between_places};
ghost use Rattle.ring_machine.specs.code.Shared.{after_clear_head, after_clear_tail, after_fetch, after_head, after_look, after_out, after_post, after_publish, after_renew, after_serve, after_control, are_all_back, begun, can_fetch, can_post, is_idle, looks_settled, word_put};

use crate::registers::{QueueKind, Registers};
use limits::is_ring_length;
use refusals::MachineError;
use ring_model::{ControlStep, DriverState, Handshake, Owner, place_after, places_between};
use std::alloc::Global;
use std::marker::Model;

/// The common part of a receive and a transmit queue's machine. It has no lists of posted, completed and returned items:
/// these belong to the ring that it agrees with.
#[derive(Drop)]
pub struct QueueMachine {
    size: u16,
    words: Vec<u64>,
    head: u16,
    tail: u16,
    slots: Vec<Option<u16>>,
    fill: u16,
    next: u16,
    serve: u16,
    known: u16,
    held: Option<u16>,
    whole: bool,
    handshake: Handshake,
}

impl Model for QueueMachine {
    ghost use Rattle.std.specs.Prelude.{ℕ};
    ghost use Rattle.ring_model.specs.shared.Agreement.{Wrapped};
    ghost use Rattle.ring_machine.specs.shared.Machine.{wrapped_of};
    ghost use Rattle.ring_machine.specs.code.Sound.{IsSound};

    ghost Value = { Wrapped ℕ };

    ghost view = { wrapped_of };

    ghost invariant = { λ m. IsSound (wrapped_of m) };
}

// Reading the queue.
impl QueueMachine {
    /// Returns the number of places.
    pub fn size(&self) -> u16
        ensures value { result ≡ self.now.size }
        ensures sound { IsSound self.now }
    {
        self.size
    }

    /// Returns how far the two sides are in enabling and disabling the queue.
    pub fn handshake(&self) -> Handshake
        ensures value { result ≡ self.now.handshake }
        ensures sound { IsSound self.now }
    {
        self.handshake
    }

    /// Returns the next place to post.
    pub fn fill(&self) -> u16
        ensures value { result ≡ self.now.fill }
        ensures below { result < self.now.size }
    {
        self.fill
    }

    /// Returns the next place to take out.
    pub fn next(&self) -> u16
        ensures value { result ≡ self.now.next }
        ensures below { result < self.now.size }
    {
        self.next
    }

    /// Returns the next place that the controller fetches.
    pub fn serve_place(&self) -> u16
        ensures value { result ≡ self.now.serve }
        ensures below { result < self.now.size }
    {
        self.serve
    }

    /// Returns the tail that the controller loaded last.
    pub fn known(&self) -> u16
        ensures { result ≡ self.now.known }
    {
        self.known
    }

    /// Returns the values of the registers, as those of a queue of this kind.
    pub fn registers(&self, kind: QueueKind) -> Registers
        ensures { result ≡ registers_held kind self.now }
    {
        let control = self.handshake.control;
        Registers {
            kind,
            head: self.head,
            tail: self.tail,
            enable: control == 2 || control == 3,
        }
    }

    /// Returns the number of the buffer that the controller holds, or `None`.
    pub fn held(&self) -> Option<u16>
        ensures { result ≡ self.now.held }
    {
        self.held
    }

    /// Whether the last completed segment ends a frame, or nothing was completed.
    pub fn is_whole(&self) -> bool
        ensures { result ≡ self.now.whole }
    {
        self.whole
    }

    /// Whether the controller holds a fetched buffer.
    pub(crate) fn is_holding(&self) -> bool
        ensures { result ≡ not (is_none self.now.held) }
    {
        self.held.is_some()
    }

    /// Returns the word at a place.
    pub fn word(&self, place: u16) -> u64
        requires { place < self.now.size }
        ensures { result ≡ slice_index self.now.words place }
    {
        self.words[usize::from(place)]
    }

    /// Returns the words by place.
    pub(crate) fn words(&self) -> &[u64]
        ensures value { result.now ≡ self.now.words }
        ensures all { length result.now ≡ self.now.size }
    {
        self.words.as_slice()
    }

    /// Whether the driver may post: it is open, and there is room.
    pub(crate) fn can_post(&self) -> bool
        ensures { result ≡ can_post self.now }
    {
        self.handshake.driver.is_open() && place_after(self.fill, self.size) != self.next
    }

    /// Whether the controller serves and holds nothing.
    pub(crate) fn is_idle(&self) -> bool
        ensures { result ≡ is_idle self.now }
    {
        self.handshake.controller.is_serving() && self.held.is_none()
    }

    /// Whether the controller may fetch: it is idle, and knows of a descriptor.
    pub(crate) fn can_fetch(&self) -> bool
        ensures { result ≡ can_fetch self.now }
    {
        self.is_idle() && self.serve != self.known
    }

    /// Whether all posted buffers are back with the driver.
    pub(crate) fn are_all_back(&self) -> bool
        ensures { result ≡ are_all_back self.now }
    {
        self.next == self.fill
    }

    /// Whether nothing is held, the head is stored, and no frame is unfinished.
    pub(crate) fn is_settled(&self) -> bool
        ensures { result ≡ looks_settled self.now }
    {
        self.held.is_none() && self.head == self.serve && self.whole
    }

    /// Whether this step answers an enabling.
    pub(crate) fn enables(&self, step: ControlStep) -> bool
        ensures { result ≡ enables self.now.handshake step }
    {
        matches!(step, ControlStep::Answer) && self.handshake.can_enable()
    }

    /// Returns the owner of this place, computed from the held buffer and the places `serve`, `next` and `fill`.
    pub fn owner(&self, place: u16) -> Owner
        requires { place < self.now.size }
        ensures told { result ≡ told_owner self.now place }
        ensures sound { IsSound self.now }
    {
        if self.held.is_some() && place == self.serve {
            return Owner::Controller;
        }
        let from_next = places_between(self.next, place, self.size);
        if from_next < places_between(self.next, self.fill, self.size) {
            Owner::Ring
        } else {
            Owner::Driver
        }
    }

    /// Returns the number of the buffer in the slot at a place, or `None` if it is empty.
    pub fn slot(&self, place: u16) -> Option<u16>
        requires { place < self.now.size }
        ensures { result ≡ slot_at self.now.slots place }
    {
        self.slots[usize::from(place)]
    }
}

// The effect of each step.
impl QueueMachine {
    /// Posts a buffer with this word. Returns the place.
    pub(crate) fn post(&mut self, buffer: u16, word: u64) -> u16
        ensures place { result ≡ self.old.fill }
        ensures moved { self.new ≡ after_post self.old buffer word }
    {
        let place = self.fill;
        self.words[usize::from(place)] = word;
        self.slots[usize::from(place)] = Some(buffer);
        self.fill = place_after(place, self.size);
        place
    }

    /// Stores the tail and returns it.
    pub(crate) fn publish(&mut self) -> u16
        ensures tail { result ≡ self.old.fill }
        ensures moved { self.new ≡ after_publish self.old }
    {
        self.tail = self.fill;
        self.fill
    }

    /// Loads the tail. Returns how many descriptors the controller then knows of.
    pub(crate) fn look(&mut self) -> u16
        ensures count { result ≡ between_places self.old.size self.old.serve self.old.tail }
        ensures moved { self.new ≡ after_look self.old }
    {
        self.known = self.tail;
        places_between(self.serve, self.tail, self.size)
    }

    /// Fetches the next buffer and returns its number.
    pub(crate) fn fetch(&mut self) -> Option<u16>
        ensures buffer { result ≡ slot_at self.old.slots self.old.serve }
        ensures moved { self.new ≡ after_fetch self.old (slot_at self.old.slots self.old.serve) }
    {
        let place = self.serve;
        let buffer = self.slot(place)?;
        self.slots[usize::from(place)] = None;
        self.held = Some(buffer);
        Some(buffer)
    }

    /// Gives the fetched buffer back, with this word if there is one, and returns its number. `ends` says whether it
    /// ends a frame.
    pub(crate) fn serve(&mut self, word: Option<u64>, ends: bool) -> Option<u16>
        ensures buffer { result ≡ self.old.held }
        ensures moved { self.new ≡ after_serve self.old word ends self.old.held }
    {
        let place = self.serve;
        let buffer = self.held?;
        self.write(place, word);
        self.slots[usize::from(place)] = Some(buffer);
        self.held = None;
        self.whole = ends;
        self.serve = place_after(place, self.size);
        Some(buffer)
    }

    /// Stores the head and returns it.
    pub(crate) fn store_head(&mut self) -> u16
        ensures head { result ≡ self.old.serve }
        ensures moved { self.new ≡ after_head self.old }
    {
        self.head = self.serve;
        self.serve
    }

    /// Takes the next buffer out, with this word if there is one, and returns its number.
    pub(crate) fn take_out(&mut self, word: Option<u64>) -> Option<u16>
        ensures buffer { result ≡ slot_at self.old.slots self.old.next }
        ensures moved { self.new ≡ after_out self.old word (slot_at self.old.slots self.old.next) }
    {
        let place = self.next;
        let buffer = self.slot(place)?;
        self.write(place, word);
        self.slots[usize::from(place)] = None;
        self.next = place_after(place, self.size);
        Some(buffer)
    }

    /// Stores a word at a place, if there is one.
    pub(crate) fn write(&mut self, place: u16, word: Option<u64>)
        requires { place < self.old.size }
        ensures { self.new ≡ record self.old { words = word_put self.old.words place word } }
    {
        if let Some(word) = word {
            self.words[usize::from(place)] = word;
        }
    }

    /// Makes a step of the handshake. Returns the control value that was stored or loaded.
    pub(crate) fn control_step(&mut self, step: ControlStep) -> u8
        ensures control { result ≡ control_value self.old.handshake step }
        ensures moved { self.new ≡ after_control self.old step }
    {
        let value = self.handshake.control_value(step);
        if self.enables(step) {
            self.serve = 0;
            self.known = 0;
        }
        self.handshake = self.handshake.after_control_step(step);
        value
    }

    /// Clears the head.
    pub(crate) fn clear_head(&mut self)
        ensures { self.new ≡ after_clear_head self.old }
    {
        self.head = 0;
        self.handshake.driver = DriverState::Cleared;
    }

    /// Clears the tail.
    pub(crate) fn clear_tail(&mut self)
        ensures { self.new ≡ after_clear_tail self.old }
    {
        self.tail = 0;
        self.handshake.driver = DriverState::Tailed;
    }

    /// Begins the next epoch.
    pub(crate) fn renew(&mut self)
        ensures { self.new ≡ after_renew self.old }
    {
        self.fill = 0;
        self.next = 0;
        self.handshake.driver = DriverState::New;
    }
}

// Construction.
impl QueueMachine {
    // An empty queue.
    fn begun(words: Vec<u64>, slots: Vec<Option<u16>>, size: u16, enabled: bool) -> QueueMachine
        requires some_places { 1 < size }
        requires few_places { size ≤ MOST_RING }
        requires words { words.items ≡ replicate size 0 }
        requires slots { slots.items ≡ replicate size None }
        ensures { result ≡ begun size enabled }
    {
        QueueMachine {
            size,
            words,
            head: 0,
            tail: 0,
            slots,
            fill: 0,
            next: 0,
            serve: 0,
            known: 0,
            held: None,
            whole: true,
            handshake: Handshake::first(enabled),
        }
    }

    /// Makes a queue of `n` places with nothing posted. Returns `RingLength` if `n` is not a power of two from 8 to
    /// 4,096, and `Memory` only if memory was refused.
    pub(crate) fn new(alloc: Global, n: usize, enabled: bool) -> Result<QueueMachine, MachineError>
        ensures refused { (result ≡ Err RingLength) ↔ ¬ (IsRingLength n) }
        ensures error { IfErr result (λ e. (e ≡ RingLength) ⊎ (e ≡ Memory)) }
        ensures made { IfOk result (λ q. q ≡ begun n enabled) }
        ensures places { IfOk result (λ q. 1 < n) }
    {
        if !is_ring_length(n) {
            return Err(MachineError::RingLength);
        }
        let Ok(words) = vec![in alloc; 0u64; n] else {
            return Err(MachineError::Memory);
        };
        let Ok(slots) = vec![in alloc; None; n] else {
            return Err(MachineError::Memory);
        };
        Ok(QueueMachine::begun(words, slots, n as u16, enabled))
    }
}
