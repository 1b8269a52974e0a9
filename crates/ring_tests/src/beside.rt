//! A running ring beside its pure machine: both make the same moves and must report the same.

use crate::buffers::{BUFFERS, Closed};
use crate::random::Random;
use buffer_pool::Buf;
use ring_model::{ControlStep, Note, Owner};

/// A running ring, driven by calls in one thread, and its pure machine.
pub trait Beside {
    /// A step of either.
    type Step: Copy;

    /// Whether the ring's user may give the step's arguments now. No test on the ring's ends shows this.
    fn is_lawful(&self, step: Self::Step) -> bool;

    /// Makes the step by a call and returns its note. Returns `None` if the call's condition does not hold, and leaves
    /// the call out. Clearing the head means a whole renewal.
    fn call(&mut self, step: Self::Step) -> Option<Note>;

    /// Makes the machine's step or steps. Returns `None` if the machine does not allow it.
    fn step(&mut self, step: Self::Step) -> Option<Note>;

    /// Returns the step that makes this step of the handshake.
    fn control(step: ControlStep) -> Self::Step;

    /// Whether this is a renewal.
    fn renews(step: Self::Step) -> bool;

    /// Returns the number of the posted buffer, if the step is a post.
    fn posted(&self, step: Self::Step) -> Option<u16>;

    /// Returns the number left according to the ring and according to the counted calls, if the ring can report it.
    fn left(&mut self) -> Option<(u32, u32)>;

    /// Returns the owner of a place of the machine.
    fn owner(&self, place: u16) -> Option<Owner>;

    /// Returns a random step, which may not be possible.
    fn random_step(&self, random: &mut Random) -> Self::Step;

    /// Closes the ring.
    fn close(self) -> Closed;
}

// The note with 0 for each place, tail and head, which the calls of a ring do not return.
fn without_place(note: Note) -> Note {
    match note {
        Note::Place(_) => Note::Place(0),
        Note::Tail(_) => Note::Tail(0),
        Note::Head(_) => Note::Head(0),
        Note::Fetched(_, buffer) => Note::Fetched(0, buffer),
        Note::Sending(_, segment) => Note::Sending(0, segment),
        Note::Reported(Some(_)) => Note::Reported(Some(0)),
        other => other,
    }
}

/// A schedule of steps that a ring and its machine make one by one.
#[derive(Drop)]
pub struct Walk<B: Beside + Drop> {
    /// The ring and its machine.
    pub both: B,
    lying: Lying,
    /// How many steps were made.
    pub made: usize,
    /// How many of them were renewals.
    pub renewals: usize,
}

impl<B: Beside + Drop> Walk<B> {
    /// Begins a schedule without steps.
    pub fn new(both: B) -> Walk<B> {
        Walk {
            both,
            lying: Lying::new(),
            made: 0,
            renewals: 0,
        }
    }

    /// Makes the step on both, or on neither. Returns whether both reported the same.
    pub fn make(&mut self, step: B::Step) -> bool {
        if !self.both.is_lawful(step) {
            return true;
        }
        let told = self.both.call(step);
        let note = self.both.step(step);
        if told != note.map(without_place) {
            return false;
        }
        let Some(note) = note else {
            return true;
        };
        if let Some(number) = self.both.posted(step) {
            self.lying.post(number, &note);
        }
        self.made = self.made.saturating_add(1);
        if B::renews(step) {
            self.renewals = self.renewals.saturating_add(1);
        }
        self.both.left().is_none_or(|left| left.0 == left.1)
    }

    /// Makes the steps. Returns whether both reported the same at each.
    pub fn walk(&mut self, steps: &[B::Step]) -> bool {
        for step in steps {
            if !self.make(*step) {
                return false;
            }
        }
        true
    }

    /// Makes `count` random steps. Returns whether both reported the same at each.
    pub fn wander(&mut self, random: &mut Random, count: usize) -> bool {
        for _ in 0..count {
            let step = self.both.random_step(random);
            if !self.make(step) {
                return false;
            }
        }
        true
    }

    /// Closes the ring. Returns whether each place has what the machine says, and each buffer is there once.
    pub fn closes(self) -> bool {
        let Walk { both, lying, .. } = self;
        let mut owners = [None; 16];
        for (place, owner) in owners.iter_mut().enumerate() {
            *owner = both.owner(place as u16);
        }
        let closed = both.close();
        for (place, owner) in owners.iter().enumerate() {
            if let Some(owner) = owner
                && !lying.is_at(place, *owner, &closed.slots)
            {
                return false;
            }
        }
        closed.has_each_once(BUFFERS as usize)
    }
}

/// The totals of many random schedules.
#[derive(Drop)]
pub struct Survey {
    random: Random,
    made: usize,
    renewals: usize,
}

impl Survey {
    /// Begins without schedules.
    pub fn new(random: Random) -> Survey {
        Survey {
            random,
            made: 0,
            renewals: 0,
        }
    }

    /// Makes 600 random steps on a new ring and its machine, and closes the ring. Returns whether both reported the
    /// same.
    pub fn agrees<B: Beside + Drop>(&mut self, both: B) -> bool {
        let mut walk = Walk::new(both);
        let agrees = walk.wander(&mut self.random, 600);
        self.made = self.made.saturating_add(walk.made);
        self.renewals = self.renewals.saturating_add(walk.renewals);
        agrees && walk.closes()
    }

    /// Whether the given number of schedules had more than one renewal and a hundred steps each, on average.
    pub fn is_rich(&self, schedules: usize) -> bool {
        self.made / 100 > schedules && self.renewals > schedules
    }
}

/// Makes the calls up to the first that is not possible. Returns whether all were made.
pub fn makes<B: Beside>(both: &mut B, steps: &[B::Step]) -> bool {
    for step in steps {
        if both.call(*step).is_none() {
            return false;
        }
    }
    true
}

/// Asks for enabling, answers, and loads the answer. Returns whether all could be done.
pub fn enable<B: Beside>(both: &mut B) -> bool {
    ask(both, ControlStep::AskEnable)
}

/// The same for disabling.
pub fn disable<B: Beside>(both: &mut B) -> bool {
    ask(both, ControlStep::AskDisable)
}

fn ask<B: Beside>(both: &mut B, asks: ControlStep) -> bool {
    both.call(B::control(asks)).is_some()
        && both.call(B::control(ControlStep::LookAsked)).is_some()
        && both.call(B::control(ControlStep::Answer)).is_some()
        && both.call(B::control(ControlStep::LookAnswered)).is_some()
}

/// Returns a random step of the handshake.
pub fn random_control(random: &mut Random) -> ControlStep {
    match random.below(7) {
        0 => ControlStep::AskEnable,
        1..=2 => ControlStep::LookAsked,
        3..=4 => ControlStep::Answer,
        5 => ControlStep::LookAnswered,
        _ => ControlStep::AskDisable,
    }
}

// The buffer that was last posted at each place of a ring of at most 16, according to the machine.
#[derive(Drop)]
struct Lying {
    numbers: [u16; 16],
}

impl Lying {
    // Nothing is posted.
    fn new() -> Lying {
        Lying { numbers: [0; 16] }
    }

    // Records the place of a posted buffer from its note.
    fn post(&mut self, number: u16, note: &Note) {
        if let Note::Place(place) = note
            && let Some(lies) = self.numbers.get_mut(usize::from(*place))
        {
            *lies = number;
        }
    }

    // Whether a closed ring returned at this place what the machine has there: the buffer posted there if the ring owns
    // the place, else none.
    fn is_at(&self, place: usize, owner: Owner, slots: &[Option<Buf>]) -> bool {
        let Some(slot) = slots.get(place) else {
            return false;
        };
        let number = slot.as_ref().map(|buf| buf.number());
        if owner == Owner::Ring {
            number == self.numbers.get(place).copied()
        } else {
            number.is_none()
        }
    }
}

/// Renews the queue if all its buffers are back; otherwise the calling method returns `None`. For a struct with fields
/// `ring` and `driver`.
#[macro_export]
macro_rules! renewed {
    ($both:expr) => {
        let size = $both.driver.size();
        if !$both.driver.is_stopped() || size == 0 || $both.driver.room() != size - 1 {
            return None;
        }
        $both.driver.renew(&$both.ring);
    };
}

/// Makes a request of the driver if it may, lets the controller answer it and the driver load the answer. The value is
/// whether both saw the expected state. For a struct with fields `ring`, `driver` and `controller`, the last from the
/// crate `controller`.
#[macro_export]
macro_rules! asked {
    ($both:expr, $may:ident, $ask:ident, $wanted:path, $then:ident) => {
        $both.driver.$may() && {
            $both.driver.$ask(&$both.ring);
            let told = $both.controller.turn_control(&$both.ring);
            $both.driver.state(&$both.ring);
            told == $wanted && $both.driver.$then()
        }
    };
}

/// Lets the controller load the tail if it serves the queue; otherwise the calling method returns `None`. The value is the
/// note of the load. For a struct with fields `ring` and `controller`.
#[macro_export]
macro_rules! looked {
    ($both:expr, $note:path) => {{
        if !$both.controller.is_serving() {
            return None;
        }
        let count = $both.controller.look(&$both.ring);
        u16::try_from(count).ok().map($note)
    }};
}

/// Makes a step of the handshake by a call, if its condition holds. For a struct with fields `ring`, `driver` and
/// `controller` and a method `answer`.
#[macro_export]
macro_rules! control_step {
    ($both:expr, $step:expr) => {
        match $step {
            ControlStep::AskEnable if $both.driver.is_new() => {
                $both.driver.ask_enable(&$both.ring);
                Some(Note::Control(1))
            }
            ControlStep::LookAsked => Some(Note::Control($both.controller.asked(&$both.ring).word())),
            ControlStep::Answer if $both.controller.can_answer() => {
                $both.answer();
                Some(Note::Control(if $both.controller.is_serving() { 2 } else { 0 }))
            }
            ControlStep::LookAnswered => Some(Note::Control($both.driver.state(&$both.ring).word())),
            ControlStep::AskDisable if $both.driver.is_on() => {
                $both.driver.ask_disable(&$both.ring);
                Some(Note::Control(3))
            }
            _ => None,
        }
    };
}
