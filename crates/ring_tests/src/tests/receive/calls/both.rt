//! Both ends of a ring in one thread, with the buffer that the controller holds, and the pure machine. A call whose
//! condition does not hold is left out. It returns the note of its step, with 0 for a place, since no call returns one.
ghost use Rattle.std.specs.Prelude.{◌≡◌, ◌+◌, ◌<◌, ◌≤◌, true, length};
ghost use Rattle.limits.specs.declared.profile.TheConstants.{LEAST_FRAME, MOST_FRAME, MOST_SEGMENTS};
ghost use Rattle.ring_model.specs.shared.Segments.{piece_of};
ghost use Rattle.ring_model.specs.shared.Frames.{join, unfinished};
ghost use Rattle.rx_ring.specs.Ends.{controller_size, held as held_by, reclaimed, stored};
ghost use Rattle.ring_tests.specs.Holding.{held_as};

use crate::tests::steps::rx_step;
use crate::{
    BUFFERS, Beside, Closed, Random, control_step, filled, full_stash, is_filled, looked, put_back,
    random_control, renewed,
};
use buffer_pool::{Buf, Stash};
use limits::{LEAST_FRAME, MOST_FRAME, MOST_SEGMENTS};
use ring_machine::{RxMachine, SegmentLength};
use ring_model::{ControlStep, Note, Owner, RxStep, TakenSegment};
use rx_ring::{
    ControllerEnd, DriverEnd, Poll, RxControllerEnd, RxDriverEnd, RxRing, close, meet_rx,
};
use std::alloc::Global;
use std::process::Abort;

/// A step of a receive ring.
pub(crate) type Step = RxStep<SegmentLength>;

/// A ring with its two ends, the buffers outside it, and its machine.
#[derive(Drop)]
pub(crate) struct Both {
    pub ring: RxRing,
    pub driver: RxDriverEnd,
    pub controller: RxControllerEnd,
    machine: RxMachine,
    /// The spare buffers.
    pub spare: Stash,
    /// The number of the buffer posted last.
    pub posted: u16,
    /// The number of segments stored in this epoch, each filled with its own number, and of those taken.
    pub stored_count: u32,
    pub taken_count: u32,
    held: Option<Buf>,
    // of the unfinished frame
    segments: usize,
    bytes: usize,
    untouched: bool,
    ghost drives: { driver.table ≡ ring },
    ghost serves: { controller.table ≡ ring },
    ghost holds: { held ≡ held_as (held_by controller) },
    ghost counts: { length (unfinished piece_of (stored controller)) ≡ segments },
    ghost adds: { length (join piece_of (unfinished piece_of (stored controller))) ≡ bytes },
    ghost few: { bytes ≤ MOST_FRAME },
    ghost none_back: { untouched ≡ true → reclaimed driver ≡ 0 },
}

impl Both {
    /// A disabled ring of `n` places, with all buffers spare.
    pub(crate) fn new<R: Abort>(rt: &R, alloc: Global, n: u32) -> Both {
        let machine = RxMachine::new(alloc, n as usize, false).expect(rt, "a machine");
        let spare = full_stash(alloc, BUFFERS).expect(rt, "buffers");
        let (ring, driver, controller) = RxRing::new(alloc, n).expect(rt, "a ring");
        Both {
            ring,
            driver,
            controller,
            machine,
            spare,
            posted: 0,
            stored_count: 0,
            taken_count: 0,
            held: None,
            segments: 0,
            bytes: 0,
            untouched: true,
        }
    }

    fn post(&mut self) -> Option<Note> {
        if self.driver.room() == 0 || !self.driver.is_open() {
            return None;
        }
        let buf = self.spare.take()?;
        self.posted = buf.number();
        self.driver.post(&self.ring, buf);
        Some(Note::Place(0))
    }

    fn fetch(&mut self) -> Option<Note> {
        if !self.controller.is_serving() || self.controller.is_holding() {
            return None;
        }
        if self.controller.has_finished() || self.controller.free() == 0 {
            return None;
        }
        let buf = self.controller.fetch(&self.ring);
        let note = Note::Fetched(0, buf.number());
        self.held = Some(buf);
        Some(note)
    }

    // Whether `len` bytes may follow the unfinished frame.
    fn may_follow(&self, len: SegmentLength, eop: bool) -> bool
        ensures segments { result ≡ true → self.now.segments < MOST_SEGMENTS }
        ensures descriptors { result ≡ true → self.now.segments + 1 < controller_size self.now.controller }
        ensures most { result ≡ true → self.now.bytes + len ≤ MOST_FRAME }
        ensures least { result ≡ true → eop ≡ true → LEAST_FRAME ≤ self.now.bytes + len }
    {
        let bytes = usize::from(len.bytes());
        self.segments < MOST_SEGMENTS
            && self.segments + 1 < self.controller.size() as usize
            && self.bytes + bytes <= MOST_FRAME
            && (!eop || LEAST_FRAME <= self.bytes + bytes)
    }

    fn store(&mut self, len: SegmentLength, eop: bool) -> Option<Note> {
        if !self.may_follow(len, eop) {
            return None;
        }
        let buf = filled(self.held.take()?, len.bytes(), self.stored_count);
        self.controller.write_back(&self.ring, buf, eop);
        self.stored_count = self.stored_count.wrapping_add(1);
        if eop {
            self.segments = 0;
            self.bytes = 0;
        } else {
            self.segments += 1;
            self.bytes += usize::from(len.bytes());
        }
        Some(Note::Place(0))
    }

    fn take(&mut self) -> Option<Note> {
        match self.driver.poll(&self.ring) {
            Poll::Segment { buf, eop } => {
                let taken = TakenSegment {
                    buffer: buf.number(),
                    len: buf.len() as u32,
                    eop,
                };
                let is_next = is_filled(&buf, self.taken_count);
                self.taken_count = self.taken_count.wrapping_add(1);
                put_back(&mut self.spare, buf);
                is_next.then_some(Note::Taken(Some(taken)))
            }
            Poll::NotDone => Some(Note::Taken(None)),
            Poll::Empty | Poll::Off => None,
        }
    }

    fn answer(&mut self) {
        if !self.controller.can_answer() {
            return;
        }
        let enables = !self.controller.is_serving();
        self.controller.answer(&self.ring);
        if enables {
            self.segments = 0;
            self.bytes = 0;
        }
    }

    fn reclaim(&mut self) -> Option<Note> {
        if !self.driver.is_stopped() {
            return None;
        }
        let buf = self.driver.reclaim(&self.ring)?;
        self.untouched = false;
        let note = Note::Buffer(buf.number());
        put_back(&mut self.spare, buf);
        Some(note)
    }

    fn set_quiet(&mut self) -> Option<Note> {
        if !self.controller.is_serving() || self.controller.is_holding() {
            return None;
        }
        if !self.controller.is_between_frames() {
            return None;
        }
        self.controller.set_quiet(&self.ring);
        Some(Note::Quiet(1))
    }

    fn control_step(&mut self, step: ControlStep) -> Option<Note> {
        control_step!(self, step)
    }

    fn publish(&mut self) -> Option<Note> {
        if !self.driver.is_open() {
            return None;
        }
        self.driver.publish(&self.ring);
        Some(Note::Tail(0))
    }

    fn set_head(&mut self) -> Option<Note> {
        if !self.controller.is_serving() || self.controller.is_holding() {
            return None;
        }
        self.controller.set_head(&self.ring);
        Some(Note::Head(0))
    }

    /// Whether a poll says that the queue is disabled. Then lets the ends meet.
    pub(crate) fn is_off(&mut self) -> bool {
        let is_off = matches!(self.driver.poll(&self.ring), Poll::Off);
        meet_rx(&self.ring, &mut self.driver, &mut self.controller);
        is_off
    }

    fn renew(&mut self) -> Option<Note> {
        renewed!(self);
        self.untouched = true;
        self.stored_count = 0;
        self.taken_count = 0;
        Some(Note::Head(0))
    }

    fn machine_renews(&mut self) -> Option<Note> {
        let note = self.machine.step(RxStep::ClearHead).ok()?;
        self.machine.step(RxStep::ClearTail).ok()?;
        self.machine.step(RxStep::ClearQuiet).ok()?;
        Some(note)
    }
}

impl Beside for Both {
    type Step = Step;

    fn is_lawful(&self, step: Step) -> bool {
        match step {
            RxStep::Store(len, eop) => self.may_follow(len, eop),
            _ => true,
        }
    }

    fn call(&mut self, step: Step) -> Option<Note> {
        match step {
            RxStep::Post(_) => self.post(),
            RxStep::Publish => self.publish(),
            RxStep::Look => looked!(self, Note::Free),
            RxStep::Fetch => self.fetch(),
            RxStep::Store(len, eop) => self.store(len, eop),
            RxStep::Take => self.take(),
            RxStep::Head => self.set_head(),
            RxStep::Control(control) => self.control_step(control),
            RxStep::Reclaim => self.reclaim(),
            RxStep::StoreQuiet => self.set_quiet(),
            RxStep::LoadQuiet => Some(Note::Quiet(u8::from(self.driver.is_quiet(&self.ring)))),
            RxStep::ClearHead => self.renew(),
            _ => None,
        }
    }

    fn step(&mut self, step: Step) -> Option<Note> {
        match step {
            RxStep::Post(_) => self.machine.step(RxStep::Post(self.posted)).ok(),
            RxStep::ClearHead => self.machine_renews(),
            _ => self.machine.step(step).ok(),
        }
    }

    fn posted(&self, step: Step) -> Option<u16> {
        matches!(step, RxStep::Post(_)).then_some(self.posted)
    }

    // Only while nothing is reclaimed.
    fn left(&mut self) -> Option<(u32, u32)> {
        if !self.driver.is_stopped() || !self.untouched {
            return None;
        }
        let left = self.driver.left(&self.ring);
        Some((left, self.stored_count.wrapping_sub(self.taken_count)))
    }

    fn owner(&self, place: u16) -> Option<Owner> {
        if place < self.machine.size() {
            Some(self.machine.owner(place))
        } else {
            None
        }
    }

    fn close(self) -> Closed {
        let slots = close(self.ring, self.driver, self.controller);
        Closed::of(slots, self.spare, self.held)
    }

    fn control(step: ControlStep) -> Step {
        RxStep::Control(step)
    }

    fn renews(step: Step) -> bool {
        step == RxStep::ClearHead
    }

    fn random_step(&self, random: &mut Random) -> Step {
        match random.below(64) {
            20..=24 => random_store(random),
            at @ 0..=50 => step_at(at),
            _ => RxStep::Control(random_control(random)),
        }
    }
}

/// The step for a random number below 51, other than a store.
fn step_at(at: u64) -> Step {
    match at {
        0..=6 => RxStep::Post(0),
        7..=10 => RxStep::Publish,
        11..=14 => RxStep::Look,
        15..=19 => RxStep::Fetch,
        20..=29 => RxStep::Take,
        30 => RxStep::LoadQuiet,
        31..=35 => RxStep::Head,
        36 => RxStep::StoreQuiet,
        37..=44 => RxStep::Reclaim,
        45..=48 => RxStep::ClearHead,
        49 => RxStep::ClearTail,
        _ => RxStep::ClearQuiet,
    }
}

fn random_store(random: &mut Random) -> Step {
    let len = match random.below(6) {
        0 => 1,
        1 => 13,
        2 => 14,
        3 => 60,
        4 => 1_024,
        _ => 2_048,
    };
    let eop = random.below(8) != 0;
    rx_step(RxStep::Store(len, eop)).unwrap_or(RxStep::Head)
}
