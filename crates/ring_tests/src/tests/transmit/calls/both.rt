//! Both ends of a ring in one thread, with the buffer that the controller holds, and the pure machine. A call whose
//! condition does not hold is left out. It returns the note of its step, with 0 for a place.
ghost use Rattle.std.specs.Prelude.{◌≡◌, ◌+◌, ◌<◌, ◌≤◌, ◌⊎◌, true, length, Some};
ghost use Rattle.limits.specs.declared.profile.TheConstants.{LEAST_FRAME, MOST_FRAME, MOST_SEGMENTS};
ghost use Rattle.ring_model.specs.transmit.Ring.{carried};
ghost use Rattle.ring_model.specs.shared.Frames.{join, unfinished};
ghost use Rattle.tx_ring.specs.Ends.{driver_size, posted};
ghost use Rattle.tx_ring.specs.Ends.{held as held_by};
ghost use Rattle.ring_tests.specs.Begun.{AreOfFrame};

use crate::tests::steps::{TxNamed, tx_step};
use crate::{
    BUFFERS, Beside, Closed, Random, control_step, filled, full_stash, is_filled, looked, put_back,
    random_control, renewed,
};
use buffer_pool::{Buf, Stash};
use limits::{LEAST_FRAME, MOST_FRAME, MOST_SEGMENTS};
use ring_machine::{SegmentDescriptor, TxMachine};
use ring_model::{ControlStep, FetchedSegment, Note, Owner, TxStep};
use std::alloc::Global;
use std::process::Abort;
use tx_ring::{
    Completion, ControllerEnd, DriverEnd, TxControllerEnd, TxDriverEnd, TxRing, close, meet_tx,
};

/// A step of a transmit ring.
pub(crate) type Step = TxStep<SegmentDescriptor>;

/// The unfinished frame: its postings so far, their bytes, and the length of the whole.
#[derive(Clone, Copy, Drop)]
struct Begun {
    segments: usize,
    bytes: usize,
    paylen: u16,
}

/// No unfinished frame.
const NONE: Begun = Begun {
    segments: 0,
    bytes: 0,
    paylen: 0,
};

/// A ring with its two ends, the buffers outside it, and its machine.
#[derive(Drop)]
pub(crate) struct Both {
    pub ring: TxRing,
    pub driver: TxDriverEnd,
    pub controller: TxControllerEnd,
    machine: TxMachine,
    pub completion: Completion,
    /// The spare buffers.
    spare: Stash,
    /// The number of the buffer posted last.
    number: u16,
    /// The numbers of segments posted in this epoch, each filled with its own number, of those sent, and of those
    /// cleaned or reclaimed.
    posted_count: u32,
    sent_count: u32,
    back_count: u32,
    begun: Begun,
    /// The second word of the descriptor fetched last.
    pub word: u64,
    held_buf: Option<Buf>,
    ghost drives: { driver.table ≡ ring },
    ghost serves: { controller.table ≡ ring },
    ghost holds: { held_buf ≡ held_by controller },
    ghost counts: { length (unfinished carried (posted driver)) ≡ begun.segments },
    ghost adds: { length (join carried (unfinished carried (posted driver))) ≡ begun.bytes },
    ghost few: { begun.bytes ≤ MOST_FRAME },
    ghost of_frame: { AreOfFrame begun.paylen (unfinished carried (posted driver)) },
}

impl Both {
    /// A disabled ring of `n` places, with all buffers spare.
    pub(crate) fn new<R: Abort>(rt: &R, alloc: Global, n: u32, completion: Completion) -> Both {
        let machine = TxMachine::new_with(alloc, n as usize, false, completion).expect(
            rt,
            "a machine",
        );
        let spare = full_stash(alloc, BUFFERS).expect(rt, "buffers");
        let (ring, driver, controller) = TxRing::new_with(alloc, n, completion).expect(
            rt, "a ring",
        );
        Both {
            begun: NONE,
            word: 0,
            held_buf: None,
            number: 0,
            posted_count: 0,
            sent_count: 0,
            back_count: 0,
            ring,
            driver,
            controller,
            machine,
            completion,
            spare,
        }
    }

    // Whether this posting may follow the unfinished frame.
    fn may_follow(&self, next: &SegmentDescriptor) -> bool
        ensures segments { result ≡ true → self.now.begun.segments < MOST_SEGMENTS }
        ensures descriptors { result ≡ true → self.now.begun.segments + 1 < driver_size self.now.driver }
        ensures some { result ≡ true → 0 < next.now.payload }
        ensures asks { result ≡ true → next.now.rs ≡ true → next.now.eop ≡ true }
        ensures long { result ≡ true → LEAST_FRAME ≤ next.now.paylen }
        ensures short { result ≡ true → next.now.paylen ≤ MOST_FRAME }
        ensures same { result ≡ true → (self.now.begun.segments ≡ 0) ⊎ (next.now.paylen ≡ self.now.begun.paylen) }
        ensures within { result ≡ true → self.now.begun.bytes + next.now.payload ≤ next.now.paylen }
        ensures whole { result ≡ true → next.now.eop ≡ true → self.now.begun.bytes + next.now.payload ≡ next.now.paylen }
    {
        let Begun {
            segments,
            bytes,
            paylen,
        } = self.begun;
        if segments >= MOST_SEGMENTS || segments + 1 >= self.driver.size() as usize {
            return false;
        }
        let frame = usize::from(next.paylen());
        if frame < LEAST_FRAME || frame > MOST_FRAME || (segments > 0 && next.paylen() != paylen) {
            return false;
        }
        let all = bytes + usize::from(next.len());
        if next.len() == 0 || (next.rs() && !next.eop()) {
            return false;
        }
        if next.eop() {
            all == frame
        } else {
            all <= frame
        }
    }

    fn post(&mut self, next: SegmentDescriptor) -> Option<Note> {
        if self.driver.room() == 0 || !self.driver.is_open() || !self.may_follow(&next) {
            return None;
        }
        let (eop, paylen) = (next.eop(), next.paylen());
        let buf = filled(self.spare.take()?, next.len(), self.posted_count);
        self.number = buf.number();
        self.posted_count = self.posted_count.wrapping_add(1);
        self.driver.post(&self.ring, buf, eop, next.rs(), paylen);
        if eop {
            self.begun = NONE;
        } else {
            self.begun = Begun {
                segments: self.begun.segments + 1,
                bytes: self.begun.bytes + usize::from(next.len()),
                paylen,
            };
        }
        Some(Note::Place(0))
    }

    fn publish(&mut self) -> Option<Note> {
        if !self.driver.is_open() || !self.driver.is_whole() {
            return None;
        }
        self.driver.publish(&self.ring);
        Some(Note::Tail(0))
    }

    fn fetch(&mut self) -> Option<Note> {
        let controller = &self.controller;
        if !controller.is_serving() || controller.is_holding() || controller.owes_report() {
            return None;
        }
        if controller.ready() == 0 {
            return None;
        }
        let (buf, read) = self.controller.fetch(&self.ring);
        let is_next = is_filled(&buf, self.sent_count);
        let fetched = FetchedSegment {
            buffer: buf.number(),
            len: read.len,
            eop: read.eop,
            rs: read.rs,
        };
        self.word = read.second_word();
        self.held_buf = Some(buf);
        is_next.then_some(Note::Sending(0, fetched))
    }

    fn send(&mut self) -> Option<Note> {
        let buf = self.held_buf.take()?;
        self.controller.give_back(&self.ring, buf);
        self.sent_count = self.sent_count.wrapping_add(1);
        Some(Note::Head(0))
    }

    fn report(&mut self) -> Option<Note> {
        if !self.controller.owes_report() {
            return None;
        }
        self.controller.report(&self.ring);
        match self.completion {
            Completion::Status => Some(Note::Place(0)),
            Completion::Head => Some(Note::Head(0)),
        }
    }

    fn clean(&mut self) -> Option<Note> {
        if !self.driver.is_live() || self.driver.reported() == 0 {
            return None;
        }
        let buf = self.driver.clean(&self.ring);
        self.came_back(buf)
    }

    fn answer(&mut self) {
        if self.controller.can_answer() {
            self.controller.answer(&self.ring);
        }
    }

    fn reclaim(&mut self) -> Option<Note> {
        if !self.driver.is_stopped() {
            return None;
        }
        let buf = self.driver.reclaim(&self.ring)?;
        self.came_back(buf)
    }

    // Checks that a returned buffer has the bytes with which it was posted.
    fn came_back(&mut self, buf: Buf) -> Option<Note> {
        let is_next = is_filled(&buf, self.back_count);
        self.back_count = self.back_count.wrapping_add(1);
        let note = Note::Buffer(buf.number());
        put_back(&mut self.spare, buf);
        is_next.then_some(note)
    }

    fn control_step(&mut self, step: ControlStep) -> Option<Note> {
        control_step!(self, step)
    }

    /// Lets the ends meet.
    pub(crate) fn meet(&mut self) {
        meet_tx(&self.ring, &mut self.driver, &mut self.controller);
    }

    fn machine_posts(&mut self, next: SegmentDescriptor) -> Option<Note> {
        let (eop, rs) = (next.eop(), next.rs());
        let next = SegmentDescriptor::new(self.number, next.len(), eop, rs, next.paylen())?;
        self.machine.step(TxStep::Post(next)).ok()
    }

    fn machine_loads(&mut self) -> Option<Note> {
        match self.machine.step(TxStep::LoadReport) {
            Ok(Note::Reported(Some(place))) => Some(Note::Reported(Some(place))),
            _ => None,
        }
    }

    fn machine_renews(&mut self) -> Option<Note> {
        let note = self.machine.step(TxStep::ClearHead).ok()?;
        self.machine.step(TxStep::ClearTail).ok()?;
        if self.completion == Completion::Head {
            self.machine.step(TxStep::ClearReport).ok()?;
        }
        Some(note)
    }

    fn renew(&mut self) -> Option<Note> {
        renewed!(self);
        self.begun = NONE;
        self.posted_count = 0;
        self.sent_count = 0;
        self.back_count = 0;
        Some(Note::Head(0))
    }

    // A random posting: a frame's first segment, or the next of the unfinished frame, with at most four segments.
    fn random_posting(&self, random: &mut Random) -> Step {
        let Begun {
            segments,
            bytes,
            paylen,
        } = self.begun;
        let frame = match random.below(4) {
            _ if segments > 0 => paylen,
            0 => 14,
            1 => 61,
            2 => 2_048,
            _ => 3_000,
        };
        let left = usize::from(frame).saturating_sub(bytes);
        let most = if segments < 3 && random.below(2) == 0 {
            left / 2
        } else {
            left
        };
        let len = most.min(2_048);
        let eop = len == left;
        let rs = eop && random.below(2) == 0;
        SegmentDescriptor::new(0, len as u16, eop, rs, frame).map_or(TxStep::Publish, TxStep::Post)
    }
}

impl Beside for Both {
    type Step = Step;

    fn random_step(&self, random: &mut Random) -> Step {
        match random.below(64) {
            0..=7 => self.random_posting(random),
            at @ 8..=52 => step_at(at),
            _ => TxStep::Control(random_control(random)),
        }
    }

    // The call returns the same for no outstanding report and for one that is not made yet.
    fn call(&mut self, step: Step) -> Option<Note> {
        match step {
            TxStep::Post(posted) => self.post(posted),
            TxStep::Publish => self.publish(),
            TxStep::Look => looked!(self, Note::Ready),
            TxStep::Fetch => self.fetch(),
            TxStep::Send => self.send(),
            TxStep::Report => self.report(),
            TxStep::LoadReport => {
                let is_made = self.driver.poll_report(&self.ring);
                is_made.then_some(Note::Reported(Some(0)))
            }
            TxStep::Clean => self.clean(),
            TxStep::Control(control) => self.control_step(control),
            TxStep::Reclaim => self.reclaim(),
            TxStep::ClearHead => self.renew(),
            TxStep::ClearTail | TxStep::ClearReport => None,
        }
    }

    fn step(&mut self, step: Step) -> Option<Note> {
        match step {
            TxStep::Post(next) => self.machine_posts(next),
            TxStep::LoadReport => self.machine_loads(),
            TxStep::ClearHead => self.machine_renews(),
            _ => self.machine.step(step).ok(),
        }
    }

    fn is_lawful(&self, step: Step) -> bool {
        if let TxStep::Post(next) = step {
            return self.may_follow(&next);
        }
        true
    }

    fn control(step: ControlStep) -> Step {
        TxStep::Control(step)
    }

    fn posted(&self, step: Step) -> Option<u16> {
        matches!(step, TxStep::Post(_)).then_some(self.number)
    }

    fn owner(&self, place: u16) -> Option<Owner> {
        if place < self.machine.size() {
            Some(self.machine.owner(place))
        } else {
            None
        }
    }

    fn left(&mut self) -> Option<(u32, u32)> {
        if !self.driver.is_stopped() {
            return None;
        }
        let left = self.driver.left(&self.ring);
        Some((left, self.posted_count.wrapping_sub(self.sent_count)))
    }

    fn renews(step: Step) -> bool {
        step == TxStep::ClearHead
    }

    fn close(self) -> Closed {
        let slots = close(self.ring, self.driver, self.controller);
        Closed::of(slots, self.spare, self.held_buf)
    }
}

/// The step for a random number below 53, other than a posting.
fn step_at(at: u64) -> Step {
    match at {
        0..=12 => TxStep::Publish,
        13..=16 => TxStep::Look,
        17..=22 => TxStep::Fetch,
        23..=28 => TxStep::Send,
        29..=32 => TxStep::Report,
        33..=36 => TxStep::LoadReport,
        37..=41 => TxStep::Clean,
        42..=47 => TxStep::Reclaim,
        48..=50 => TxStep::ClearHead,
        51 => TxStep::ClearTail,
        _ => TxStep::ClearReport,
    }
}

/// The step of a row. If it posts no lawful segment, a step that can never be made.
pub(crate) fn step_of(named: TxNamed) -> Step {
    tx_step(named).unwrap_or(TxStep::ClearReport)
}
