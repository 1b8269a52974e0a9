//! One transmit queue as a machine: the shared core, and its reports.

ghost use Rattle.std.specs.Prelude.{◌≡◌, ◌^◌, ◌<◌, ◌↔◌, ◌⊎◌, IfErr, IfOk, IfSome};
ghost use Rattle.limits.specs.RingLength.{IsRingLength};
ghost use Rattle.ring_model.specs.declared.states.Completion.TheVariants as by;
ghost use Rattle.ring_model.specs.declared.steps.TxStep.TheVariants as step;
ghost use Rattle.ring_model.specs.transmit.Ring.{tx_opening};
ghost use Rattle.refusals.specs.declared.errors.MachineError.TheVariants.{Memory, NotEnabled, RingLength};
ghost use Rattle.ring_machine.specs.transmit.Machine.{TxAgrees, TxFollows, TxOwns, TxRuns};
ghost use Rattle.ring_machine.specs.code.TxSound.{IsTxSound, StepFits};
ghost use Rattle.ring_machine.specs.code.Obstacles.{tx_obstacle};
ghost use Rattle.ring_machine.specs.code.Transmit.{is_made, oldest_place, tx_after_renew, tx_may, tx_moved, tx_told};

use crate::counting::count_of;
use crate::machine::hindering::{needs, unless};
use crate::machine::queue::QueueMachine;
use crate::machine::words::{DONE, eop_in, first_asking, len_in, place_before, rs_in};
use crate::moves::arguments::SegmentDescriptor;
use crate::obstacle::Obstacle;
use refusals::MachineError;
use ring_model::{
    Completion, ControlStep, FetchedSegment, Note, Owner, TxStep, place_after, places_between,
};
use std::alloc::Global;
use std::marker::Model;

/// One transmit queue. It has no lists of posted, sent and cleaned items: these belong to the ring that it agrees with.
#[derive(Drop)]
pub struct TxMachine {
    queue: QueueMachine,
    completion: Completion,
    report: u16,
    rep: u16,
    ends: bool,
    owed: bool,
}

impl Model for TxMachine {
    ghost use Rattle.ring_machine.specs.transmit.Machine.{tx_parts_of, TxParts};
    ghost use Rattle.ring_machine.specs.code.TxSound.{IsTxSound};

    ghost Value = { TxParts };

    ghost view = { tx_parts_of };

    ghost invariant = { λ m. IsTxSound (tx_parts_of m) };
}

// Queries, and the checked step.
impl TxMachine {
    // Returns the place of the oldest report that was asked for and not seen.
    fn oldest_report(&self) -> Option<u16>
        ensures value { result ≡ oldest_place self.now }
        ensures below { IfSome result (λ place. place < self.now.queue.size) }
    {
        let size = self.queue.size();
        let count = places_between(self.rep, self.queue.fill(), size);
        first_asking(self.queue.words(), size, self.rep, count)
    }

    // Whether the report of this place is made: by the word of its descriptor, or by the head word.
    fn is_made(&self, place: u16) -> bool
        requires { place < self.now.queue.size }
        ensures { result ≡ is_made self.now place }
    {
        if !self.completion.is_by_head() {
            return self.queue.word(place) == DONE;
        }
        let size = self.queue.size();
        let reported = places_between(self.rep, self.report, size);
        places_between(self.rep, place_after(place, size), size) <= reported
    }

    /// Makes one step. Returns `NotEnabled` if the queue cannot make it. An `Err` leaves the machine unchanged.
    pub fn step(&mut self, step: TxStep<SegmentDescriptor>) -> Result<Note, MachineError>
        ensures follows { TxFollows self.old step result self.new }
        ensures refused { IfErr result (λ e. (e ≡ NotEnabled) × (self.new ≡ self.old)) }
    {
        if !self.may(&step) {
            return Err(MachineError::NotEnabled);
        }
        self.make(&step)
    }

    // Whether words and places allow the step.
    fn may(&self, step: &TxStep<SegmentDescriptor>) -> bool
        ensures told { result ≡ tx_may self.now step.now }
        ensures sound { IsTxSound self.now }
    {
        let handshake = self.queue.handshake();
        match step {
            TxStep::Post(_) => self.queue.can_post(),
            TxStep::Publish => handshake.driver.is_open() && self.ends,
            TxStep::Look => handshake.controller.is_serving(),
            TxStep::Fetch => self.queue.can_fetch() && !self.owed,
            TxStep::Send => self.queue.is_holding(),
            TxStep::Report => self.owed,
            TxStep::LoadReport => handshake.driver.is_live() && self.oldest_report().is_some(),
            TxStep::Clean => handshake.driver.is_live() && self.queue.next() != self.rep,
            TxStep::Control(control) => {
                handshake.may_control_step(*control, self.queue.is_settled() && !self.owed)
            }
            TxStep::Reclaim => handshake.driver.is_stopped() && !self.queue.are_all_back(),
            TxStep::ClearHead => handshake.driver.is_stopped() && self.queue.are_all_back(),
            TxStep::ClearTail => handshake.driver.is_cleared(),
            TxStep::ClearReport => self.completion.is_by_head() && handshake.driver.is_tailed(),
        }
    }

    /// Returns the core, with the words, slots and places.
    pub fn queue(&self) -> &QueueMachine
        ensures { result.now ≡ self.now.queue }
    {
        &self.queue
    }

    /// Returns the owner of this place.
    pub fn owner(&self, place: u16) -> Owner
        requires { place < self.now.queue.size }
        ensures { TxOwns self.now place result }
    {
        self.queue.owner(place)
    }
}

// The effect of each step.
impl TxMachine {
    fn post(&mut self, posted: &SegmentDescriptor) -> Note
        ensures told { Ok result ≡ tx_told self.old (step.Post posted.now) }
        ensures moved { self.new ≡ tx_moved self.old (step.Post posted.now) }
        ensures short { posted.now.payload < 2 ^ 16 }
    {
        self.ends = posted.eop();
        Note::Place(self.queue.post(posted.number(), posted.word()))
    }

    fn fetch(&mut self) -> Result<Note, MachineError>
        ensures told { result ≡ tx_told self.old step.Fetch }
        ensures moved { self.new ≡ tx_moved self.old step.Fetch }
    {
        let place = self.queue.serve_place();
        let word = self.queue.word(place);
        let Some(buffer) = self.queue.fetch() else {
            return Err(MachineError::NotEnabled);
        };
        let (len, eop, rs) = (len_in(word), eop_in(word), rs_in(word));
        Ok(Note::Sending(
            place,
            FetchedSegment {
                buffer,
                len,
                eop,
                rs,
            },
        ))
    }

    // The word is still the fetched one: only a report changes it.
    fn send(&mut self) -> Result<Note, MachineError>
        ensures told { result ≡ tx_told self.old step.Send }
        ensures moved { self.new ≡ tx_moved self.old step.Send }
    {
        let word = self.queue.word(self.queue.serve_place());
        if self.queue.serve(None, eop_in(word)).is_none() {
            return Err(MachineError::NotEnabled);
        }
        self.owed = rs_in(word);
        Ok(Note::Head(self.queue.store_head()))
    }

    fn report(&mut self) -> Note
        ensures told { Ok result ≡ tx_told self.old step.Report }
        ensures moved { self.new ≡ tx_moved self.old step.Report }
    {
        let serve = self.queue.serve_place();
        self.owed = false;
        if self.completion.is_by_head() {
            self.report = serve;
            Note::Head(serve)
        } else {
            let place = place_before(serve, self.queue.size());
            self.queue.write(place, Some(DONE));
            Note::Place(place)
        }
    }

    fn load_report(&mut self) -> Note
        ensures told { Ok result ≡ tx_told self.old step.LoadReport }
        ensures moved { self.new ≡ tx_moved self.old step.LoadReport }
    {
        let Some(place) = self.oldest_report() else {
            return Note::Reported(None);
        };
        if !self.is_made(place) {
            return Note::Reported(None);
        }
        self.rep = place_after(place, self.queue.size());
        Note::Reported(Some(place))
    }

    // Both cleaning and reclaiming.
    fn take_out(&mut self) -> Result<Note, MachineError>
        ensures told { result ≡ tx_told self.old step.Clean }
        ensures moved { self.new ≡ tx_moved self.old step.Clean }
    {
        match self.queue.take_out(Some(0)) {
            Some(buffer) => Ok(Note::Buffer(buffer)),
            None => Err(MachineError::NotEnabled),
        }
    }

    fn control_step(&mut self, control: ControlStep) -> Note
        ensures told { Ok result ≡ tx_told self.old (step.Control control) }
        ensures moved { self.new ≡ tx_moved self.old (step.Control control) }
    {
        if self.queue.enables(control) {
            self.owed = false;
        }
        Note::Control(self.queue.control_step(control))
    }

    fn clear_head(&mut self) -> Note
        ensures told { Ok result ≡ tx_told self.old step.ClearHead }
        ensures moved { self.new ≡ tx_moved self.old step.ClearHead }
    {
        self.queue.clear_head();
        Note::Head(0)
    }

    fn renew(&mut self)
        ensures { self.new ≡ tx_after_renew self.old }
    {
        self.queue.renew();
        self.report = 0;
        self.rep = 0;
        self.ends = true;
    }

    fn clear_tail(&mut self) -> Note
        ensures told { Ok result ≡ tx_told self.old step.ClearTail }
        ensures moved { self.new ≡ tx_moved self.old step.ClearTail }
    {
        self.queue.clear_tail();
        if !self.completion.is_by_head() {
            self.renew();
        }
        Note::Tail(0)
    }

    fn clear_report(&mut self) -> Note
        ensures told { Ok result ≡ tx_told self.old step.ClearReport }
        ensures moved { self.new ≡ tx_moved self.old step.ClearReport }
    {
        self.renew();
        Note::Head(0)
    }

    // Makes the step, if the queue can.
    fn make(&mut self, step: &TxStep<SegmentDescriptor>) -> Result<Note, MachineError>
        ensures told { result ≡ tx_told self.old step.now }
        ensures moved { self.new ≡ tx_moved self.old step.now }
        ensures short { StepFits step.now }
    {
        match step {
            TxStep::Post(posted) => Ok(self.post(posted)),
            TxStep::Publish => Ok(Note::Tail(self.queue.publish())),
            TxStep::Look => Ok(Note::Ready(self.queue.look())),
            TxStep::Fetch => self.fetch(),
            TxStep::Send => self.send(),
            TxStep::Report => Ok(self.report()),
            TxStep::LoadReport => Ok(self.load_report()),
            TxStep::Clean | TxStep::Reclaim => self.take_out(),
            TxStep::Control(control) => Ok(self.control_step(*control)),
            TxStep::ClearHead => Ok(self.clear_head()),
            TxStep::ClearTail => Ok(self.clear_tail()),
            TxStep::ClearReport => Ok(self.clear_report()),
        }
    }

    /// Returns how the queue reports.
    pub fn completion(&self) -> Completion
        ensures { result ≡ self.now.completion }
    {
        self.completion
    }

    /// Returns the head word, which a queue that reports by it stores.
    pub fn report_word(&self) -> u16
        ensures { result ≡ self.now.report }
    {
        self.report
    }

    /// Returns the place after the last report that the driver has seen.
    pub fn seen_place(&self) -> u16
        ensures { result ≡ self.now.rep }
    {
        self.rep
    }

    /// Whether the last posted segment ends a frame, or nothing was posted in this epoch.
    pub fn is_posted_whole(&self) -> bool
        ensures { result ≡ self.now.ends }
    {
        self.ends
    }

    /// Whether a report is due.
    pub fn is_report_due(&self) -> bool
        ensures { result ≡ self.now.owed }
    {
        self.owed
    }

    /// Returns the first condition of a step that does not hold, or `None` if the queue can make the step.
    pub fn obstacle(&self, step: &TxStep<SegmentDescriptor>) -> Option<Obstacle>
        ensures { result ≡ tx_obstacle self.now step.now }
    {
        let (queue, handshake) = (&self.queue, self.queue.handshake());
        let (driver, controller) = (handshake.driver, handshake.controller);
        let reported = needs(!self.owed, Obstacle::ReportDue);
        match step {
            TxStep::Post(_) => queue.post_obstacle(),
            TxStep::Publish => unless(
                driver.is_open(),
                Obstacle::NotOpen,
                needs(self.ends, Obstacle::PostedPart),
            ),
            TxStep::Look => needs(controller.is_serving(), Obstacle::NotServing),
            TxStep::Fetch => queue.fetch_obstacle(reported),
            TxStep::Send => needs(queue.is_holding(), Obstacle::NotHolding),
            TxStep::Report => needs(self.owed, Obstacle::NoReportDue),
            TxStep::LoadReport => {
                let awaited = needs(self.oldest_report().is_some(), Obstacle::NoReportAwaited);
                unless(driver.is_live(), Obstacle::NotLive, awaited)
            }
            TxStep::Clean => {
                let cleaned = needs(queue.next() != self.rep, Obstacle::NotReported);
                unless(driver.is_live(), Obstacle::NotLive, cleaned)
            }
            TxStep::Control(control) => queue.control_obstacle(*control, reported),
            TxStep::Reclaim => unless(
                driver.is_stopped(),
                Obstacle::NotStopped,
                queue.out_obstacle(),
            ),
            TxStep::ClearHead => unless(
                driver.is_stopped(),
                Obstacle::NotStopped,
                needs(queue.are_all_back(), Obstacle::SomeOut),
            ),
            TxStep::ClearTail => needs(driver.is_cleared(), Obstacle::NotCleared),
            TxStep::ClearReport => unless(
                self.completion.is_by_head(),
                Obstacle::NoHeadWord,
                needs(driver.is_tailed(), Obstacle::NotTailed),
            ),
        }
    }

    /// Makes each step that the queue can make at its turn, skips the others, and returns the number of steps made.
    pub fn run(&mut self, steps: &[TxStep<SegmentDescriptor>]) -> usize
        ensures { TxRuns self.old steps.now result self.new }
    {
        let mut made = 0;
        for step in steps {
            made += count_of(&self.step(*step));
        }
        made
    }
}

// Construction.
impl TxMachine {
    /// Makes a transmit queue of `n` descriptors that reports by its descriptors, with nothing posted: enabled and seen
    /// enabled if `enabled`, else never enabled. Returns `RingLength` if `n` is not a power of two from 8 to 4,096, and
    /// `Memory` only if memory was refused.
    pub fn new(alloc: Global, n: usize, enabled: bool) -> Result<TxMachine, MachineError>
        ensures refused { (result ≡ Err RingLength) ↔ ¬ (IsRingLength n) }
        ensures error { IfErr result (λ e. (e ≡ RingLength) ⊎ (e ≡ Memory)) }
        ensures made { IfOk result (λ m. TxAgrees m (tx_opening n (record { enabled = enabled; completion = by.Status }))) }
    {
        TxMachine::new_with(alloc, n, enabled, Completion::Status)
    }

    /// Like `new`, for a queue that reports as `completion` says.
    pub fn new_with(
        alloc: Global,
        n: usize,
        enabled: bool,
        completion: Completion,
    ) -> Result<TxMachine, MachineError>
        ensures refused { (result ≡ Err RingLength) ↔ ¬ (IsRingLength n) }
        ensures error { IfErr result (λ e. (e ≡ RingLength) ⊎ (e ≡ Memory)) }
        ensures made { IfOk result (λ m. TxAgrees m (tx_opening n (record { enabled = enabled; completion = completion }))) }
    {
        let queue = QueueMachine::new(alloc, n, enabled)?;
        Ok(TxMachine {
            queue,
            completion,
            report: 0,
            rep: 0,
            ends: true,
            owed: false,
        })
    }

    /// Returns the number of places, and so of descriptors.
    pub fn size(&self) -> u16
        ensures { result ≡ self.now.queue.size }
    {
        self.queue.size()
    }
}
