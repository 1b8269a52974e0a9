//! One receive queue as a machine: the shared core, and the quiet word.

ghost use Rattle.std.specs.Prelude.{◌≡◌, ◌<◌, ◌↔◌, ◌⊎◌, IfErr, IfOk};
ghost use Rattle.limits.specs.RingLength.{IsRingLength};
ghost use Rattle.ring_model.specs.declared.steps.RxStep.TheVariants as step;
ghost use Rattle.ring_model.specs.receive.Agreement.{rx_word};
ghost use Rattle.ring_model.specs.receive.Ring.{rx_opening};
ghost use Rattle.refusals.specs.declared.errors.MachineError.TheVariants.{Memory, NotEnabled, RingLength};
ghost use Rattle.ring_machine.specs.code.Sound.{IsSound};
ghost use Rattle.ring_machine.specs.receive.Machine.{RxAgrees, RxFollows, RxOwns, RxRuns};
ghost use Rattle.ring_machine.specs.code.Obstacles.{rx_obstacle};
ghost use Rattle.ring_machine.specs.code.Receive.{rx_may, rx_moved, rx_told};

use crate::counting::count_of;
use crate::machine::hindering::{needs, unless};
use crate::machine::queue::QueueMachine;
use crate::moves::arguments::SegmentLength;
use crate::obstacle::Obstacle;
use refusals::MachineError;
use ring_model::{ControlStep, Note, Owner, RxStep, TakenSegment};
use std::alloc::Global;
use std::marker::Model;

/// One receive queue. It has no lists of posted, stored and taken items: these belong to the ring that it agrees with.
#[derive(Drop)]
pub struct RxMachine {
    queue: QueueMachine,
    quiet: u8,
    still: bool,
}

impl Model for RxMachine {
    ghost use Rattle.ring_machine.specs.receive.Machine.{rx_parts_of, RxParts};

    ghost Value = { RxParts };

    ghost view = { rx_parts_of };
}

// Returns the second word of a write-back (82599 datasheet, 7.1.6.2).
fn written_back(len: u16, eop: bool) -> u64
    ensures { result ≡ rx_word len eop }
{
    let end = if eop { 2 } else { 0 };
    1 + end + u64::from(len) * 0x1_0000_0000
}

impl RxMachine {
    /// Makes one step. Returns `NotEnabled` if the queue cannot make it. An `Err` leaves the machine unchanged.
    pub fn step(&mut self, step: RxStep<SegmentLength>) -> Result<Note, MachineError>
        ensures follows { RxFollows self.old step result self.new }
        ensures refused { IfErr result (λ e. (e ≡ NotEnabled) × (self.new ≡ self.old)) }
    {
        if !self.may(&step) {
            return Err(MachineError::NotEnabled);
        }
        self.make(&step)
    }

    fn fetch(&mut self) -> Result<Note, MachineError>
        ensures told { result ≡ rx_told self.old step.Fetch }
        ensures moved { self.new ≡ rx_moved self.old step.Fetch }
    {
        let place = self.queue.serve_place();
        match self.queue.fetch() {
            Some(buffer) => Ok(Note::Fetched(place, buffer)),
            None => Err(MachineError::NotEnabled),
        }
    }

    fn store(&mut self, len: u16, eop: bool) -> Result<Note, MachineError>
        ensures told { result ≡ rx_told self.old (step.Store len eop) }
        ensures moved { self.new ≡ rx_moved self.old (step.Store len eop) }
    {
        let place = self.queue.serve_place();
        match self.queue.serve(Some(written_back(len, eop)), eop) {
            Some(_) => Ok(Note::Place(place)),
            None => Err(MachineError::NotEnabled),
        }
    }

    fn take(&mut self) -> Result<Note, MachineError>
        ensures told { result ≡ rx_told self.old step.Take }
        ensures moved { self.new ≡ rx_moved self.old step.Take }
    {
        let word = self.queue.word(self.queue.next());
        if word % 2 != 1 {
            return Ok(Note::Taken(None));
        }
        let Some(buffer) = self.queue.take_out(None) else {
            return Err(MachineError::NotEnabled);
        };
        let len = (word / 0x1_0000_0000) as u32;
        let eop = word / 2 % 2 == 1;
        Ok(Note::Taken(Some(TakenSegment { buffer, len, eop })))
    }

    fn control_step(&mut self, control: ControlStep) -> Note
        ensures told { Ok result ≡ rx_told self.old (step.Control control) }
        ensures moved { self.new ≡ rx_moved self.old (step.Control control) }
    {
        if self.queue.enables(control) {
            self.still = false;
        }
        Note::Control(self.queue.control_step(control))
    }

    fn reclaim(&mut self) -> Result<Note, MachineError>
        ensures told { result ≡ rx_told self.old step.Reclaim }
        ensures moved { self.new ≡ rx_moved self.old step.Reclaim }
    {
        match self.queue.take_out(Some(0)) {
            Some(buffer) => Ok(Note::Buffer(buffer)),
            None => Err(MachineError::NotEnabled),
        }
    }

    fn store_quiet(&mut self) -> Note
        ensures told { Ok result ≡ rx_told self.old step.StoreQuiet }
        ensures moved { self.new ≡ rx_moved self.old step.StoreQuiet }
    {
        self.quiet = 1;
        self.still = true;
        Note::Quiet(1)
    }

    fn clear_head(&mut self) -> Note
        ensures told { Ok result ≡ rx_told self.old step.ClearHead }
        ensures moved { self.new ≡ rx_moved self.old step.ClearHead }
    {
        self.queue.clear_head();
        Note::Head(0)
    }

    fn clear_tail(&mut self) -> Note
        ensures told { Ok result ≡ rx_told self.old step.ClearTail }
        ensures moved { self.new ≡ rx_moved self.old step.ClearTail }
    {
        self.queue.clear_tail();
        Note::Tail(0)
    }

    fn renew(&mut self) -> Note
        ensures told { Ok result ≡ rx_told self.old step.ClearQuiet }
        ensures moved { self.new ≡ rx_moved self.old step.ClearQuiet }
    {
        self.queue.renew();
        self.quiet = 0;
        Note::Quiet(0)
    }

    // Whether words and places allow the step.
    fn may(&self, step: &RxStep<SegmentLength>) -> bool
        ensures told { result ≡ rx_may self.now step.now }
        ensures sound { IsSound self.now.queue }
    {
        let handshake = self.queue.handshake();
        match step {
            RxStep::Post(_) => self.queue.can_post(),
            RxStep::Publish => handshake.driver.is_open(),
            RxStep::Look => handshake.controller.is_serving(),
            RxStep::Fetch => self.queue.can_fetch() && !self.still,
            RxStep::Store(_, _) => self.queue.is_holding(),
            RxStep::Take => handshake.driver.is_live() && !self.queue.are_all_back(),
            RxStep::Head => self.queue.is_idle(),
            RxStep::Control(control) => handshake.may_control_step(
                *control,
                self.queue.is_settled(),
            ),
            RxStep::Reclaim => handshake.driver.is_stopped() && !self.queue.are_all_back(),
            RxStep::StoreQuiet => self.queue.is_idle() && self.queue.is_whole(),
            RxStep::LoadQuiet => true,
            RxStep::ClearHead => handshake.driver.is_stopped() && self.queue.are_all_back(),
            RxStep::ClearTail => handshake.driver.is_cleared(),
            RxStep::ClearQuiet => handshake.driver.is_tailed(),
        }
    }

    // Makes the step, if the queue can.
    fn make(&mut self, step: &RxStep<SegmentLength>) -> Result<Note, MachineError>
        ensures told { result ≡ rx_told self.old step.now }
        ensures moved { self.new ≡ rx_moved self.old step.now }
    {
        match step {
            RxStep::Post(buffer) => Ok(Note::Place(self.queue.post(*buffer, 0))),
            RxStep::Publish => Ok(Note::Tail(self.queue.publish())),
            RxStep::Look => Ok(Note::Free(self.queue.look())),
            RxStep::Fetch => self.fetch(),
            RxStep::Store(len, eop) => self.store(len.bytes(), *eop),
            RxStep::Take => self.take(),
            RxStep::Head => Ok(Note::Head(self.queue.store_head())),
            RxStep::Control(control) => Ok(self.control_step(*control)),
            RxStep::Reclaim => self.reclaim(),
            RxStep::StoreQuiet => Ok(self.store_quiet()),
            RxStep::LoadQuiet => Ok(Note::Quiet(self.quiet)),
            RxStep::ClearHead => Ok(self.clear_head()),
            RxStep::ClearTail => Ok(self.clear_tail()),
            RxStep::ClearQuiet => Ok(self.renew()),
        }
    }

    /// Returns the core, with the words, slots and places.
    pub fn queue(&self) -> &QueueMachine
        ensures { result.now ≡ self.now.queue }
    {
        &self.queue
    }

    /// Returns the owner of this place.
    pub fn owner(&self, place: u16) -> Owner
        requires { place < self.now.queue.size }
        ensures { RxOwns self.now place result }
    {
        self.queue.owner(place)
    }

    /// Returns the quiet word.
    pub fn quiet(&self) -> u8
        ensures { result ≡ self.now.quiet }
    {
        self.quiet
    }

    /// Whether the controller said in this epoch that it stores no more frames.
    pub fn is_still(&self) -> bool
        ensures { result ≡ self.now.still }
    {
        self.still
    }

    /// Returns the first condition of a step that does not hold, or `None` if the queue can make the step.
    pub fn obstacle(&self, step: &RxStep<SegmentLength>) -> Option<Obstacle>
        ensures { result ≡ rx_obstacle self.now step.now }
    {
        let (queue, handshake) = (&self.queue, self.queue.handshake());
        let (driver, controller) = (handshake.driver, handshake.controller);
        match step {
            RxStep::Post(_) => queue.post_obstacle(),
            RxStep::Publish => needs(driver.is_open(), Obstacle::NotOpen),
            RxStep::Look => needs(controller.is_serving(), Obstacle::NotServing),
            RxStep::Fetch => queue.fetch_obstacle(needs(!self.still, Obstacle::Quiet)),
            RxStep::Store(_, _) => needs(queue.is_holding(), Obstacle::NotHolding),
            RxStep::Take => unless(driver.is_live(), Obstacle::NotLive, queue.out_obstacle()),
            RxStep::Head => queue.idle_obstacle(None),
            RxStep::Control(control) => queue.control_obstacle(*control, None),
            RxStep::Reclaim => unless(
                driver.is_stopped(),
                Obstacle::NotStopped,
                queue.out_obstacle(),
            ),
            RxStep::StoreQuiet => {
                queue.idle_obstacle(needs(queue.is_whole(), Obstacle::MidFrame))
            }
            RxStep::LoadQuiet => None,
            RxStep::ClearHead => unless(
                driver.is_stopped(),
                Obstacle::NotStopped,
                needs(queue.are_all_back(), Obstacle::SomeOut),
            ),
            RxStep::ClearTail => needs(driver.is_cleared(), Obstacle::NotCleared),
            RxStep::ClearQuiet => needs(driver.is_tailed(), Obstacle::NotTailed),
        }
    }

    /// Makes each step that the queue can make at its turn, skips the others, and returns the number of steps made.
    pub fn run(&mut self, steps: &[RxStep<SegmentLength>]) -> usize
        ensures { RxRuns self.old steps.now result self.new }
    {
        let mut made = 0;
        for step in steps {
            made += count_of(&self.step(*step));
        }
        made
    }

    /// Makes a receive queue of `n` descriptors with nothing posted: enabled and seen enabled if `enabled`, else never
    /// enabled. Returns `RingLength` if `n` is not a power of two from 8 to 4,096, and `Memory` only if memory was
    /// refused.
    pub fn new(alloc: Global, n: usize, enabled: bool) -> Result<RxMachine, MachineError>
        ensures refused { (result ≡ Err RingLength) ↔ ¬ (IsRingLength n) }
        ensures error { IfErr result (λ e. (e ≡ RingLength) ⊎ (e ≡ Memory)) }
        ensures made { IfOk result (λ m. RxAgrees m (rx_opening n enabled)) }
    {
        let queue = QueueMachine::new(alloc, n, enabled)?;
        Ok(RxMachine {
            queue,
            quiet: 0,
            still: false,
        })
    }

    /// Returns the number of places, and so of descriptors.
    pub fn size(&self) -> u16
        ensures { result ≡ self.now.queue.size }
    {
        self.queue.size()
    }
}
