//! Several queues side by side: the receive and the transmit queues of one port.

ghost use Rattle.std.specs.Prelude.{◌≡◌, ◌↔◌, ◌⊎◌, IfOk, IfErr, is_none, option_map, replicate, slice_get};
ghost use Rattle.refusals.specs.declared.errors.MachineError.TheVariants.{Memory, NotEnabled, RingLength};
ghost use Rattle.ring_machine.specs.declared.moves.Move.TheVariants as queue_move;
ghost use Rattle.limits.specs.RingLength.{IsRingLength};
ghost use Rattle.ring_model.specs.declared.states.Completion.TheVariants as by;
ghost use Rattle.ring_model.specs.Worlds.{opening_world};
ghost use Rattle.ring_model.specs.receive.Ring.{rx_opening};
ghost use Rattle.ring_model.specs.transmit.Ring.{tx_opening};
ghost use Rattle.ring_machine.specs.receive.Machine.{RxAgrees};
ghost use Rattle.ring_machine.specs.transmit.Machine.{TxAgrees};
ghost use Rattle.ring_machine.specs.Queues.{AllAgree, AreQueues, QueuesAgree, QueuesFollow, QueuesRun};
ghost use Rattle.ring_machine.specs.Registers.{QueuesRead};
ghost use Rattle.ring_machine.specs.code.Obstacles.{queue_may, queue_obstacle};

use crate::counting::count_of;
use crate::machine::{RxMachine, TxMachine};
use crate::moves::arguments::{SegmentDescriptor, SegmentLength};
use crate::moves::{Move, QueueNumber};
use crate::obstacle::Obstacle;
use crate::registers::{QueueKind, Registers};
use limits::{MOST_PAIRS, is_ring_length};
use refusals::MachineError;
use ring_model::{Completion, Note, RxStep, TxStep};
use std::alloc::Global;
use std::marker::Model;

/// Receive and transmit queues, each numbered from 0. A move names one of them and leaves all others unchanged.
#[derive(Drop)]
pub struct Queues {
    receive: Vec<RxMachine>,
    transmit: Vec<TxMachine>,
}

impl Model for Queues {
    ghost use Rattle.ring_machine.specs.Queues.{queue_parts_of, QueueParts};

    ghost Value = { QueueParts };

    ghost view = { queue_parts_of };
}

// Makes `pairs` receive queues.
fn receive_queues(
    alloc: Global,
    pairs: usize,
    n: usize,
    enabled: bool,
) -> Result<Vec<RxMachine>, MachineError>
    requires { IsRingLength n }
    ensures error { IfErr result (λ e. e ≡ Memory) }
    ensures made { IfOk result (λ made. AllAgree RxAgrees made.items (replicate pairs (rx_opening n enabled))) }
{
    let mut queues = Vec::new(alloc);
    for _ in 0..pairs {
        let queue = RxMachine::new(alloc, n, enabled)?;
        if queues.push(queue).is_err() {
            return Err(MachineError::Memory);
        }
    }
    Ok(queues)
}

// Makes `pairs` transmit queues.
fn transmit_queues(
    alloc: Global,
    pairs: usize,
    n: usize,
    enabled: bool,
    completion: Completion,
) -> Result<Vec<TxMachine>, MachineError>
    requires { IsRingLength n }
    ensures error { IfErr result (λ e. e ≡ Memory) }
    ensures made { IfOk result (λ made. AllAgree TxAgrees made.items (replicate pairs (tx_opening n (record { enabled = enabled; completion = completion })))) }
{
    let mut queues = Vec::new(alloc);
    for _ in 0..pairs {
        let queue = TxMachine::new_with(alloc, n, enabled, completion)?;
        if queues.push(queue).is_err() {
            return Err(MachineError::Memory);
        }
    }
    Ok(queues)
}

impl Queues {
    /// Makes `pairs` pairs of a receive and a transmit queue, 1 to 8, each of `n` descriptors with nothing posted:
    /// enabled and seen enabled if `enabled`, else never enabled. The transmit queues report by their descriptors.
    /// Returns `RingLength` if `pairs` is out of range or `n` is not a power of two from 8 to 4,096, and `Memory` only
    /// if memory was refused.
    pub fn new(alloc: Global, pairs: usize, n: usize, enabled: bool) -> Result<Queues, MachineError>
        ensures refused { (result ≡ Err RingLength) ↔ ¬ (AreQueues pairs n) }
        ensures error { IfErr result (λ e. (e ≡ RingLength) ⊎ (e ≡ Memory)) }
        ensures made { IfOk result (λ q. QueuesAgree q (opening_world pairs n (record { enabled = enabled; completion = by.Status }))) }
    {
        Queues::new_with(alloc, pairs, n, enabled, Completion::Status)
    }

    /// Like `new`, with transmit queues that report as `completion` says.
    pub fn new_with(
        alloc: Global,
        pairs: usize,
        n: usize,
        enabled: bool,
        completion: Completion,
    ) -> Result<Queues, MachineError>
        ensures refused { (result ≡ Err RingLength) ↔ ¬ (AreQueues pairs n) }
        ensures error { IfErr result (λ e. (e ≡ RingLength) ⊎ (e ≡ Memory)) }
        ensures made { IfOk result (λ q. QueuesAgree q (opening_world pairs n (record { enabled = enabled; completion = completion }))) }
    {
        if pairs < 1 || pairs > MOST_PAIRS || !is_ring_length(n) {
            return Err(MachineError::RingLength);
        }
        let receive = receive_queues(alloc, pairs, n, enabled)?;
        let transmit = transmit_queues(alloc, pairs, n, enabled, completion)?;
        Ok(Queues { receive, transmit })
    }

    /// Returns the receive queue of this number, or `None` if there is none.
    pub fn receive(&self, queue: QueueNumber) -> Option<&RxMachine>
        ensures { option_map (λ m. m.now) result ≡ slice_get self.now.receive queue }
    {
        self.receive.get(usize::from(queue.number()))
    }

    /// Returns the register values of the queue that a move names, or `None` if there is no such queue.
    #[tactic(auto, using(crate::proofs::Reading::read_at))]
    pub fn registers(&self, action: &Move) -> Option<Registers>
        ensures { QueuesRead self.now action.now result }
    {
        match *action {
            Move::Receive(queue, _) => {
                let machine = self.receive(queue)?;
                Some(machine.queue().registers(QueueKind::Receive))
            }
            Move::Transmit(queue, _) => {
                let machine = self.transmit(queue)?;
                Some(machine.queue().registers(QueueKind::Transmit))
            }
        }
    }

    /// Returns the transmit queue of this number, or `None` if there is none.
    pub fn transmit(&self, queue: QueueNumber) -> Option<&TxMachine>
        ensures { option_map (λ m. m.now) result ≡ slice_get self.now.transmit queue }
    {
        self.transmit.get(usize::from(queue.number()))
    }

    /// Returns the first condition of a move that does not hold, or `None` if its queue can make it.
    pub fn obstacle(&self, action: &Move) -> Option<Obstacle>
        ensures value { result ≡ queue_obstacle self.now action.now }
        ensures exact { is_none result ≡ queue_may self.now action.now }
    {
        self.hindrance(action)
    }

    // Returns that condition.
    fn hindrance(&self, action: &Move) -> Option<Obstacle>
        ensures { result ≡ queue_obstacle self.now action.now }
    {
        match action {
            Move::Receive(queue, step) => match self.receive(*queue) {
                Some(machine) => machine.obstacle(step),
                None => Some(Obstacle::NoQueue),
            },
            Move::Transmit(queue, step) => match self.transmit(*queue) {
                Some(machine) => machine.obstacle(step),
                None => Some(Obstacle::NoQueue),
            },
        }
    }

    // Makes a step of a receive queue. Returns `NotEnabled` if the queue cannot make it or does not exist.
    fn receive_step(
        &mut self,
        queue: QueueNumber,
        step: RxStep<SegmentLength>,
    ) -> Result<Note, MachineError>
        ensures follows { QueuesFollow self.old (queue_move.Receive queue step) result self.new }
        ensures refused { IfErr result (λ e. (e ≡ NotEnabled) × (self.new ≡ self.old)) }
    {
        let Some(machine) = self.receive.get_mut(usize::from(queue.number())) else {
            return Err(MachineError::NotEnabled);
        };
        machine.step(step)
    }

    // Makes a step of a transmit queue. Returns `NotEnabled` if the queue cannot make it or does not exist.
    fn transmit_step(
        &mut self,
        queue: QueueNumber,
        step: TxStep<SegmentDescriptor>,
    ) -> Result<Note, MachineError>
        ensures follows { QueuesFollow self.old (queue_move.Transmit queue step) result self.new }
        ensures refused { IfErr result (λ e. (e ≡ NotEnabled) × (self.new ≡ self.old)) }
    {
        let Some(machine) = self.transmit.get_mut(usize::from(queue.number())) else {
            return Err(MachineError::NotEnabled);
        };
        machine.step(step)
    }

    /// Makes one move. Returns `NotEnabled` if its queue cannot make the step or does not exist. An `Err` leaves the
    /// queues unchanged.
    pub fn step(&mut self, action: Move) -> Result<Note, MachineError>
        ensures follows { QueuesFollow self.old action result self.new }
        ensures refused { IfErr result (λ e. (e ≡ NotEnabled) × (self.new ≡ self.old)) }
    {
        match action {
            Move::Receive(queue, step) => self.receive_step(queue, step),
            Move::Transmit(queue, step) => self.transmit_step(queue, step),
        }
    }

    /// Makes each move that its queue can make at its turn, skips the others, and returns the number of moves made.
    pub fn run(&mut self, moves: &[Move]) -> usize
        ensures { QueuesRun self.old moves.now result self.new }
    {
        let mut made = 0;
        for action in moves {
            made += count_of(&self.step(*action));
        }
        made
    }
}
