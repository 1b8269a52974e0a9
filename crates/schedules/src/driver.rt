//! The moves of a poll-mode driver and its device. A driver's call is several moves in a row, which its thresholds
//! determine. The device moves between calls.

use crate::chance::Chance;
use crate::receiving::Receiver;
use crate::transmitting::Transmitter;
use ring_machine::{Move, QueueNumber};
use ring_model::Note;
use settings::{SchedulePlan, Thresholds};
use std::alloc::{AllocError, Global};

/// One in so many candidates begins a call. With the first of these the driver is faster, with the last the device.
const PACES: [u32; 4] = [4, 16, 64, 256];

/// The pace at the beginning.
const FIRST_PACE: u32 = 16;

/// The mean number of candidates per pace, in ring lengths.
const PACE_RINGS: u32 = 4;

/// The queues of all pairs, in the hands of a driver.
#[derive(Drop)]
pub(crate) struct Driver {
    receivers: Vec<Receiver>,
    transmitters: Vec<Transmitter>,
    pairs: u32,
    ring: u32,
    pace: u32,
}

impl Driver {
    /// The queues before the driver's start. Returns an error only if memory is refused.
    pub fn new(
        alloc: Global,
        plan: &SchedulePlan,
        thresholds: Thresholds,
        chance: &mut Chance,
    ) -> Result<Driver, AllocError> {
        let (mut receivers, mut transmitters) = (Vec::new(alloc), Vec::new(alloc));
        for _ in 0..plan.pairs {
            receivers.push(Receiver::new(thresholds, plan.ring, chance))?;
            transmitters.push(Transmitter::new(alloc, thresholds, plan.ring)?)?;
        }
        Ok(Driver {
            receivers,
            transmitters,
            pairs: plan.pairs,
            ring: plan.ring,
            pace: FIRST_PACE,
        })
    }

    /// A candidate for the next move: the next one of the call in progress, the first one of another call, or one of
    /// the device.
    pub fn propose(&mut self, chance: &mut Chance) -> Option<Move> {
        if let Some(action) = self.pending() {
            return Some(action);
        }
        if chance.one_in(self.ring.saturating_mul(PACE_RINGS).max(1)) {
            self.pace = *PACES.get(chance.index(PACES.len())).unwrap_or(&FIRST_PACE);
        }
        let number = u8::try_from(chance.below(self.pairs.max(1))).ok()?;
        let queue = QueueNumber::new(number)?;
        if chance.one_in(self.pace.max(1)) {
            self.begin(chance, queue)?;
            return self.pending();
        }
        self.device(chance, queue)
    }

    // The next move of the call in progress. The receive queues begin with one, the driver's start.
    fn pending(&self) -> Option<Move> {
        match self.pending_receive() {
            Some(action) => Some(action),
            None => self.pending_transmit(),
        }
    }

    fn pending_receive(&self) -> Option<Move> {
        for number in 0..self.receivers.len() {
            if let Some(step) = self.receivers[number].pending() {
                return Some(Move::Receive(queue_of(number)?, step));
            }
        }
        None
    }

    fn pending_transmit(&self) -> Option<Move> {
        for number in 0..self.transmitters.len() {
            if let Some(step) = self.transmitters[number].pending() {
                return Some(Move::Transmit(queue_of(number)?, step));
            }
        }
        None
    }

    // Begins a call for one of the two queues with this number.
    fn begin(&mut self, chance: &mut Chance, queue: QueueNumber) -> Option<()> {
        let number = usize::from(queue.number());
        if chance.one_in(2) {
            self.receivers.get_mut(number)?.begin(chance);
        } else {
            self.transmitters.get_mut(number)?.begin(chance);
        }
        Some(())
    }

    // A candidate for a move of the device at one of the two queues with this number.
    fn device(&self, chance: &mut Chance, queue: QueueNumber) -> Option<Move> {
        let number = usize::from(queue.number());
        if chance.one_in(2) {
            let step = self.receivers.get(number)?.device(chance)?;
            Some(Move::Receive(queue, step))
        } else {
            let step = self.transmitters.get(number)?.device(chance);
            Some(Move::Transmit(queue, step))
        }
    }

    /// Records a move with its note.
    pub fn made(&mut self, chance: &mut Chance, action: &Move, note: &Note) {
        match action {
            Move::Receive(queue, step) => {
                if let Some(receiver) = self.receivers.get_mut(usize::from(queue.number())) {
                    receiver.made(chance, step, note);
                }
            }
            Move::Transmit(queue, step) => {
                if let Some(sender) = self.transmitters.get_mut(usize::from(queue.number())) {
                    sender.made(step, note);
                }
            }
        }
    }
}

fn queue_of(number: usize) -> Option<QueueNumber> {
    QueueNumber::new(u8::try_from(number).ok()?)
}
