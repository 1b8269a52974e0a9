//! Candidates for the next move, drawn by weight.

use crate::chance::Chance;
use crate::driver::Driver;
use crate::lane::Lane;
use crate::weights::{receive_kinds, receive_weights, transmit_kinds, transmit_weights};
use limits::MOST_PAIRS;
use ring_machine::{
    ControlStep, Move, QueueNumber, RxStep, SegmentDescriptor, SegmentLength, TxStep,
};
use ring_model::Note;
use settings::SchedulePlan;
use std::alloc::{AllocError, Global};

/// The state of drawing: the random numbers, and the state of each queue.
#[derive(Drop)]
pub(crate) struct Proposer {
    chance: Chance,
    pairs: u32,
    device_only: bool,
    receive: [Lane; MOST_PAIRS],
    transmit: [Lane; MOST_PAIRS],
    driver: Option<Driver>,
}

// The handshake step with this number, 0 to 4.
fn control_step(kind: usize) -> ControlStep {
    match kind {
        0 => ControlStep::AskEnable,
        1 => ControlStep::LookAsked,
        2 => ControlStep::Answer,
        3 => ControlStep::LookAnswered,
        _ => ControlStep::AskDisable,
    }
}

// The receive queue step with this index in `receive_weights`.
fn receive_step(kind: usize, buffer: u16, lane: &Lane) -> Option<RxStep<SegmentLength>> {
    Some(match kind {
        0 => RxStep::Post(buffer),
        1 => RxStep::Publish,
        2 => RxStep::Look,
        3 => RxStep::Fetch,
        4 => {
            let (len, eop) = lane.segment()?;
            RxStep::Store(len, eop)
        }
        5 => RxStep::Take,
        6 => RxStep::Head,
        7..=11 => RxStep::Control(control_step(kind - 7)),
        12 => RxStep::Reclaim,
        13 => RxStep::StoreQuiet,
        14 => RxStep::LoadQuiet,
        15 => RxStep::ClearHead,
        16 => RxStep::ClearTail,
        _ => RxStep::ClearQuiet,
    })
}

// The transmit queue step with this index in `transmit_weights`.
fn transmit_step(
    kind: usize,
    buffer: u16,
    lane: &Lane,
    chance: &mut Chance,
) -> Option<TxStep<SegmentDescriptor>> {
    Some(match kind {
        0 => TxStep::Post(lane.posting(chance, buffer)?),
        1 => TxStep::Publish,
        2 => TxStep::Look,
        3 => TxStep::Fetch,
        4 => TxStep::Send,
        5 => TxStep::Report,
        6 => TxStep::LoadReport,
        7 => TxStep::Clean,
        8..=12 => TxStep::Control(control_step(kind - 8)),
        13 => TxStep::Reclaim,
        14 => TxStep::ClearHead,
        15 => TxStep::ClearTail,
        _ => TxStep::ClearReport,
    })
}

impl Proposer {
    /// The state for list `list` of this seed. Returns an error only if memory is refused.
    pub fn new(
        alloc: Global,
        plan: &SchedulePlan,
        seed: u64,
        list: u64,
    ) -> Result<Proposer, AllocError> {
        let mut chance = Chance::new(seed, list);
        let lane = Lane::new(&mut chance);
        let mut receive = [lane; MOST_PAIRS];
        let mut transmit = [lane; MOST_PAIRS];
        for lane in receive.as_mut_slice() {
            *lane = Lane::new(&mut chance);
        }
        for lane in transmit.as_mut_slice() {
            *lane = Lane::new(&mut chance);
        }
        let driver = match plan.driver {
            Some(thresholds) => Some(Driver::new(alloc, plan, thresholds, &mut chance)?),
            None => None,
        };
        Ok(Proposer {
            chance,
            pairs: plan.pairs,
            device_only: plan.device_only,
            receive,
            transmit,
            driver,
        })
    }

    // A random buffer number.
    fn buffer(&mut self) -> u16 {
        u16::try_from(self.chance.below(65_536)).unwrap_or(0)
    }

    /// True with a probability of 1 in `n`.
    pub fn one_in(&mut self, n: u32) -> bool {
        n > 0 && self.chance.one_in(n)
    }

    /// A candidate for the next move: the driver's, if there is one. Otherwise by weight; with `any`, each kind is
    /// equally likely.
    pub fn propose(&mut self, any: bool) -> Option<Move> {
        match self.driver.as_mut() {
            Some(driver) => driver.propose(&mut self.chance),
            None => self.propose_by_weight(any),
        }
    }

    // A candidate by weight.
    fn propose_by_weight(&mut self, any: bool) -> Option<Move> {
        let number = self.chance.below(self.pairs.max(1));
        let queue = QueueNumber::new(u8::try_from(number).ok()?)?;
        if self.chance.one_in(2) {
            self.propose_receive(queue, any)
        } else {
            self.propose_transmit(queue, any)
        }
    }

    // The same for this receive queue.
    fn propose_receive(&mut self, queue: QueueNumber, any: bool) -> Option<Move> {
        let buffer = self.buffer();
        let lane = self.receive.get_mut(usize::from(queue.number()))?;
        let weights = receive_weights(lane.next_mood(&mut self.chance, any));
        let kind = self
            .chance
            .place(weights.as_slice().get(..receive_kinds(self.device_only))?);
        Some(Move::Receive(queue, receive_step(kind, buffer, lane)?))
    }

    // The same for this transmit queue.
    fn propose_transmit(&mut self, queue: QueueNumber, any: bool) -> Option<Move> {
        let buffer = self.buffer();
        let lane = self.transmit.get_mut(usize::from(queue.number()))?;
        let weights = transmit_weights(lane.next_mood(&mut self.chance, any));
        let kind = self.chance.place(weights.as_slice().get(..transmit_kinds(self.device_only))?);
        let step = transmit_step(kind, buffer, lane, &mut self.chance)?;
        Some(Move::Transmit(queue, step))
    }

    /// Records a move with its note.
    pub fn made(&mut self, action: &Move, note: &Note) {
        match self.driver.as_mut() {
            Some(driver) => driver.made(&mut self.chance, action, note),
            None => self.made_by_lane(action),
        }
    }

    // Records a move in the lane of its queue.
    fn made_by_lane(&mut self, action: &Move) {
        match action {
            Move::Receive(queue, _) => {
                if let Some(lane) = self.receive.get_mut(usize::from(queue.number())) {
                    lane.made(&mut self.chance, action);
                }
            }
            Move::Transmit(queue, _) => {
                if let Some(lane) = self.transmit.get_mut(usize::from(queue.number())) {
                    lane.made(&mut self.chance, action);
                }
            }
        }
    }
}
