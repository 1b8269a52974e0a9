//! The pairs: a kind of move, the states of both sides, and its outcome.
ghost use Rattle.std.specs.Prelude.{◌≡◌, ◌<◌, Some};
ghost use Rattle.schedules.specs.Pairs.{controller_number, driver_number, pair_text, states_text};

use crate::covering::outcome::OutcomeKind;
use ring_machine::{
    ControlStep, ControllerState, DriverState, Move, RxStep, TxStep, controller_word, driver_word,
};
use std::fmt;

/// A kind of move, the states of driver and controller in which it is tried, and its outcome.
#[derive(Clone, Copy)]
pub struct Pair {
    /// A move of that kind.
    pub action: Move,
    /// The state of the driver.
    pub driver: DriverState,
    /// The state of the controller.
    pub controller: ControllerState,
    /// The outcome of the move.
    pub outcome: OutcomeKind,
}

/// Prints as `r0 A6 driver On controller serving: none`.
impl fmt::Display for Pair {
    ghost output = { λ p. Some (pair_text p) };

    fn fmt<W: fmt::Write>(&self, f: &mut fmt::Formatter<W>) -> fmt::Result {
        let name = self.action.name();
        let states = States {
            driver: self.driver,
            controller: self.controller,
        };
        let outcome = self.outcome;
        write!(f, "{name} {states}: {outcome}")
    }
}

// The states of both sides.
#[derive(Clone, Copy)]
struct States {
    driver: DriverState,
    controller: ControllerState,
}

impl fmt::Display for States {
    ghost output = { λ s. Some (states_text s.driver s.controller) };

    fn fmt<W: fmt::Write>(&self, f: &mut fmt::Formatter<W>) -> fmt::Result {
        write!(
            f,
            "driver {} controller {}",
            driver_word(self.driver),
            controller_word(self.controller)
        )
    }
}

/// The number of distinct pairs of one side: kinds of moves, states of both sides, kinds of outcomes.
pub(crate) const PAIRS: usize = 18 * 7 * 3 * 15;

/// The number of a driver's state, from 0.
pub(crate) fn driver_number(state: DriverState) -> usize
    ensures value { result ≡ driver_number state }
    ensures below { result < 7 }
{
    state as usize
}

/// The number of a controller's state, from 0.
pub(crate) fn controller_number(state: ControllerState) -> usize
    ensures value { result ≡ controller_number state }
    ensures below { result < 3 }
{
    state as usize
}

// The number of a step of the handshake, from 0.
fn control_number(step: ControlStep) -> usize
    ensures { result < 5 }
{
    step as usize
}

// The number of a kind of move among those of its side, from 0.
fn kind_number(action: Move) -> usize
    ensures { result < 18 }
{
    match action {
        Move::Receive(_, RxStep::Control(step)) | Move::Transmit(_, TxStep::Control(step)) => {
            control_number(step)
        }
        Move::Receive(_, RxStep::Post(_)) | Move::Transmit(_, TxStep::Post(_)) => 5,
        Move::Receive(_, RxStep::Publish) | Move::Transmit(_, TxStep::Publish) => 6,
        Move::Receive(_, RxStep::Look) | Move::Transmit(_, TxStep::Look) => 7,
        Move::Receive(_, RxStep::Fetch) | Move::Transmit(_, TxStep::Fetch) => 8,
        Move::Receive(_, RxStep::Reclaim) | Move::Transmit(_, TxStep::Reclaim) => 9,
        Move::Receive(_, RxStep::ClearHead) | Move::Transmit(_, TxStep::ClearHead) => 10,
        Move::Receive(_, RxStep::ClearTail) | Move::Transmit(_, TxStep::ClearTail) => 11,
        Move::Receive(_, RxStep::Store(_, _)) | Move::Transmit(_, TxStep::Send) => 12,
        Move::Receive(_, RxStep::Take) | Move::Transmit(_, TxStep::Clean) => 13,
        Move::Receive(_, RxStep::Head) | Move::Transmit(_, TxStep::Report) => 14,
        Move::Receive(_, RxStep::StoreQuiet) | Move::Transmit(_, TxStep::LoadReport) => 15,
        Move::Receive(_, RxStep::LoadQuiet) | Move::Transmit(_, TxStep::ClearReport) => 16,
        Move::Receive(_, RxStep::ClearQuiet) => 17,
    }
}

impl Pair {
    /// The pair's number among those of its side, below 5,670. Two pairs of one side with the same number have the same
    /// kind of move, the same states, and the same kind of outcome.
    pub fn number(&self) -> usize
        ensures { result < 5670 }
    {
        let states = driver_number(self.driver) * 3 + controller_number(self.controller);
        (kind_number(self.action) * 21 + states) * 15 + self.outcome.number()
    }
}
