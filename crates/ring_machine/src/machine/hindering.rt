//! The obstacles of each step.

ghost use Rattle.std.specs.Prelude.{◌≡◌};
ghost use Rattle.ring_machine.specs.code.Obstacles.{answer_obstacle, fetch_obstacle, idle_obstacle, needs, out_obstacle, post_obstacle, settled_obstacle, control_obstacle, unless};

use crate::machine::queue::QueueMachine;
use crate::obstacle::Obstacle;
use crate::registers::{QueueKind, Registers};
use ring_model::{ControlStep, place_after};

/// Returns `rest` if a condition holds, or else this obstacle.
pub(crate) fn unless(holds: bool, obstacle: Obstacle, rest: Option<Obstacle>) -> Option<Obstacle>
    ensures { result ≡ unless holds obstacle rest }
{
    if holds { rest } else { Some(obstacle) }
}

/// Returns this obstacle, unless a condition holds.
pub(crate) fn needs(holds: bool, obstacle: Obstacle) -> Option<Obstacle>
    ensures { result ≡ needs holds obstacle }
{
    unless(holds, obstacle, None)
}

// The obstacles of both directions.
impl QueueMachine {
    /// Why a descriptor cannot be posted.
    pub(crate) fn post_obstacle(&self) -> Option<Obstacle>
        ensures { result ≡ post_obstacle self.now }
    {
        let has_room = place_after(self.fill(), self.size()) != self.next();
        unless(
            self.handshake().driver.is_open(),
            Obstacle::NotOpen,
            needs(has_room, Obstacle::Full),
        )
    }

    /// Why the controller is not idle, else `rest`.
    pub(crate) fn idle_obstacle(&self, rest: Option<Obstacle>) -> Option<Obstacle>
        ensures { result ≡ idle_obstacle self.now rest }
    {
        let held = unless(!self.is_holding(), Obstacle::Holding, rest);
        unless(
            self.handshake().controller.is_serving(),
            Obstacle::NotServing,
            held,
        )
    }

    /// Why nothing can be fetched, else `rest`.
    pub(crate) fn fetch_obstacle(&self, rest: Option<Obstacle>) -> Option<Obstacle>
        ensures { result ≡ fetch_obstacle self.now rest }
    {
        let is_known = self.serve_place() != self.known();
        self.idle_obstacle(unless(is_known, Obstacle::NoneKnown, rest))
    }

    /// Why no buffer comes out.
    pub(crate) fn out_obstacle(&self) -> Option<Obstacle>
        ensures { result ≡ out_obstacle self.now }
    {
        needs(!self.are_all_back(), Obstacle::NoneOut)
    }

    // Why a loaded disabling is not answered, else `rest`.
    fn settled_obstacle(&self, rest: Option<Obstacle>) -> Option<Obstacle>
        ensures { result ≡ settled_obstacle self.now rest }
    {
        let Registers { head, .. } = self.registers(QueueKind::Receive);
        let whole = unless(self.is_whole(), Obstacle::MidFrame, rest);
        let stored = unless(head == self.serve_place(), Obstacle::HeadBehind, whole);
        self.idle_obstacle(stored)
    }

    // Why the loaded control value is not answered. `rest` is what else hinders a disabling.
    fn answer_obstacle(&self, rest: Option<Obstacle>) -> Option<Obstacle>
        ensures { result ≡ answer_obstacle self.now rest }
    {
        let handshake = self.handshake();
        if handshake.seen == 1 {
            needs(!handshake.controller.is_serving(), Obstacle::Serving)
        } else if handshake.seen == 3 {
            self.settled_obstacle(rest)
        } else {
            Some(Obstacle::NothingAsked)
        }
    }

    /// Why a step of the handshake cannot happen. `rest` is what else hinders the answer to a disabling.
    pub(crate) fn control_obstacle(
        &self,
        step: ControlStep,
        rest: Option<Obstacle>,
    ) -> Option<Obstacle>
        ensures { result ≡ control_obstacle self.now step rest }
    {
        let driver = self.handshake().driver;
        match step {
            ControlStep::AskEnable => needs(driver.is_new(), Obstacle::NotNew),
            ControlStep::LookAsked | ControlStep::LookAnswered => None,
            ControlStep::Answer => self.answer_obstacle(rest),
            ControlStep::AskDisable => needs(driver.is_on(), Obstacle::NotOn),
        }
    }
}
