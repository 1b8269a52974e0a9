//! The transmit queue of a flow, as its controller serves it.
ghost use Rattle.std.specs.Prelude.{◌≡◌, None, IfErr};
ghost use Rattle.tx_ring.specs.Ends.{held, sent};
ghost use Rattle.ring_model.specs.shared.Frames.{frames};
ghost use Rattle.ring_model.specs.transmit.Ring.{carried};
ghost use Rattle.shared_ring.specs.Calls.{IsFreshController};
ghost use Rattle.teams.specs.Gates.{Met};
ghost use Rattle.flows.specs.Sent.{HasSent};
ghost use Rattle.flows.specs.Turns.{HasSentOne, TxAnswered};

use crate::output::{Output, SentFrames};
use crate::queue_phase::QueuePhase;
use controller::{Turn, TxController};
use forwarding::{Event, ForwardError, Gate, Who, admit};
use std::alloc::Global;
use std::marker::Model;
use tx_ring::{TxControllerEnd, TxRing};

/// The transmit queue of a flow and the frames that it sent.
#[derive(Drop)]
pub(crate) struct TxSink<'a> {
    ring: &'a TxRing,
    controller: TxController,
    output: Output,
    queue_phase: QueuePhase,
}

impl<'a> Model for TxSink<'a> {
    ghost use Rattle.flows.specs.Served.{TxSink, IsTxSink, tx_sink};

    ghost Value = { TxSink };

    ghost view = { λ w. tx_sink w.ring.now w.controller w.output w.queue_phase };

    ghost invariant = { λ w. IsTxSink (tx_sink w.ring.now w.controller w.output w.queue_phase) };
}

impl<'a> TxSink<'a> {
    /// The queue of this ring's end. Nothing was sent yet.
    pub(crate) fn new(
        alloc: Global,
        ring: &'a TxRing,
        end: TxControllerEnd,
        keep: bool,
    ) -> TxSink<'a>
        requires own { end.table ≡ ring.now }
        requires fresh { IsFreshController end }
        ensures to { result.to ≡ ring.now }
        ensures keep { result.output.keep ≡ keep }
    {
        TxSink {
            ring,
            controller: TxController::new(end),
            output: Output::new(alloc, keep),
            queue_phase: QueuePhase::Waiting,
        }
    }

    /// Answers the driver's request, if there is one, and returns whether the phase changed. Does nothing once a
    /// disabling is answered.
    pub(crate) fn control_step(&mut self) -> bool
        ensures to { self.new.to ≡ self.old.to }
        ensures keep { self.new.output.keep ≡ self.old.output.keep }
        ensures answered { TxAnswered self.old self.new }
    {
        if self.queue_phase == QueuePhase::Ended {
            return false;
        }
        self.controller.turn_control(self.ring);
        let serves = self.controller.is_serving();
        self.queue_phase.go_on(serves)
    }

    /// Sends the next frame if the queue is enabled, and returns whether there was one. Returns `Memory` if the wire
    /// could not grow; the next call then sends the frame.
    pub(crate) fn send<G: Gate>(&mut self, number: usize, gate: &G) -> Result<bool, ForwardError>
        ensures to { self.new.to ≡ self.old.to }
        ensures keep { self.new.output.keep ≡ self.old.output.keep }
        ensures one { HasSentOne (G.answers gate.now) number self.old result self.new }
        ensures refused { IfErr result (λ e. Met G.answers gate.now e) }
    {
        if self.queue_phase != QueuePhase::Serving {
            return Ok(false);
        }
        admit(gate, Who::Controller(number), Event::TxTurn)?;
        let Ok(turn) = self.controller.turn(self.ring, &mut self.output.wire) else {
            return Err(ForwardError::Memory);
        };
        self.output.empty_full();
        Ok(turn == Turn::Sent)
    }

    /// How far the queue is.
    pub(crate) fn queue_phase(&self) -> QueuePhase
        ensures { result ≡ self.now.queue_phase }
    {
        self.queue_phase
    }

    /// Returns the end, which holds no buffer, and the frames that were sent.
    pub(crate) fn into_end(self) -> (TxControllerEnd, SentFrames)
        ensures own { result.0.table ≡ self.entry.to }
        ensures sent { HasSent self.entry.output.keep (frames carried (sent result.0)) result.1.wire result.1.frames result.1.bytes }
        ensures unheld { held result.0 ≡ None }
    {
        (self.controller.into_end(), self.output.into_sent())
    }
}
