//! The receive queue of a flow, as its controller serves it.
ghost use Rattle.std.specs.Prelude.{◌≡◌, ◌≤◌, length, None, IfErr};
ghost use Rattle.limits.specs.FillSize.{IsFillSize};
ghost use Rattle.counters.specs.Kinds.{AddsUp, nothing, tally_words};
ghost use Rattle.rx_ring.specs.Calls.{IsFreshController};
ghost use Rattle.rx_ring.specs.Ends.{held};
ghost use Rattle.teams.specs.Gates.{Met};
ghost use Rattle.teams.specs.Numbers.{NoneFalls};
ghost use Rattle.flows.specs.declared.flow_frames.TheConstants.{MOST_OFFERED};
ghost use Rattle.flows.specs.Served.{HasOffered};
ghost use Rattle.flows.specs.Turns.{HasOfferedOne, RxAnswered};

use crate::flow_frames::FlowFrames;
use crate::queue_phase::{QueuePhase, bytes_by, is_decided};
use controller::{RxController, Tally};
use forwarding::{Event, ForwardError, Gate, Who, admit};
use rx_ring::{RxControllerEnd, RxRing};
use std::marker::Model;

/// The receive queue of a flow and the frames that are offered to it.
#[derive(Drop)]
pub(crate) struct RxSource<'a> {
    frames: FlowFrames<'a>,
    ring: &'a RxRing,
    controller: RxController,
    stored_bytes: u64,
    queue_phase: QueuePhase,
}

impl<'a> Model for RxSource<'a> {
    ghost use Rattle.flows.specs.Served.{RxSource, IsRxSource, rx_source};

    ghost Value = { RxSource };

    ghost view = { λ o. rx_source o.ring.now o.frames.frames o.controller o.frames.next o.stored_bytes o.queue_phase };

    ghost invariant = { λ o. IsRxSource (rx_source o.ring.now o.frames.frames o.controller o.frames.next o.stored_bytes o.queue_phase) };
}

impl<'a> RxSource<'a> {
    /// The queue of this ring's end. Nothing was offered yet.
    pub(crate) fn new(
        ring: &'a RxRing,
        end: RxControllerEnd,
        frames: FlowFrames<'a>,
        bsize: usize,
        drop_en: bool,
    ) -> RxSource<'a>
        requires own { end.table ≡ ring.now }
        requires fresh { IsFreshController end }
        requires bsize { IsFillSize bsize }
        requires few { length frames.frames ≤ MOST_OFFERED }
        requires next { frames.next ≡ 0 }
        ensures tally { result.controller.tally ≡ nothing }
        ensures input { result.input ≡ record { from = ring.now; frames = frames.entry.frames; fill = bsize; drops = drop_en } }
    {
        RxSource {
            frames,
            ring,
            controller: RxController::new(end, bsize, drop_en),
            stored_bytes: 0,
            queue_phase: QueuePhase::Waiting,
        }
    }

    /// Answers the driver's request, if there is one, and returns whether the phase changed. Does nothing once a
    /// disabling is answered.
    pub(crate) fn control_step(&mut self) -> bool
        ensures input { self.new.input ≡ self.old.input }
        ensures tally { self.new.controller.tally ≡ self.old.controller.tally }
        ensures answered { RxAnswered self.old self.new }
    {
        if self.queue_phase == QueuePhase::Ended {
            return false;
        }
        self.controller.turn_control(self.ring);
        let serves = self.controller.is_serving();
        self.queue_phase.go_on(serves)
    }

    /// Offers the next frame if the queue is enabled, and returns whether that decided its outcome. Once all are
    /// decided, announces that no more is stored.
    pub(crate) fn offer<G: Gate>(&mut self, number: usize, gate: &G) -> Result<bool, ForwardError>
        ensures input { self.new.input ≡ self.old.input }
        ensures none_falls { NoneFalls (tally_words self.old.controller.tally) (tally_words self.new.controller.tally) }
        ensures one { HasOfferedOne (G.answers gate.now) number self.old result self.new }
        ensures refused { IfErr result (λ e. Met G.answers gate.now e) }
    {
        if self.queue_phase != QueuePhase::Serving {
            return Ok(false);
        }
        let Some(frame) = self.frames.upcoming() else {
            return Ok(self.controller.finish(self.ring));
        };
        admit(gate, Who::Controller(number), Event::Offer)?;
        let Ok(offer) = self.controller.offer(self.ring, frame) else {
            unreachable!()
        };
        let decided = is_decided(offer);
        if decided {
            self.frames.advance();
            self.stored_bytes += bytes_by(offer, frame.len());
        }
        Ok(decided)
    }

    /// How far the queue is.
    pub(crate) fn queue_phase(&self) -> QueuePhase
        ensures { result ≡ self.now.queue_phase }
    {
        self.queue_phase
    }

    /// How many frames were offered, and their outcomes.
    pub(crate) fn tally(&self) -> Tally
        ensures value { result ≡ self.now.controller.tally }
        ensures adds { AddsUp result }
    {
        self.controller.tally()
    }

    /// Returns the end, which holds no buffer, the tally, and the bytes of the stored frames.
    pub(crate) fn into_end(self) -> (RxControllerEnd, Tally, u64)
        ensures offered { HasOffered self.entry.input result.0 result.1 result.2 }
        ensures tally { result.1 ≡ self.entry.controller.tally }
        ensures unheld { held result.0 ≡ None }
    {
        let tally = self.controller.tally();
        (self.controller.into_end(), tally, self.stored_bytes)
    }
}
