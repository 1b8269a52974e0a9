//! The controller's side of a flow.
ghost use Rattle.std.specs.Prelude.{◌≡◌, ◌≤◌, None, length};
ghost use Rattle.limits.specs.FillSize.{IsFillSize};
ghost use Rattle.counters.specs.Kinds.{AddsUp, nothing};
ghost use Rattle.rx_ring.specs.Ends as receive;
ghost use Rattle.tx_ring.specs.Ends as transmit;
ghost use Rattle.shared_ring.specs.Calls.{IsFreshController};
ghost use Rattle.flows.specs.declared.flow_frames.TheConstants.{MOST_OFFERED};
ghost use Rattle.flows.specs.Served.{HasServed};
ghost use Rattle.flows.specs.Sides.{has_served};

use crate::concluding::ControllerDone;
use crate::flow_frames::FlowFrames;
use crate::queue_phase::QueuePhase;
use crate::rx_source::RxSource;
use crate::tx_sink::TxSink;
use controller::Tally;
use forwarding::{Flow, ForwardError, Gate, Progress};
use rx_ring::{RxControllerEnd, RxRing};
use std::alloc::Global;
use std::marker::Model;
use std::sync::Wait;
use tx_ring::{TxControllerEnd, TxRing};

/// The controller's side of a flow. In each turn it offers one of the flow's frames to the receive queue, and sends one
/// posted frame of the transmit queue. It serves one epoch of each queue, and is over once both disablings
/// are answered.
///
/// Contracts see its key, its tally, and how far each queue is.
#[derive(Drop)]
pub struct ControllerFlow<'a> {
    number: usize,
    input: RxSource<'a>,
    output: TxSink<'a>,
}

impl<'a> Model for ControllerFlow<'a> {
    ghost use Rattle.flows.specs.Sides.{Controlling};

    ghost Value = { Controlling };

    ghost view = { λ f. record { key = record { number = f.number; input = f.input.input; to = f.output.to; keeps = f.output.output.keep }; tally = f.input.controller.tally; receiving = f.input.queue_phase; sending = f.output.queue_phase; source = f.input; sink = f.output } };
}

impl<'a> ControllerFlow<'a> {
    /// The controller's side of flow `number`, which is offered these frames. The ends have made no step yet. Buffers are
    /// filled to `bsize` bytes. If too few descriptors are free, a frame is dropped with `drop_en`, and held otherwise.
    /// With `keep`, the frames that are sent are kept on a wire; otherwise they are only counted.
    pub fn new(
        alloc: Global,
        number: usize,
        rings: (&'a RxRing, &'a TxRing),
        ends: (RxControllerEnd, TxControllerEnd),
        frames: FlowFrames<'a>,
        bsize: usize,
        drop_en: bool,
        keep: bool,
    ) -> ControllerFlow<'a>
        requires from { ends.0.table ≡ rings.0.now }
        requires to { ends.1.table ≡ rings.1.now }
        requires fresh { IsFreshController ends.0 × IsFreshController ends.1 }
        requires bsize { IsFillSize bsize }
        requires few { length frames.frames ≤ MOST_OFFERED }
        requires next { frames.next ≡ 0 }
        ensures tally { result.tally ≡ nothing }
        ensures key { result.key ≡ record { number = number; input = record { from = rings.entry.0.now; frames = frames.entry.frames; fill = bsize; drops = drop_en }; to = rings.entry.1.now; keeps = keep } }
    {
        ControllerFlow {
            number,
            input: RxSource::new(rings.0, ends.0, frames, bsize, drop_en),
            output: TxSink::new(alloc, rings.1, ends.1, keep),
        }
    }

    /// How many frames were offered, and their outcomes.
    pub fn tally(&self) -> Tally
        ensures value { result ≡ self.now.tally }
        ensures adds { AddsUp result }
    {
        self.input.tally()
    }

    /// Whether both disablings were answered.
    #[inline]
    pub fn has_served(&self) -> bool
        ensures { result ≡ has_served self.now }
    {
        self.input.queue_phase() == QueuePhase::Ended
            && self.output.queue_phase() == QueuePhase::Ended
    }

    /// Returns both ends, which hold no buffer, the tally, and the frames that were sent, at any time.
    pub fn into_done(self) -> ControllerDone
        ensures served { HasServed self.entry.key result }
        ensures tally { result.tally ≡ self.entry.tally }
        ensures unheld { (receive.held result.rx ≡ None) × (transmit.held result.tx ≡ None) }
    {
        let (rx, tally, stored_bytes) = self.input.into_end();
        let (tx, sent) = self.output.into_end();
        ControllerDone {
            rx,
            tx,
            tally,
            stored_bytes,
            wire: sent.wire,
            sent: sent.frames,
            sent_bytes: sent.bytes,
        }
    }
}

impl<'a> Flow for ControllerFlow<'a> {
    ghost use Rattle.counters.specs.Kinds.{tally_words};
    ghost use Rattle.flows.specs.Keys.{ControllerKey};
    ghost use Rattle.flows.specs.Sides.{has_served};
    ghost use Rattle.flows.specs.Turns.{ControllerTurned};

    ghost Key = { ControllerKey };

    ghost key = { λ f. f.key };

    ghost over = { λ f. has_served f };

    ghost numbers = { λ f. tally_words f.tally };

    ghost turned = { λ answers old result new. ControllerTurned answers old.key.number old result new };

    fn turn<R: Wait, G: Gate>(&mut self, _rt: &R, gate: &G) -> Result<Progress, ForwardError> {
        let asked = self.input.control_step();
        let told = self.output.control_step();
        let decided = self.input.offer(self.number, gate)?;
        let sent = self.output.send(self.number, gate)?;
        Ok(if self.has_served() {
            Progress::Over
        } else if asked || told || decided || sent {
            Progress::Worked
        } else {
            Progress::Idle
        })
    }

    fn is_over(&self) -> bool {
        self.has_served()
    }
}
