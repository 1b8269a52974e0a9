//! Flows on which a few frames are offered again and again, and whose wires are emptied.
ghost use Rattle.std.specs.Prelude.{◌≡◌, ◌&&◌, IfErr};
ghost use Rattle.flows.specs.Sides.{has_ended};
ghost use Rattle.refusals.specs.declared.errors.ForwardError.TheVariants.{Memory};
ghost use Rattle.shared_ring.specs.Calls.{IsFreshController};

use crate::pace::Pace;
use controller::{Offer, RxController, Tally, Turn, TxController, Wire};
use flows::QueuePhase;
use forwarding::{Flow, ForwardError, Gate, Progress};
use rx_ring::{RxControllerEnd, RxRing};
use std::alloc::Global;
use std::sync::Wait;
use tx_ring::{TxControllerEnd, TxRing};

/// The wire is emptied after this many frames, and keeps its memory.
const KEPT: usize = 4;

/// The number of bytes to which buffers are filled.
const FILL: usize = 2_048;

/// The controller's side of a flow. It offers a few frames again and again, and empties its wire after a few frames. With a
/// pace it offers each frame when it is due; if the clock cannot be read, a turn then returns `Memory`, which ends the
/// run.
#[derive(Drop)]
pub(crate) struct HotFlow<'a> {
    from: &'a RxRing,
    to: &'a TxRing,
    rx: RxController,
    tx: TxController,
    receiving: QueuePhase,
    sending: QueuePhase,
    frames: &'a [Vec<u8>],
    /// The index of the next frame to offer.
    next: usize,
    /// How many frames still have to be stored, dropped or refused.
    left: u64,
    wire: Wire,
    /// How many frames were sent.
    sent: u64,
    /// Without a pace, each frame is due at once.
    pace: Option<Pace>,
    ghost stores: { rx.end.table ≡ from.now },
    ghost sends: { tx.table ≡ to.now },
}

impl<'a> HotFlow<'a> {
    /// Makes a flow to which `count` frames are offered, these again and again, at this pace. The ends must be fresh.
    pub(crate) fn new(
        alloc: Global,
        rings: (&'a RxRing, &'a TxRing),
        ends: (RxControllerEnd, TxControllerEnd),
        frames: &'a [Vec<u8>],
        count: u64,
        pace: Option<Pace>,
    ) -> HotFlow<'a>
        requires from { ends.0.table ≡ rings.0.now }
        requires to { ends.1.table ≡ rings.1.now }
        requires fresh { IsFreshController ends.0 × IsFreshController ends.1 }
    {
        HotFlow {
            from: rings.0,
            to: rings.1,
            rx: RxController::new(ends.0, FILL, false),
            tx: TxController::new(ends.1),
            receiving: QueuePhase::Waiting,
            sending: QueuePhase::Waiting,
            frames,
            next: 0,
            left: count,
            wire: Wire::new(alloc),
            sent: 0,
            pace,
        }
    }

    /// The pace, with the latencies of the frames that were sent.
    pub(crate) fn into_pace(self) -> Option<Pace> {
        self.pace
    }

    /// The counts of the offered frames, and the number of frames that were sent.
    pub(crate) fn counts(&self) -> (Tally, u64) {
        (self.rx.tally(), self.sent)
    }

    /// Answers the requests of both queues. Returns whether it answered any.
    fn control_step(&mut self) -> bool {
        let was = (self.receiving, self.sending);
        if self.receiving != QueuePhase::Ended {
            self.rx.turn_control(self.from);
            self.receiving = self.receiving.after(self.rx.is_serving());
        }
        if self.sending != QueuePhase::Ended {
            self.tx.turn_control(self.to);
            self.sending = self.sending.after(self.tx.is_serving());
        }
        was != (self.receiving, self.sending)
    }

    /// Whether the next frame is due.
    fn is_due(&mut self) -> Result<bool, ForwardError>
        ensures left { self.new.left ≡ self.old.left }
        ensures refused { IfErr result (λ e. e ≡ Memory) }
    {
        match &mut self.pace {
            None => Ok(true),
            Some(pace) => pace.is_due().map_err(|_| ForwardError::Memory),
        }
    }

    /// Offers the next frame once it is due, or, after the last one, says that no more comes. Returns whether that
    /// succeeded.
    fn offer(&mut self) -> Result<bool, ForwardError>
        ensures { IfErr result (λ e. e ≡ Memory) }
    {
        if self.receiving != QueuePhase::Serving {
            return Ok(false);
        }
        if self.left == 0 {
            return Ok(self.rx.finish(self.from));
        }
        if !self.is_due()? {
            return Ok(false);
        }
        let Some(frame) = self.frames.get(self.next) else {
            return Ok(false);
        };
        if matches!(
            self.rx.offer(self.from, frame),
            Ok(Offer::Off | Offer::Held)
        ) {
            return Ok(false);
        }
        if let Some(pace) = &mut self.pace {
            pace.note_stored();
        }
        self.left -= 1;
        self.next += 1;
        if self.next == self.frames.len() {
            self.next = 0;
        }
        Ok(true)
    }

    /// Sends the next frame. Returns whether there was one. Empties the wire once it has `KEPT` frames.
    fn send(&mut self) -> Result<bool, ForwardError>
        ensures { IfErr result (λ e. e ≡ Memory) }
    {
        if self.sending != QueuePhase::Serving {
            return Ok(false);
        }
        let Ok(turn) = self.tx.turn(self.to, &mut self.wire) else {
            return Err(ForwardError::Memory);
        };
        if self.wire.len() == KEPT {
            self.wire.clear();
        }
        let sent = turn == Turn::Sent;
        if sent && let Some(pace) = &mut self.pace {
            pace.note_sent().map_err(|_| ForwardError::Memory)?;
        }
        self.sent = self.sent.saturating_add(u64::from(sent));
        Ok(sent)
    }

    /// Whether both disablings were answered.
    fn has_served(&self) -> bool
        ensures { result ≡ (has_ended self.now.receiving && has_ended self.now.sending) }
    {
        self.receiving == QueuePhase::Ended && self.sending == QueuePhase::Ended
    }
}

impl<'a> Flow for HotFlow<'a> {
    ghost use Rattle.std.specs.Prelude.{ℕ, [], ◌&&◌};
    ghost use Rattle.flows.specs.Sides.{has_ended};

    ghost Key = { ℕ };

    ghost key = { λ _. 0 };

    ghost over = { λ f. has_ended f.receiving && has_ended f.sending };

    ghost numbers = { λ _. [] };

    fn turn<R: Wait, G: Gate>(&mut self, _rt: &R, _gate: &G) -> Result<Progress, ForwardError> {
        let asked = self.control_step();
        let offered = self.offer()?;
        let sent = self.send()?;
        Ok(if self.has_served() {
            Progress::Over
        } else if asked || offered || sent {
            Progress::Worked
        } else {
            Progress::Idle
        })
    }

    fn is_over(&self) -> bool {
        self.has_served()
    }
}
