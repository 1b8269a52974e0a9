//! The device of a transmit queue: its controller, and the ring that it shares.
ghost use Rattle.std.specs.Prelude.{◌≡◌, ◌∷◌, [], ◌<◌, length};
ghost use Rattle.ring_model.specs.shared.Frames.{Bytes};
ghost use Rattle.poll82599_c.specs.batches.Transmitting.{IsAtHand, SendingDevice, TriedTurn, Turned};

use crate::batches::found::Found;
use crate::half::Half;
use controller::{TurnInto, TxController, Wire};
use ffi_handle::overwrite;
use std::alloc::Global;
use std::marker::Model;
use tx_ring::TxRing;

/// A transmit queue's controller, and the wire on which the frame waits that was sent last and is not handed out.
#[derive(Drop)]
pub struct Sender {
    controller: TxController,
    wire: Wire,
}

impl Model for Sender {
    ghost use Rattle.std.specs.Prelude.{◌≤◌, length};
    ghost use Rattle.poll82599_c.specs.batches.Transmitting.{SendingDevice};

    ghost Value = { SendingDevice };

    ghost view = { λ s. record { end = s.controller; waiting = s.wire } };

    ghost invariant = { λ s. length s.wire ≤ 1 };
}

/// The device of a transmit queue, which one thread owns.
pub(crate) type TxDevice = Half<TxRing, Sender>;

impl Sender {
    /// Adds a wire to a controller. No frame waits. Allocates nothing.
    pub(crate) fn new(alloc: Global, controller: TxController) -> Sender
        ensures { result ≡ record { end = controller; waiting = [] } }
    {
        Sender {
            controller,
            wire: Wire::new(alloc),
        }
    }

    /// Returns the controller. The frame that waits is dropped.
    pub(crate) fn into_controller(self) -> TxController
        ensures { result ≡ self.end }
    {
        self.controller
    }

    /// Copies the frame that waits to the beginning of `room`, and removes it from the wire. Returns 1 and its length, or 4
    /// and its length if it is longer than `room`; then it waits on.
    #[cold]
    #[inline(never)]
    #[tactic(auto, using(crate::proofs::Turning::only_frame))]
    fn hand_out(&mut self, room: &mut [u8]) -> Found
        requires waits { 0 < length self.old.waiting }
        ensures end { self.new.end ≡ self.old.end }
        ensures step { (was : SendingDevice) → ((frame : Bytes) → self.old.waiting ≡ frame ∷ [] → IsAtHand frame was self.old.end) → TriedTurn result.answer result.count room.old room.new was self.new }
    {
        let frame = self.wire.frame(0);
        let count = frame.len();
        if room.len() < count {
            return Found { answer: 4, count };
        }
        overwrite(room, frame);
        self.wire.clear();
        Found { answer: 1, count }
    }
}

impl Half<TxRing, Sender> {
    /// Sends the next frame into `room`, unless one waits, and reports it if it asks for a report. Copies a frame that
    /// waits into `room`. Returns 1 and its length: it is there; 0: none is ready; 3: the queue is off; 4 and its length:
    /// it is longer than `room`, and waits for the next call; 5: memory was refused.
    #[tactic(auto, using(crate::proofs::Turning::sent_whole, crate::proofs::Turning::one_frame))]
    pub(crate) fn turn(&mut self, room: &mut [u8]) -> Found
        ensures own { self.new.end.table ≡ self.old.end.table }
        ensures step { TriedTurn result.answer result.count room.old room.new self.old self.new }
    {
        if !self.end.wire.is_empty() {
            return self.end.hand_out(room);
        }
        match self
            .end
            .controller
            .turn_into(&self.ring, room, &mut self.end.wire)
        {
            Ok(TurnInto::InRoom(count)) => Found { answer: 1, count },
            Ok(TurnInto::OnWire) => self.end.hand_out(room),
            Ok(TurnInto::Idle) => Found::nothing(0),
            Ok(TurnInto::Off) => Found::nothing(3),
            Err(_) => Found::nothing(5),
        }
    }

    /// Loads the control word, and answers a request if it can. Returns the word that it stored, otherwise the one that
    /// it loaded: 0 off, 1 enabling asked for, 2 on, 3 disabling asked for.
    #[inline(never)]
    pub(crate) fn turn_control(&mut self) -> u32
        ensures own { self.new.end.table ≡ self.old.end.table }
        ensures step { Turned result self.old self.new }
    {
        u32::from(self.end.controller.turn_control(&self.ring).word())
    }
}
