//! The device's side of a transmit queue.
ghost use Rattle.std.specs.Prelude.{◌≡◌, [], if◌then◌else◌};
ghost use Rattle.ring_model.specs.shared.Frames.{frames};
ghost use Rattle.ring_model.specs.shared.Handshakes.{is_serving};
ghost use Rattle.ring_model.specs.transmit.Ring.{carried};
ghost use Rattle.tx_ring.specs.Ends.{controller_state, sent, seen};
ghost use Rattle.controller.specs.Handshaking.{TurnedControl, begins};
ghost use Rattle.controller.specs.Transmitting.{IsIdle, Turned};

use crate::control::answer;
use crate::sending::send_frame;
use crate::wire::Wire;
use refusals::CtlError;
use std::marker::Model;
use tx_ring::{Control, ControllerEnd, TxControllerEnd, TxRing};

/// The outcome of a turn.
#[derive(Clone, Copy, Debug, PartialEq, Eq)]
pub enum Turn {
    /// The end does not serve the queue. No step was made.
    Off,
    /// The tail was loaded, and nothing was ready.
    Idle,
    /// A frame was sent onto the wire, and reported if its descriptor asked for that.
    Sent,
}

/// The device's side of a transmit queue. It sends whole frames onto a wire, and answers enabling and disabling between
/// two frames.
#[derive(Drop)]
pub struct TxController {
    pub(crate) end: TxControllerEnd,
}

impl Model for TxController {
    ghost use Rattle.tx_ring.specs.Ends.{ControllerSide};
    ghost use Rattle.controller.specs.Transmitting.{IsIdle};

    ghost Value = { ControllerSide };

    ghost view = { λ c. c.end };

    ghost invariant = { λ c. IsIdle c.end };
}

impl TxController {
    /// A controller of a transmit queue. The end must be between two frames, hold no buffer, have stored its head, and
    /// owe no report.
    pub fn new(end: TxControllerEnd) -> TxController
        requires { IsIdle end }
        ensures { result ≡ end }
    {
        TxController { end }
    }

    /// Whether the controller answered the enabling of this epoch, and no disabling since.
    #[inline]
    pub fn is_serving(&self) -> bool
        ensures { result ≡ is_serving (controller_state self.now) }
    {
        self.end.is_serving()
    }

    /// Loads the control word, and answers the request if there is one. Returns the control value that it stored, or
    /// else the one that it loaded.
    pub fn turn_control(&mut self, ring: &TxRing) -> Control
        requires own { self.old.table ≡ ring.now }
        ensures turned { TurnedControl self.old result self.new }
        ensures lists { sent self.new ≡ (if begins self.old self.new then [] else sent self.old) }
        ensures own { self.new.table ≡ ring.now }
    {
        let asked = self.end.asked(ring);
        if !self.end.can_answer() {
            return asked;
        }
        answer(&mut self.end, ring)
    }

    /// Sends the next frame, if one is ready. Before it fetches anything, it makes room on the wire for the longest
    /// frame. Returns `Memory` if that fails; the call can be repeated, and sends the same frame.
    pub fn turn(&mut self, ring: &TxRing, wire: &mut Wire) -> Result<Turn, CtlError>
        requires own { self.old.table ≡ ring.now }
        ensures turned { Turned self.old wire.old result self.new wire.new }
        ensures frames { wire.old ≡ frames carried (sent self.old) → wire.new ≡ frames carried (sent self.new) }
        ensures state { controller_state self.new ≡ controller_state self.old }
        ensures seen { seen self.new ≡ seen self.old }
        ensures own { self.new.table ≡ ring.now }
    {
        if !self.end.is_serving() {
            return Ok(Turn::Off);
        }
        if self.end.look(ring) == 0 {
            return Ok(Turn::Idle);
        }
        wire.arena.reserve()?;
        send_frame(ring, &mut self.end, &mut wire.arena);
        Ok(Turn::Sent)
    }

    /// Returns the end, which is between two frames.
    pub fn into_end(self) -> TxControllerEnd
        ensures end { result ≡ self }
        ensures idle { IsIdle result }
    {
        self.end
    }
}
