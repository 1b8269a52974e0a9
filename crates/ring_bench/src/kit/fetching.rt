//! The step of a transmit ring's controller.
ghost use Rattle.std.specs.Prelude.{◌≡◌, ◌+◌, ◌<◌};
ghost use Rattle.tx_ring.specs.Ends.{known_ready};
ghost use Rattle.ring_bench.specs.Fetching.{CanFetch, HasServed};

use crate::kit::tally::Tally;
use tx_ring::{ControllerEnd, TxControllerEnd, TxRing};

/// Sends the next frame, and reports it if it asks for a report.
#[inline]
pub fn send(ring: &TxRing, controller: &mut TxControllerEnd, tally: &mut Tally)
    requires can { CanFetch ring.now controller.old }
    requires ready { 0 < known_ready controller.old }
    ensures served { HasServed ring.now controller.old.completion controller.new }
    ensures one { known_ready controller.old ≡ known_ready controller.new + 1 }
{
    let (buf, _read) = controller.fetch(ring);
    tally.add(buf.bytes());
    controller.give_back(ring, buf);
    if controller.owes_report() {
        controller.report(ring);
    }
}

/// Sends the next frame, if one is ready. Loads the tail only when it knows of none. Returns whether it sent.
#[inline]
pub fn send_next(ring: &TxRing, controller: &mut TxControllerEnd, tally: &mut Tally) -> bool
    requires can { CanFetch ring.now controller.old }
    ensures served { HasServed ring.now controller.old.completion controller.new }
{
    if controller.ready() == 0 && controller.look(ring) == 0 {
        return false;
    }
    send(ring, controller, tally);
    true
}
