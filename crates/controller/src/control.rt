//! Answering a driver's request, in either direction.
ghost use Rattle.std.specs.Prelude.{◌≡◌, true, false};
ghost use Rattle.ring_model.specs.shared.Handshakes.{is_serving};
ghost use Rattle.shared_ring.specs.Calls.{Answered, MayAnswer};
ghost use Rattle.shared_ring.specs.Ends.{controller_of, controller_state};
ghost use Rattle.shared_ring.specs.declared.control.Control.TheVariants as control;

use shared_ring::{Control, ControllerEnd, Direction};

/// Answers the request, and returns the control value that it stored.
pub(crate) fn answer<D, C, R: Direction<D, C>, E: ControllerEnd<D, C, R>>(
    end: &mut E,
    ring: &E::Ring,
) -> Control
    requires own { (E.side end.old).table ≡ E.Ring.table ring.now }
    requires asked { MayAnswer (controller_of R.form (E.side end.old)) }
    ensures answered { Answered (controller_of R.form (E.side end.old)) (controller_of R.form (E.side end.new)) }
    ensures enabled { is_serving (controller_state (controller_of R.form (E.side end.new))) ≡ true → result ≡ control.Enabled }
    ensures disabled { is_serving (controller_state (controller_of R.form (E.side end.new))) ≡ false → result ≡ control.Disabled }
{
    end.answer(ring);
    if end.is_serving() {
        Control::Enabled
    } else {
        Control::Disabled
    }
}
