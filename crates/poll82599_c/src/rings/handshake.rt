//! The handshake of both sides, and the condition for renewal, for rings of both directions.
ghost use Rattle.std.specs.Prelude.{◌≡◌, true, false, length};
ghost use Rattle.ring_model.specs.shared.Handshakes.{is_stopped};
ghost use Rattle.shared_ring.specs.Ends.{completed, controller_of, driver_of, driver_record, driver_state, is_at_frame_end, posted, returned};
ghost use Rattle.poll82599_c.specs.rings.Steps.{TriedAnswer, TriedControlStep};

use shared_ring::{ControllerEnd, Direction, DriverEnd, HandshakeStep};

/// Makes a step of the handshake. A load returns the control word: 0 off, 1 enabling asked for, 2 on, 3 disabling asked
/// for. A request returns 1, or 0 if it stores nothing: an enabling was asked before, or the queue to disable is not
/// on.
pub(crate) fn control_step<D, C, R: Direction<D, C>, E: DriverEnd<D, C, R>>(
    end: &mut E,
    ring: &E::Ring,
    step: HandshakeStep,
) -> u32
    requires own { (E.side end.old).table ≡ E.Ring.table ring.now }
    ensures step { TriedControlStep step result (driver_of R.form (E.side end.old)) (driver_of R.form (E.side end.new)) }
    ensures rest { driver_record (driver_of R.form (E.side end.new)) ≡ record (driver_record (driver_of R.form (E.side end.old))) { state = driver_state (driver_of R.form (E.side end.new)) } }
{
    match step {
        HandshakeStep::AskEnable if end.is_new() => {
            end.ask_enable(ring);
            1
        }
        HandshakeStep::LoadControl => u32::from(end.state(ring).word()),
        HandshakeStep::AskDisable if end.is_on() => {
            end.ask_disable(ring);
            1
        }
        _ => 0,
    }
}

/// Loads the control word, and answers a request if it can. Returns 1 if it answered, otherwise 0.
pub(crate) fn answer_asked<D, C, R: Direction<D, C>, E: ControllerEnd<D, C, R>>(
    end: &mut E,
    ring: &E::Ring,
) -> u32
    requires own { (E.side end.old).table ≡ E.Ring.table ring.now }
    ensures own { (E.side end.new).table ≡ (E.side end.old).table }
    ensures step { TriedAnswer result (controller_of R.form (E.side end.old)) (controller_of R.form (E.side end.new)) }
    ensures rest { is_at_frame_end (controller_of R.form (E.side end.new)) ≡ false → completed (controller_of R.form (E.side end.new)) ≡ completed (controller_of R.form (E.side end.old)) }
{
    end.asked(ring);
    if !end.can_answer() {
        return 0;
    }
    end.answer(ring);
    1
}

/// Whether a disabling was seen answered, and no buffer is in the ring.
pub(crate) fn is_emptied<D, C, R: Direction<D, C>, E: DriverEnd<D, C, R>>(end: &E) -> bool
    ensures stopped { result ≡ true → is_stopped (driver_state (driver_of R.form (E.side end.now))) ≡ true }
    ensures back { result ≡ true → returned (driver_of R.form (E.side end.now)) ≡ length (posted (driver_of R.form (E.side end.now))) }
{
    end.is_stopped() && end.size() == end.room() + 1
}
