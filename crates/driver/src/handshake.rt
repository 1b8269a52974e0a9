//! The calls that drivers of both directions make on their ends in the same way.
ghost use Rattle.std.specs.Prelude.{◌≡◌, ◌↔◌, true, false, length, IsErr, IsTrue, IfErr, OnErr, IfOk, OnOk};
ghost use Rattle.ring_model.specs.declared.states.DriverState.TheVariants as state;
ghost use Rattle.ring_model.specs.shared.Handshakes.{is_on, is_open, is_stopped};
ghost use Rattle.shared_ring.specs.declared.events.DriverEvent.TheVariants.{AskedDisable};
ghost use Rattle.shared_ring.specs.Ends.{driver_of, driver_record, driver_state, known_of, driver_grown, posted, returned};
ghost use Rattle.refusals.specs.declared.errors.DriverError.TheVariants.{QueueOff, NotReclaimed};
ghost use Rattle.driver.specs.Handshake.{AskedEnabling};

use refusals::DriverError;
use shared_ring::{Direction, DriverEnd};

/// Asks for the queue to be enabled, if nothing was asked yet, and loads the control word. Returns whether the queue is
/// enabled.
pub(crate) fn enable<D, C, R: Direction<D, C>, E: DriverEnd<D, C, R>>(
    end: &mut E,
    ring: &E::Ring,
) -> Result<bool, DriverError>
    requires own { (E.side end.old).table ≡ E.Ring.table ring.now }
    ensures refused { IsErr result ↔ (is_stopped (driver_state (driver_of R.form (E.side end.old))) ≡ true) }
    ensures refusal { IfErr result (λ e. e ≡ NotReclaimed) }
    ensures told { IfOk result (λ enabled. enabled ≡ is_on (driver_state (driver_of R.form (E.side end.new)))) }
    ensures open { is_open (driver_state (driver_of R.form (E.side end.old))) ≡ true → AskedEnabling (driver_of R.form (E.side end.old)) (driver_of R.form (E.side end.new)) }
    ensures shut { is_open (driver_state (driver_of R.form (E.side end.old))) ≡ false → end.new ≡ end.old }
    ensures known { known_of (driver_of R.form (E.side end.new)) ≡ known_of (driver_of R.form (E.side end.old)) }
{
    if end.is_stopped() {
        return Err(DriverError::NotReclaimed);
    }
    if !end.is_open() {
        return Ok(false);
    }
    if end.is_new() {
        end.ask_enable(ring);
    }
    end.state(ring);
    Ok(end.is_on())
}

/// Asks for the queue to be disabled.
pub(crate) fn ask_disable<D, C, R: Direction<D, C>, E: DriverEnd<D, C, R>>(
    end: &mut E,
    ring: &E::Ring,
) -> Result<(), DriverError>
    requires own { (E.side end.old).table ≡ E.Ring.table ring.now }
    ensures refused { IsErr result ↔ (is_on (driver_state (driver_of R.form (E.side end.old))) ≡ false) }
    ensures refusal { IfErr result (λ e. e ≡ QueueOff) }
    ensures unchanged { OnErr result (end.new ≡ end.old) }
    ensures step { OnOk result (driver_of R.form (E.side end.new) ≡ driver_grown (driver_of R.form (E.side end.old)) AskedDisable) }
    ensures record { OnOk result (driver_record (driver_of R.form (E.side end.new)) ≡ record (driver_record (driver_of R.form (E.side end.old))) { state = state.Stopping }) }
    ensures known { known_of (driver_of R.form (E.side end.new)) ≡ known_of (driver_of R.form (E.side end.old)) }
{
    if !end.is_on() {
        return Err(DriverError::QueueOff);
    }
    end.ask_disable(ring);
    Ok(())
}

/// Whether every posted buffer has come back.
pub(crate) fn is_back<D, C, R: Direction<D, C>, E: DriverEnd<D, C, R>>(end: &E) -> bool
    ensures { IsTrue result ↔ (returned (driver_of R.form (E.side end.now)) ≡ length (posted (driver_of R.form (E.side end.now)))) }
{
    end.room() == end.size() - 1
}
