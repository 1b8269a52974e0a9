//! The enabling of a queue, for rings of both directions.
ghost use Rattle.shared_ring.specs.Ends.{controller_of, driver_of};
ghost use Rattle.ring_bench.specs.Enabling.{CanAsk, CanServe, HasBegun, SawEnabled};

use crate::kit::patience::Patience;
use shared_ring::{ControllerEnd, Direction, DriverEnd};
use std::sync::Wait;

/// Asks for the queue to be enabled, and waits until it is seen enabled.
pub fn await_enabling<W: Wait, D, C, R: Direction<D, C>, E: DriverEnd<D, C, R>>(
    rt: &W,
    ring: &E::Ring,
    driver: &mut E,
)
    requires can { CanAsk (E.Ring.table ring.now) (driver_of R.form (E.side driver.old)) }
    ensures { SawEnabled (driver_of R.form (E.side driver.old)) (driver_of R.form (E.side driver.new)) }
{
    driver.ask_enable(ring);
    let mut patience = Patience::new();
    for _ in rt.forever() {
        driver.state(ring);
        if driver.is_on() {
            return;
        }
        patience.wait();
    }
    unreachable!()
}

/// Waits until the enabling is asked for, and answers it.
pub fn answer_enabling<W: Wait, D, C, R: Direction<D, C>, E: ControllerEnd<D, C, R>>(
    rt: &W,
    ring: &E::Ring,
    controller: &mut E,
)
    requires can { CanServe (E.Ring.table ring.now) (controller_of R.form (E.side controller.old)) }
    ensures { HasBegun (E.Ring.table ring.now) (E.side controller.old).completion (controller_of R.form (E.side controller.new)) }
{
    let mut patience = Patience::new();
    for _ in rt.forever() {
        controller.asked(ring);
        if controller.can_answer() {
            controller.answer(ring);
            return;
        }
        patience.wait();
    }
    unreachable!()
}
