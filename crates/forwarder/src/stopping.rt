//! Closing the rings of flows that were stopped, and returning their buffers to the pool.
ghost use Rattle.std.specs.Prelude.{◌≡◌, ◌+◌, ◌≤◌, [], length, map, vec_len, vec_capacity};
ghost use Rattle.std.specs.List.{AllZip};
ghost use Rattle.pool.specs.Owned.{IsOf};
ghost use Rattle.forwarder.specs.Plans.{AreOfRings, AreOfAllRings};
ghost use Rattle.forwarder.specs.Stopped.{IsStopped};

use crate::abort::close_flow;
use crate::flow_rings::FlowRings;
use flows::{ControllerDone, ControllerFlow, DriverFlow, DriverParts};
use pool::{Pool, PoolPass};
use std::sync::Wait;

/// Both sides of a stopped flow, without the rings.
#[derive(Drop)]
pub(crate) struct Stopped {
    pub driver: DriverParts,
    pub controller: ControllerDone,
}

/// Separates both sides of a flow from its rings.
fn stop_flow(
    pool: &Pool,
    flow_rings: &FlowRings,
    driver: DriverFlow<'_>,
    controller: ControllerFlow<'_>,
) -> Stopped
    requires of_flow_rings { AreOfRings pool.now flow_rings.now driver.key controller.key }
    ensures { IsStopped pool.now flow_rings.now result }
{
    let (_pool, _flow_rings) = (pool, flow_rings);
    Stopped {
        driver: driver.into_parts(),
        controller: controller.into_done(),
    }
}

/// Separates both sides of all flows from their rings, in room allocated before.
pub(crate) fn stop_all(
    pool: &Pool,
    rings: &[FlowRings],
    drivers: Vec<DriverFlow<'_>>,
    controllers: Vec<ControllerFlow<'_>>,
    mut stopped: Vec<Stopped>,
) -> Vec<Stopped>
    requires flows { (vec_len drivers ≡ length rings.now) × (vec_len controllers ≡ length rings.now) }
    requires rings { AreOfAllRings pool.now (length rings.now) rings.now (map (λ f. f.key) drivers.items) (map (λ f. f.key) controllers.items) }
    requires none { stopped.items ≡ [] }
    requires room { length rings.now ≤ vec_capacity stopped }
    ensures flows { vec_len result ≡ length rings.now }
    ensures stopped { AllZip (IsStopped pool.now) rings.now result.items }
{
    let mut controllers = controllers.into_iter();
    let mut number = 0;
    for driver in drivers {
        let Some(controller) = controllers.next() else {
            unreachable!()
        };
        let flow = stop_flow(pool, &rings[number], driver, controller);
        stopped.push_reserved(flow);
        number += 1;
    }
    stopped
}

/// Closes both rings of a flow, and returns the buffers in them and those at hand of its driver's side to the pool.
fn close_flow_rings<R: Wait>(
    rt: &R,
    pool: &Pool,
    pass: &mut PoolPass,
    flow_rings: FlowRings,
    flow: Stopped,
)
    requires pool { IsOf pool.now pass.old }
    requires stopped { IsStopped pool.now flow_rings flow }
    ensures pool { IsOf pool.now pass.new }
    ensures share { pass.new.hand.share ≡ pass.old.hand.share + 1 }
    ensures held { pass.new.hand.held ≡ pass.old.hand.held }
{
    let own = close_flow(
        rt,
        pool,
        flow_rings.from,
        flow_rings.to,
        flow.driver,
        flow.controller,
    );
    pass.join(pool, own);
}

/// Closes the rings of all flows, and returns all their buffers to the pool.
pub(crate) fn close_all<R: Wait>(
    rt: &R,
    pool: &Pool,
    pass: &mut PoolPass,
    rings: Vec<FlowRings>,
    stopped: Vec<Stopped>,
)
    requires pool { IsOf pool.now pass.old }
    requires count { vec_len stopped ≡ vec_len rings }
    requires stopped { AllZip (IsStopped pool.now) rings.items stopped.items }
    ensures pool { IsOf pool.now pass.new }
    ensures share { pass.new.hand.share ≡ pass.old.hand.share + vec_len rings }
    ensures held { pass.new.hand.held ≡ pass.old.hand.held }
{
    let mut stopped = stopped.into_iter();
    for flow_rings in rings {
        let Some(flow) = stopped.next() else {
            unreachable!()
        };
        close_flow_rings(rt, pool, pass, flow_rings, flow);
    }
}
