//! The reports of all flows, once both sides of each are over.
ghost use Rattle.std.specs.Prelude.{◌≡◌, ◌+◌, ◌≤◌, true, All, [], length, map, vec_len, vec_capacity};
ghost use Rattle.flows.specs.Driven.{is_over};
ghost use Rattle.flows.specs.Keys.{ControllerKey, DriverKey, plan_of};
ghost use Rattle.flows.specs.Reports.{IsReport};
ghost use Rattle.pool.specs.Owned.{IsOf};
ghost use Rattle.forwarder.specs.Plans.{AreOfRings, AreOfAllRings, AreReports};

use crate::flow_rings::FlowRings;
use flows::{ControllerFlow, DriverFlow, FlowReport, conclude};
use pool::{Pool, PoolPass};

/// Makes the report of a flow and joins its driver's pass.
fn conclude_flow(
    flow_rings: &FlowRings,
    driver: DriverFlow<'_>,
    controller: ControllerFlow<'_>,
    pool: &Pool,
    pass: &mut PoolPass,
) -> FlowReport
    ghost keys: { DriverKey × ControllerKey }
    requires keys { (driver.key ≡ keys.0) × (controller.key ≡ keys.1) }
    requires over { is_over driver.phase ≡ true }
    requires of_flow_rings { AreOfRings pool.now flow_rings.now keys.0 keys.1 }
    requires pool { IsOf pool.now pass.old }
    ensures report { IsReport (plan_of keys.0 keys.1) result }
    ensures driven { result.driven ≡ driver.entry.counts }
    ensures offered { result.tally ≡ controller.entry.tally }
    ensures pool { IsOf pool.now pass.new }
    ensures share { pass.new.hand.share ≡ pass.old.hand.share + 1 }
    ensures held { pass.new.hand.held ≡ pass.old.hand.held }
{
    let Some((done, own)) = driver.into_done() else {
        unreachable!()
    };
    pass.join(pool, own);
    conclude(
        &flow_rings.from,
        &flow_rings.to,
        done,
        controller.into_done(),
    )
}

/// Makes the reports of all flows, in room allocated before.
pub(crate) fn conclude_all(
    rings: &[FlowRings],
    drivers: Vec<DriverFlow<'_>>,
    controllers: Vec<ControllerFlow<'_>>,
    pool: &Pool,
    pass: &mut PoolPass,
    mut reports: Vec<FlowReport>,
) -> Vec<FlowReport>
    requires flows { (vec_len drivers ≡ length rings.now) × (vec_len controllers ≡ length rings.now) }
    requires over { All (λ f. is_over f.phase ≡ true) drivers.items }
    requires rings { AreOfAllRings pool.now (length rings.now) rings.now (map (λ f. f.key) drivers.items) (map (λ f. f.key) controllers.items) }
    requires pool { IsOf pool.now pass.old }
    requires none { reports.items ≡ [] }
    requires room { length rings.now ≤ vec_capacity reports }
    ensures flows { vec_len result ≡ length rings.now }
    ensures reports { AreReports (length rings.now) (map (λ f. f.key) drivers.entry.items) (map (λ f. f.key) controllers.entry.items) result.items }
    ensures driven { map (λ r. r.driven) result.items ≡ map (λ f. f.counts) drivers.entry.items }
    ensures offered { map (λ r. r.tally) result.items ≡ map (λ f. f.tally) controllers.entry.items }
    ensures pool { IsOf pool.now pass.new }
    ensures share { pass.new.hand.share ≡ pass.old.hand.share + length rings.now }
    ensures held { pass.new.hand.held ≡ pass.old.hand.held }
{
    let mut controllers = controllers.into_iter();
    let mut number = 0;
    for driver in drivers {
        let Some(controller) = controllers.next() else {
            unreachable!()
        };
        let report = conclude_flow(&rings[number], driver, controller, pool, pass);
        reports.push_reserved(report);
        number += 1;
    }
    reports
}
