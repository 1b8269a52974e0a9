//! How the work of both teams ends.
use crate::tests::teamed::turns::{AllBut, ENDLESS, dealt, digits_of};
use crate::tests::wanted::{holds, same};
use forwarding::{ForwardError, Open};
use teams::run_teams;

#[test]
fn all_flows_come_back_over(rt: HostRuntime) {
    let alloc = rt.alloc();
    let drivers = dealt(alloc, &[3, 1, 2, 1, 5], 2).expect(&rt, "drivers");
    let controllers = dealt(alloc, &[1, 4, 1], 3).expect(&rt, "controllers");
    let ran = run_teams(&rt, alloc, &Open, drivers, controllers);
    holds(&rt, ran.refusal.is_none());
    same(&rt, digits_of(&ran.drivers), 1350240);
    same(&rt, digits_of(&ran.controllers), 102030);
}

/// The endless flows are on other workers, of both sides: their run ends only because each worker looks at the stop
/// word.
#[test]
fn a_refusal_ends_all_workers(rt: HostRuntime) {
    let alloc = rt.alloc();
    let drivers = dealt(alloc, &[ENDLESS, 1, 1], 3).expect(&rt, "drivers");
    let controllers = dealt(alloc, &[ENDLESS], 1).expect(&rt, "controllers");
    let ran = run_teams(&rt, alloc, &AllBut(1), drivers, controllers);
    holds(&rt, ran.refusal == Some(ForwardError::Gate));
    same(&rt, digits_of(&ran.controllers), 0);
}
