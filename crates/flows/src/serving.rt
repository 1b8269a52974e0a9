//! Serving both sides of all flows by workers in threads of their own.
ghost use Rattle.std.specs.Prelude.{◌≡◌, ◌<◌, ◌≤◌, true, [], None, All, IfOk, IfSome, map, vec_len, vec_capacity};
ghost use Rattle.teams.specs.Dealing.{IsDealt};
ghost use Rattle.teams.specs.Hands.{hand_keys};
ghost use Rattle.teams.specs.Refusals.{Halted};

use forwarding::{Flow, ForwardError, Gate};
use std::alloc::{AllocError, Global};
use std::rt::Clock;
use std::sync::Wait;
use std::thread::Threads;
use teams::{deal, empty_hands, gather, run_teams};

/// Both sides of all flows, each in the given order.
#[derive(Drop)]
pub struct Served<D: Drop, C: Drop> {
    /// The drivers' sides.
    pub drivers: Vec<D>,
    /// The controllers' sides.
    pub controllers: Vec<C>,
    /// The refusal that ended the flows early, if there was one.
    pub refusal: Option<ForwardError>,
}

/// Room for the flows of one side: as they are dealt to the workers, and as they come back.
#[derive(Drop)]
struct FlowRooms<F: Drop> {
    hands: Vec<Vec<F>>,
    back: Vec<F>,
}

impl<F: Drop> FlowRooms<F> {
    /// Room for `flows` flows and `workers` workers.
    fn of(alloc: Global, flows: usize, workers: usize) -> Result<FlowRooms<F>, AllocError>
        ensures count { IfOk result (λ r. vec_len r.hands ≡ workers) }
        ensures empty { IfOk result (λ r. All (λ h. h.items ≡ []) r.hands.items) }
        ensures room { IfOk result (λ r. All (λ h. flows ≤ vec_capacity h) r.hands.items) }
        ensures back { IfOk result (λ r. (r.back.items ≡ []) × (flows ≤ vec_capacity r.back)) }
    {
        let hands = empty_hands(alloc, workers, flows)?;
        let back = Vec::with_capacity(alloc, flows)?;
        Ok(FlowRooms { hands, back })
    }
}

/// Deals flows to workers in turn.
fn deal_flows<F: Flow>(flows: Vec<F>, hands: Vec<Vec<F>>) -> Vec<Vec<F>>
    requires some { 0 < vec_len hands }
    requires none { All (λ h. h.items ≡ []) hands.items }
    requires room { All (λ h. vec_len flows ≤ vec_capacity h) hands.items }
    ensures count { vec_len result ≡ vec_len hands }
    ensures dealt { IsDealt (map F.key flows.items) (hand_keys F.key result.items) }
{
    deal(flows, hands)
}

/// Serves both sides of all flows by `workers` workers a side, flow `f` by worker `f mod workers`, until all are over
/// or one of them is refused. Joins every worker that was started before it returns, and reports the first refusal that
/// stopped the others. Returns all flows, even after a refusal.
#[tactic(auto, using(crate::proofs::Dealing::memory_halted))]
pub fn serve_flows<D: Flow, C: Flow, R: Threads + Wait + Clock + Sync, G: Gate + Sync>(
    rt: &R,
    alloc: Global,
    gate: &G,
    drivers: Vec<D>,
    controllers: Vec<C>,
    workers: usize,
) -> Served<D, C>
    requires { 0 < workers }
    ensures refused { IfSome result.refusal (λ e. Halted G.answers gate.now e) }
    ensures drivers { map D.key result.drivers.items ≡ map D.key drivers.items }
    ensures controllers { map C.key result.controllers.items ≡ map C.key controllers.items }
    ensures over { result.refusal ≡ None → All (λ f. D.over f ≡ true) result.drivers.items }
{
    let (driven, served) = (drivers.len(), controllers.len());
    let (Ok(driver_rooms), Ok(controller_rooms)) = (
        FlowRooms::of(alloc, driven, workers),
        FlowRooms::of(alloc, served, workers),
    ) else {
        return Served {
            drivers,
            controllers,
            refusal: Some(ForwardError::Memory),
        };
    };
    let drivers = deal_flows(drivers, driver_rooms.hands);
    let controllers = deal_flows(controllers, controller_rooms.hands);
    let ran = run_teams(rt, alloc, gate, drivers, controllers);
    Served {
        drivers: gather(ran.drivers, driven, driver_rooms.back),
        controllers: gather(ran.controllers, served, controller_rooms.back),
        refusal: ran.refusal,
    }
}
