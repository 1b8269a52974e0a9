//! Running both sides' workers at once.
ghost use Rattle.std.specs.Prelude.{◌≡◌, ◌≤◌, [], None, IfOk, IfSome, vec_capacity};
ghost use Rattle.teams.specs.Passes.{first_pass};
ghost use Rattle.teams.specs.Hands.{hand_keys, AllOver};
ghost use Rattle.teams.specs.Refusals.{Halted};

use crate::flow::Flow;
use crate::gate::Gate;
use crate::status::WorkerStatus;
use crate::team::{Begun, join_each, start};
use crate::word::{StopPass, StopWord};
use refusals::ForwardError;
use std::alloc::{AllocError, Global};
use std::rt::Clock;
use std::sync::Wait;
use std::thread;
use std::thread::{Scope, Threads};

/// The flows of both sides, hand by hand.
#[derive(Drop)]
pub struct Ran<D: Drop, C: Drop> {
    /// The flows of the drivers' side.
    pub drivers: Vec<Vec<D>>,
    /// The flows of the controllers' side.
    pub controllers: Vec<Vec<C>>,
    /// The refusal that ended the flows early, if there was one.
    pub refusal: Option<ForwardError>,
}

/// Serves each hand by a worker in a thread of its own, until all flows are over or one of them is refused, and joins every
/// worker that was started. Reports the first refusal that set the stop word: `Memory` if an allocation was refused,
/// `Thread` if a thread could not be started, or the refusal of a flow's turn. All flows come back, including those of
/// a worker that could not be started.
pub fn run_teams<D: Flow, C: Flow, R: Threads + Wait + Clock + Sync, G: Gate + Sync>(
    rt: &R,
    alloc: Global,
    gate: &G,
    drivers: Vec<Vec<D>>,
    controllers: Vec<Vec<C>>,
) -> Ran<D, C>
    ensures drivers { hand_keys D.key result.drivers.items ≡ hand_keys D.key drivers.items }
    ensures controllers { hand_keys C.key result.controllers.items ≡ hand_keys C.key controllers.items }
    ensures over { result.refusal ≡ None → AllOver D.over result.drivers.items × AllOver C.over result.controllers.items }
    ensures refused { IfSome result.refusal (λ e. Halted G.answers gate.now e) }
{
    let Ok((stop, pass)) = StopWord::new(alloc) else {
        return Ran {
            drivers,
            controllers,
            refusal: Some(ForwardError::Memory),
        };
    };
    let shared = &stop;
    thread::scope(
        thread::scope_env(),
        rt,
        |scope| -> Ran<D, C>
            requires first { pass ≡ first_pass shared.now }
            ensures drivers { hand_keys D.key result.drivers.items ≡ hand_keys D.key drivers.items }
            ensures controllers { hand_keys C.key result.controllers.items ≡ hand_keys C.key controllers.items }
            ensures over { result.refusal ≡ None → AllOver D.over result.drivers.items × AllOver C.over result.controllers.items }
            ensures refused { IfSome result.refusal (λ e. Halted G.answers gate.entry.now e) }
        { run_in(scope, rt, alloc, shared, pass, gate, drivers, controllers) },
    )
}

/// In a scope: starts both sides' workers and joins them.
fn run_in<'s, 'e: 's, D: Flow + 's, C: Flow + 's, R: Threads + Wait + Clock + Sync, G: Gate + Sync>(
    scope: &'s Scope<'s, &'e ()>,
    rt: &'e R,
    alloc: Global,
    stop: &'e StopWord,
    pass: StopPass,
    gate: &'e G,
    drivers: Vec<Vec<D>>,
    controllers: Vec<Vec<C>>,
) -> Ran<D, C>
    requires first { pass ≡ first_pass stop.now }
    ensures drivers { hand_keys D.key result.drivers.items ≡ hand_keys D.key drivers.items }
    ensures controllers { hand_keys C.key result.controllers.items ≡ hand_keys C.key controllers.items }
    ensures over { result.refusal ≡ None → AllOver D.over result.drivers.items × AllOver C.over result.controllers.items }
    ensures refused { IfSome result.refusal (λ e. Halted G.answers gate.now e) }
{
    let (Ok(driven), Ok(served)) = (
        WorkerRooms::of(alloc, drivers.len()),
        WorkerRooms::of(alloc, controllers.len()),
    ) else {
        return Ran {
            drivers,
            controllers,
            refusal: Some(ForwardError::Memory),
        };
    };
    let mut all = WorkerStatus::new(pass);
    let drivers = start(scope, rt, stop, gate, drivers, driven.team, &mut all);
    let controllers = start(scope, rt, stop, gate, controllers, served.team, &mut all);
    let drivers = join_each(rt, stop, gate, drivers, driven.hands, all.split(stop));
    let controllers = join_each(rt, stop, gate, controllers, served.hands, all.split(stop));
    all.join(stop, drivers.status);
    all.join(stop, controllers.status);
    Ran {
        drivers: drivers.hands,
        controllers: controllers.hands,
        refusal: all.refusal(rt, stop),
    }
}

/// Room for the workers of one side, and for the hands that they return.
#[derive(Drop)]
struct WorkerRooms<'e, F: Flow, G: Gate> {
    team: Vec<Begun<'e, F, G>>,
    hands: Vec<Vec<F>>,
}

impl<'e, F: Flow, G: Gate> WorkerRooms<'e, F, G> {
    /// Empty lists with room for `count` hands.
    fn of(alloc: Global, count: usize) -> Result<WorkerRooms<'e, F, G>, AllocError>
        ensures empty { IfOk result (λ r. (r.team.items ≡ []) × (r.hands.items ≡ [])) }
        ensures room { IfOk result (λ r. (count ≤ vec_capacity r.team) × (count ≤ vec_capacity r.hands)) }
    {
        let team = Vec::with_capacity(alloc, count)?;
        let hands = Vec::with_capacity(alloc, count)?;
        Ok(WorkerRooms { team, hands })
    }
}
