//! Serving both sides of all flows while others watch them.
ghost use Rattle.std.specs.Prelude.{◌≡◌, ◌<◌, true, None, All, IfSome, length, map, vec_len};
ghost use Rattle.counters.specs.Kinds.{none_taken, nothing};
ghost use Rattle.flows.specs.Driven.{is_over};
ghost use Rattle.teams.specs.Refusals.{Halted};
ghost use Rattle.counters.specs.Paired.{ArePensOf};
ghost use Rattle.forwarder.specs.LiveStatistics.{AllContinue};

use crate::wrapping::{Unwrapped, Wrapped, unwrap_all, wrap_all};
use counters::{FlowCells, FlowPens};
use flows::{ControllerFlow, DriverFlow, Served, serve_flows};
use forwarding::{ForwardError, Gate};
use std::alloc::Global;
use std::rt::Clock;
use std::sync::Wait;
use std::thread::Threads;

/// Both sides of all flows, with their pens.
#[derive(Drop)]
pub struct ServedWithPens<'a> {
    /// Both sides as they came back.
    pub served: Served<DriverFlow<'a>, ControllerFlow<'a>>,
    /// The pens that showed their numbers, in the order of the flows.
    pub pens: Vec<FlowPens>,
}

/// Serves both sides of all flows as [`serve_flows`] does, while their cells go on from the numbers that they show by the
/// flows' counts. Each argument has one entry a flow, in the order of the flows, and no flow has counted anything yet.
#[tactic(auto, using(flows::proofs::Dealing::memory_halted))]
pub fn serve_watched<'a, R: Threads + Wait + Clock + Sync, G: Gate + Sync>(
    rt: &R,
    alloc: Global,
    gate: &G,
    drivers: Vec<DriverFlow<'a>>,
    controllers: Vec<ControllerFlow<'a>>,
    cells: &'a [FlowCells],
    pens: Vec<FlowPens>,
    workers: usize,
) -> ServedWithPens<'a>
    requires some { 0 < workers }
    requires flows { (vec_len drivers ≡ length cells.now) × (vec_len controllers ≡ length cells.now) }
    requires pens { ArePensOf cells.now pens.items }
    requires counts { All (λ f. f.counts ≡ none_taken) drivers.items }
    requires tallies { All (λ f. f.tally ≡ nothing) controllers.items }
    ensures refused { IfSome result.served.refusal (λ e. Halted G.answers gate.now e) }
    ensures drivers { map (λ f. f.key) result.served.drivers.items ≡ map (λ f. f.key) drivers.entry.items }
    ensures controllers { map (λ f. f.key) result.served.controllers.items ≡ map (λ f. f.key) controllers.entry.items }
    ensures over { result.served.refusal ≡ None → All (λ f. is_over f.phase ≡ true) result.served.drivers.items }
    ensures pens { ArePensOf cells.entry.now result.pens.items }
    ensures go_on { AllContinue (length cells.entry.now) pens.items result.pens.items (map (λ f. f.tally) result.served.controllers.items) (map (λ f. f.counts) result.served.drivers.items) }
{
    let count = cells.len();
    let (Ok(rooms), Ok(back)) = (Wrapped::rooms(alloc, count), Unwrapped::rooms(alloc, count))
    else {
        let refusal = Some(ForwardError::Memory);
        return ServedWithPens {
            served: Served {
                drivers,
                controllers,
                refusal,
            },
            pens,
        };
    };
    let flows = wrap_all(rt, drivers, controllers, cells, pens, rooms);
    let served = serve_flows(rt, alloc, gate, flows.drivers, flows.controllers, workers);
    let back = unwrap_all(served.drivers, served.controllers, back);
    ServedWithPens {
        served: Served {
            drivers: back.drivers,
            controllers: back.controllers,
            refusal: served.refusal,
        },
        pens: back.pens,
    }
}
