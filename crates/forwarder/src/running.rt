//! Serving all flows by workers until they are over.
ghost use Rattle.std.specs.Option.{ForSome, is_some};
ghost use Rattle.std.specs.Prelude.{◌≡◌, ℕ, ◌+◌, ◌*◌, ◌<◌, ◌≤◌, true, [], None, All, IfSome, IsSome, IfOk, IfErr, length, map, vec_len, vec_capacity, slice_index_or};
ghost use Rattle.std.specs.List.{AllZip};
ghost use Rattle.counters.specs.Kinds.{none_taken, nothing};
ghost use Rattle.flows.specs.Driven.{is_over};
ghost use Rattle.limits.specs.declared.profile.TheConstants.{MOST_PAIRS, PORTS};
ghost use Rattle.pool.specs.Owned.{IsOf};
ghost use Rattle.flows.specs.Reports.{IsReport};
ghost use Rattle.refusals.specs.declared.errors.ForwardError.TheVariants.{Memory};
ghost use Rattle.settings.specs.Configs.{IsLawful};
ghost use Rattle.forwarder.specs.Rings.{AreReady};
ghost use Rattle.forwarder.specs.Plans.{plan_with};
ghost use Rattle.forwarder.specs.ShownCounts.{ContinueByReports};
ghost use Rattle.forwarder.specs.Stopped.{IsStopped};
ghost use Rattle.teams.specs.Refusals.{Halted};
ghost use Rattle.counters.specs.Paired.{ArePensOf};
ghost use Rattle.forwarder.specs.LiveStatistics.{AllContinue};

use crate::concluding::conclude_all;
use crate::flow_rings::{FlowRingEnds, FlowRings};
use crate::index::Index;
use crate::serving::{ServedWithPens, serve_watched};
use crate::sides::{Sides, make_sides};
use crate::stopping::{Stopped, stop_all};
use counters::{FlowCells, FlowPens};
use flows::{FlowReport, serve_flows};
use forwarding::{ForwardError, Gate};
use pool::{Pool, PoolPass};
use settings::Config;
use std::alloc::Global;
use std::rt::Clock;
use std::sync::Wait;
use std::sync::atomic::AtomicBool;
use std::thread::Threads;
use wire_script::Script;

/// What to forward, by which configuration and gate.
#[derive(Drop)]
pub(crate) struct Job<'a, G> {
    pub script: &'a Script,
    pub config: &'a Config,
    pub gate: &'a G,
}

/// The cells that show the counts of the flows, one entry a flow in the order of the flows, and their pens.
#[derive(Drop)]
pub struct Watch<'w> {
    /// The cells.
    pub cells: &'w [FlowCells],
    /// The pen of each cell, at its place.
    pub pens: Vec<FlowPens>,
}

/// The reports of all flows, and the pens of their cells if these are watched; or the flows that a refusal stopped.
#[derive(Drop)]
pub(crate) struct PassOutcome {
    pub flows: Vec<FlowReport>,
    pub pens: Vec<FlowPens>,
    pub stopped: Vec<Stopped>,
    pub refusal: Option<ForwardError>,
}

/// Room for the results of `flows` flows.
fn make_rooms(alloc: Global, flows: usize) -> Result<(Vec<FlowReport>, Vec<Stopped>), ForwardError>
    ensures refused { IfErr result (λ e. e ≡ Memory) }
    ensures reports { IfOk result (λ r. (r.0.items ≡ []) × (flows ≤ vec_capacity r.0)) }
    ensures stopped { IfOk result (λ r. (r.1.items ≡ []) × (flows ≤ vec_capacity r.1)) }
{
    let reports = Vec::with_capacity(alloc, flows)?;
    let stopped = Vec::with_capacity(alloc, flows)?;
    Ok((reports, stopped))
}

/// Serves both sides of all flows, with their cells if these are watched.
#[tactic(auto, using(flows::proofs::Dealing::memory_halted))]
fn serve_sides<'a, R: Threads + Wait + Clock + Sync, G: Gate + Sync>(
    rt: &R,
    alloc: Global,
    gate: &G,
    sides: Sides<'a>,
    workers: usize,
    watch: Option<Watch<'a>>,
) -> ServedWithPens<'a>
    requires some { 0 < workers }
    requires flows { ForSome watch (λ w. (vec_len sides.drivers ≡ length w.cells.now) × (vec_len sides.controllers ≡ length w.cells.now)) }
    requires pens { ForSome watch (λ w. ArePensOf w.cells.now w.pens.items) }
    requires counts { All (λ f. f.counts ≡ none_taken) sides.drivers.items }
    requires tallies { All (λ f. f.tally ≡ nothing) sides.controllers.items }
    ensures refused { IfSome result.served.refusal (λ e. Halted G.answers gate.now e) }
    ensures drivers { map (λ f. f.key) result.served.drivers.items ≡ map (λ f. f.key) sides.entry.drivers.items }
    ensures controllers { map (λ f. f.key) result.served.controllers.items ≡ map (λ f. f.key) sides.entry.controllers.items }
    ensures over { result.served.refusal ≡ None → All (λ f. is_over f.phase ≡ true) result.served.drivers.items }
    ensures pens { IfSome watch.entry (λ w. ArePensOf w.cells.now result.pens.items) }
    ensures go_on { IfSome watch.entry (λ w. AllContinue (length w.cells.now) w.pens.items result.pens.items (map (λ f. f.tally) result.served.controllers.items) (map (λ f. f.counts) result.served.drivers.items)) }
{
    let Some(watch) = watch else {
        let served = serve_flows(rt, alloc, gate, sides.drivers, sides.controllers, workers);
        let pens = Vec::new(alloc);
        return ServedWithPens { served, pens };
    };
    serve_watched(
        rt,
        alloc,
        gate,
        sides.drivers,
        sides.controllers,
        watch.cells,
        watch.pens,
        workers,
    )
}

/// Serves all flows over these rings until they are over, or one of them is refused.
#[tactic(auto, using(flows::proofs::Dealing::memory_halted))]
pub(crate) fn run_flows<R: Threads + Wait + Clock + Sync, G: Gate + Sync>(
    rt: &R,
    alloc: Global,
    job: Job<'_, G>,
    index: &Index,
    rings: &[FlowRings],
    ends: Vec<FlowRingEnds>,
    pool: &Pool,
    pass: &mut PoolPass,
    watch: Option<Watch<'_>>,
    stop: Option<&AtomicBool>,
) -> Result<PassOutcome, ForwardError>
    requires lawful { IsLawful job.config.now }
    requires ready { AreReady job.config.now job.script.now index.now rings.now ends.items }
    requires pool { IsOf pool.now pass.old }
    requires share { PORTS * MOST_PAIRS < pass.old.hand.share }
    requires cells { ForSome watch (λ w. length w.cells.now ≡ PORTS * job.config.now.pairs) }
    requires pens { ForSome watch (λ w. ArePensOf w.cells.now w.pens.items) }
    ensures halted { IfErr result (λ e. Halted G.answers job.entry.gate.now e) }
    ensures refused { IfOk result (λ r. IfSome r.refusal (λ e. Halted G.answers job.entry.gate.now e)) }
    ensures flows { IfOk result (λ r. r.refusal ≡ None → vec_len r.flows ≡ PORTS * job.entry.config.now.pairs) }
    ensures reports { IfOk result (λ r. r.refusal ≡ None → (flow : ℕ) (d : _) → flow < PORTS * job.entry.config.now.pairs → IsReport (plan_with (is_some stop.entry) job.entry.config.now job.entry.script.now flow) (slice_index_or r.flows.items flow d)) }
    ensures shown { IfOk result (λ r. r.refusal ≡ None → IfSome watch.entry (λ w. ContinueByReports w.cells.now w.pens.items r.pens.items r.flows.items)) }
    ensures stopped { IfOk result (λ r. IsSome r.refusal → (vec_len r.stopped ≡ length rings.now) × AllZip (IsStopped pool.now) rings.now r.stopped.items) }
    ensures pool { IsOf pool.now pass.new }
    ensures refused_share { IfErr result (λ _. pass.new.hand.share ≡ pass.old.hand.share) }
    ensures stopped_share { IfOk result (λ r. IsSome r.refusal → pass.new.hand.share + length rings.now ≡ pass.old.hand.share) }
    ensures share { IfOk result (λ r. r.refusal ≡ None → pass.new.hand.share ≡ pass.old.hand.share) }
    ensures held { pass.new.hand.held ≡ pass.old.hand.held }
{
    let Job {
        script,
        config,
        gate,
    } = job;
    let (reports, rooms) = make_rooms(alloc, rings.len())?;
    let sides = make_sides(
        rt, alloc, config, script, index, rings, ends, pool, pass, stop,
    )?;
    let workers = config.workers as usize;
    let shown = serve_sides(rt, alloc, gate, sides, workers, watch);
    let (served, pens) = (shown.served, shown.pens);
    let refusal = served.refusal;
    let (drivers, controllers) = (served.drivers, served.controllers);
    let (flows, stopped) = if refusal.is_some() {
        (reports, stop_all(pool, rings, drivers, controllers, rooms))
    } else {
        let flows = conclude_all(rings, drivers, controllers, pool, pass, reports);
        (flows, rooms)
    };
    Ok(PassOutcome {
        flows,
        pens,
        stopped,
        refusal,
    })
}
