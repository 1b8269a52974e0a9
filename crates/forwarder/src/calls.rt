//! The calls that forward a whole script.
ghost use Rattle.std.specs.Option.{ForSome, is_some};
ghost use Rattle.std.specs.Prelude.{◌≡◌, ◌↔◌, ◌⊎◌, ℕ, ◌*◌, ◌<◌, IfSome, IfOk, IfErr, IsErrOf, length, vec_len, slice_index_or};
ghost use Rattle.counters.specs.Paired.{ArePaired, ArePensOf};
ghost use Rattle.limits.specs.declared.profile.TheConstants.{MOST_PAIRS, PORTS};
ghost use Rattle.refusals.specs.declared.errors.ForwardError.TheVariants.{Memory, Config as ConfigRefused};
ghost use Rattle.pool.specs.declared.hand.TheConstants.{WHOLE_SHARE};
ghost use Rattle.pool.specs.Hands.{HoldsWhole};
ghost use Rattle.pool.specs.Owned.{IsOf};
ghost use Rattle.flows.specs.Reports.{IsReport};
ghost use Rattle.settings.specs.Configs.{FitsIn};
ghost use Rattle.forwarder.specs.Plans.{plan, plan_with};
ghost use Rattle.forwarder.specs.ShownCounts.{ContinueByReports, ShowReports};
ghost use Rattle.teams.specs.Refusals.{Halted};

use crate::flow_rings::make_rings;
use crate::index::Index;
use crate::report::Report;
use crate::running::{Job, Watch, run_flows};
use crate::stopping::close_all;
use counters::{FlowCells, FlowPens};
use forwarding::{ForwardError, Gate};
use pool::{Pool, PoolPass};
use settings::Config;
use std::alloc::Global;
use std::rt::Clock;
use std::sync::Wait;
use std::sync::atomic::AtomicBool;
use std::thread::Threads;
use wire_script::Script;

/// Forwards the frames of a script, as often as the configuration repeats them: each frame received at a port's queue is
/// touched and sent at the other port's queue of the same number. Makes two rings for each flow, and a team of workers for each side.
///
/// Returns `Config` exactly if the configuration's `check` refuses, before anything is made; `Gate` only if a gate
/// returns false; `Memory` or `Thread` if one of these was refused. All started workers are joined before it returns.
pub fn forward<R: Threads + Wait + Clock + Sync, G: Gate + Sync>(
    rt: &R,
    alloc: Global,
    script: &Script,
    config: &Config,
    gate: &G,
) -> Result<Report, ForwardError>
    ensures config { IsErrOf result ConfigRefused ↔ ¬ FitsIn script.now config.now }
    ensures fits { IsErrOf result ConfigRefused ⊎ FitsIn script.now config.now }
    ensures halted { FitsIn script.now config.now → IfErr result (λ e. Halted G.answers gate.now e) }
    ensures flows { IfOk result (λ r. vec_len r.flows ≡ PORTS * config.now.pairs) }
    ensures reports { IfOk result (λ r. (flow : ℕ) (d : _) → flow < PORTS * config.now.pairs → IsReport (plan config.now script.now flow) (slice_index_or r.flows.items flow d)) }
{
    let (pool, mut pass) = make_pool(rt, alloc, script, config)?;
    forward_in(rt, alloc, script, config, gate, &pool, &mut pass)
}

/// Checks the configuration, and makes a pool of `config.buffers` buffers, with its pass.
fn make_pool<R: Wait>(
    rt: &R,
    alloc: Global,
    script: &Script,
    config: &Config,
) -> Result<(Pool, PoolPass), ForwardError>
    ensures config { IsErrOf result ConfigRefused ↔ ¬ FitsIn script.now config.now }
    ensures fits { IsErrOf result ConfigRefused ⊎ FitsIn script.now config.now }
    ensures refused { FitsIn script.now config.now → IfErr result (λ e. e ≡ Memory) }
    ensures pool { IfOk result (λ r. IsOf r.0 r.1) }
    ensures buffers { IfOk result (λ r. r.0.count ≡ config.now.buffers) }
    ensures share { IfOk result (λ r. r.1.hand.share ≡ WHOLE_SHARE) }
{
    config.check(script)?;
    match Pool::new(rt, alloc, config.buffers) {
        Ok(made) => Ok(made),
        Err(_) => Err(ForwardError::Memory),
    }
}

/// Forwards as [`forward`] does, over the caller's pool and with a configuration that `check` accepts. `config.buffers`
/// bounds what all flows together take from the pool. If a refusal stops the workers, or not all of them can be
/// started, the started ones are joined, all rings are closed, and the flows' buffers go back to the pool. A pool that was
/// whole with what its pass holds is whole again.
#[tactic(auto, using(crate::proofs::Whole::still_whole))]
pub fn forward_in<R: Threads + Wait + Clock + Sync, G: Gate + Sync>(
    rt: &R,
    alloc: Global,
    script: &Script,
    config: &Config,
    gate: &G,
    pool: &Pool,
    pass: &mut PoolPass,
) -> Result<Report, ForwardError>
    requires fits { FitsIn script.now config.now }
    requires pool { IsOf pool.now pass.old }
    requires share { PORTS * MOST_PAIRS < pass.old.hand.share }
    ensures halted { IfErr result (λ e. Halted G.answers gate.now e) }
    ensures flows { IfOk result (λ r. vec_len r.flows ≡ PORTS * config.now.pairs) }
    ensures reports { IfOk result (λ r. (flow : ℕ) (d : _) → flow < PORTS * config.now.pairs → IsReport (plan config.now script.now flow) (slice_index_or r.flows.items flow d)) }
    ensures pool { IsOf pool.now pass.new }
    ensures share { pass.new.hand.share ≡ pass.old.hand.share }
    ensures held { pass.new.hand.held ≡ pass.old.hand.held }
    ensures whole { HoldsWhole pass.old.hand → HoldsWhole pass.new.hand }
{
    let (report, _) = forward_with(rt, alloc, script, config, gate, pool, pass, None, None)?;
    Ok(report)
}

/// Forwards as [`forward`] does, while the cells show the counts of each flow so far. The offer counts are written
/// after each offer that changed them, a driver's counts after each of its turns that changed one. Other threads read
/// the cells by passes that they took from the pens before.
///
/// There is one entry a flow, in the order of the flows, and no pen has written anything. The pens come back with the
/// report, and the last values that they wrote are its numbers.
pub fn forward_watched<R: Threads + Wait + Clock + Sync, G: Gate + Sync>(
    rt: &R,
    alloc: Global,
    script: &Script,
    config: &Config,
    gate: &G,
    cells: &[FlowCells],
    pens: Vec<FlowPens>,
) -> Result<(Report, Vec<FlowPens>), ForwardError>
    requires cells { length cells.now ≡ PORTS * config.now.pairs }
    requires pens { ArePaired cells.now pens.items }
    ensures config { IsErrOf result ConfigRefused ↔ ¬ FitsIn script.now config.now }
    ensures fits { IsErrOf result ConfigRefused ⊎ FitsIn script.now config.now }
    ensures halted { FitsIn script.now config.now → IfErr result (λ e. Halted G.answers gate.now e) }
    ensures flows { IfOk result (λ r. vec_len r.0.flows ≡ PORTS * config.now.pairs) }
    ensures reports { IfOk result (λ r. (flow : ℕ) (d : _) → flow < PORTS * config.now.pairs → IsReport (plan config.now script.now flow) (slice_index_or r.0.flows.items flow d)) }
    ensures shown { IfOk result (λ r. ShowReports cells.now r.1.items r.0.flows.items) }
{
    let (pool, mut pass) = make_pool(rt, alloc, script, config)?;
    let watch = Some(Watch { cells, pens });
    forward_with(
        rt, alloc, script, config, gate, &pool, &mut pass, watch, None,
    )
}

/// Forwards as [`forward_in`] does. With `watch`, the cells go on from the numbers that they show, as in
/// [`forward_watched`]: each number grows by the flow's, as long as all of a cell stay below 2^64. The pens come back with
/// the report; after a refusal they are gone.
///
/// Any thread may set `stop`. From then on each flow makes at most one more turn of its driver, and ends as cut unless it
/// is drained: the report has all that was forwarded until then.
#[tactic(auto, using(crate::proofs::Whole::still_whole))]
pub fn forward_with<R: Threads + Wait + Clock + Sync, G: Gate + Sync>(
    rt: &R,
    alloc: Global,
    script: &Script,
    config: &Config,
    gate: &G,
    pool: &Pool,
    pass: &mut PoolPass,
    watch: Option<Watch<'_>>,
    stop: Option<&AtomicBool>,
) -> Result<(Report, Vec<FlowPens>), ForwardError>
    requires fits { FitsIn script.now config.now }
    requires pool { IsOf pool.now pass.old }
    requires share { PORTS * MOST_PAIRS < pass.old.hand.share }
    requires cells { ForSome watch (λ w. length w.cells.now ≡ PORTS * config.now.pairs) }
    requires pens { ForSome watch (λ w. ArePensOf w.cells.now w.pens.items) }
    ensures halted { IfErr result (λ e. Halted G.answers gate.now e) }
    ensures flows { IfOk result (λ r. vec_len r.0.flows ≡ PORTS * config.now.pairs) }
    ensures reports { IfOk result (λ r. (flow : ℕ) (d : _) → flow < PORTS * config.now.pairs → IsReport (plan_with (is_some stop.entry) config.now script.now flow) (slice_index_or r.0.flows.items flow d)) }
    ensures shown { IfOk result (λ r. IfSome watch.entry (λ w. ContinueByReports w.cells.now w.pens.items r.1.items r.0.flows.items)) }
    ensures pool { IsOf pool.now pass.new }
    ensures share { pass.new.hand.share ≡ pass.old.hand.share }
    ensures held { pass.new.hand.held ≡ pass.old.hand.held }
    ensures whole { HoldsWhole pass.old.hand → HoldsWhole pass.new.hand }
{
    let job = Job {
        script,
        config,
        gate,
    };
    let index = Index::of(alloc, script, config.pairs)?;
    let (rings, ends) = make_rings(alloc, config)?;
    let ran = run_flows(
        rt, alloc, job, &index, &rings, ends, pool, pass, watch, stop,
    )?;
    if let Some(refusal) = ran.refusal {
        close_all(rt, pool, pass, rings, ran.stopped);
        return Err(refusal);
    }
    Ok((Report { flows: ran.flows }, ran.pens))
}
