//! A run whose progress is shown.
ghost use Rattle.std.specs.Prelude.{◌≡◌, ◌⊎◌, ℕ, ◌*◌, ◌<◌, ◌↔◌, IfErr, IfOk, IsErrOf, None, length, slice_index_or, vec_len};
ghost use Rattle.counters.specs.Paired.{ArePaired};
ghost use Rattle.flows.specs.Reports.{IsReport};
ghost use Rattle.settings.specs.Configs.{FitsIn};
ghost use Rattle.forwarder.specs.Plans.{plan};
ghost use Rattle.refusals.specs.declared.errors.ForwardError.TheVariants.{Config as ConfigRefused};
ghost use Rattle.limits.specs.declared.profile.TheConstants.{PORTS};
ghost use Rattle.teams.specs.Refusals.{Halted};

use crate::progress::reader::Reader;
use crate::progress::reading::readers_of;
use crate::progress::showing::watch;
use counters::{FlowCells, FlowPens};
use forwarder::{Config, Report, forward_watched};
use forwarding::{ForwardError, Gate};
use limits::PORTS;
use requests::ProgressForm;
use std::alloc::Global;
use std::io::Write;
use std::marker::Send;
use std::sync::Wait;
use std::sync::atomic::{AtomicBool, Ordering};
use std::thread;
use std::thread::Threads;
use std::time::Clock;
use wire_script::Script;

/// The counter cells of all flows, with the pens that write them and the readers of the progress thread.
#[derive(Drop)]
struct Gauges<'c> {
    cells: &'c [FlowCells],
    pens: Vec<FlowPens>,
    readers: Vec<Reader<'c>>,
}

/// Forwards a script as [`forwarder::forward`] does. If a form is given, a separate thread writes the progress to
/// `screen`. That thread is joined before the call returns. If it cannot be started, the numbers are shown once, at the
/// end.
pub fn forward<R: Threads + Wait + Clock + Sync, G: Gate + Sync, M: Write + Send>(
    rt: &R,
    alloc: Global,
    script: &Script,
    config: &Config,
    gate: &G,
    screen: &mut M,
    form: Option<ProgressForm>,
) -> Result<Report, ForwardError>
    ensures screen { form ≡ None → screen.new ≡ screen.old }
    ensures config { IsErrOf result ConfigRefused ↔ ¬ FitsIn script.now config.now }
    ensures fits { IsErrOf result ConfigRefused ⊎ FitsIn script.now config.now }
    ensures halted { FitsIn script.now config.now → IfErr result (λ e. Halted G.answers gate.now e) }
    ensures flows { IfOk result (λ r. vec_len r.flows ≡ PORTS * config.now.pairs) }
    ensures reports { IfOk result (λ r. (flow : ℕ) (d : _) → flow < PORTS * config.now.pairs → IsReport (plan config.now script.now flow) (slice_index_or r.flows.items flow d)) }
{
    let Some(form) = form else {
        return forwarder::forward(rt, alloc, script, config, gate);
    };
    config.check(script)?;
    let flows = PORTS * config.pairs as usize;
    let Ok((cells, mut pens)) = FlowCells::of(alloc, flows) else {
        return Err(ForwardError::Memory);
    };
    let readers = readers_of(alloc, cells.as_slice(), pens.as_mut_slice())?;
    let gauges = Gauges {
        cells: &cells,
        pens,
        readers,
    };
    forward_beside(rt, alloc, script, config, gate, gauges, screen, form)
}

/// Forwards a script that fits, while another thread shows the progress.
fn forward_beside<R: Threads + Wait + Clock + Sync, G: Gate + Sync, M: Write + Send>(
    rt: &R,
    alloc: Global,
    script: &Script,
    config: &Config,
    gate: &G,
    gauges: Gauges<'_>,
    screen: &mut M,
    form: ProgressForm,
) -> Result<Report, ForwardError>
    requires fits { FitsIn script.now config.now }
    requires cells { length gauges.cells.now ≡ PORTS * config.now.pairs }
    requires pens { ArePaired gauges.cells.now gauges.pens.items }
    ensures config { ¬ (IsErrOf result ConfigRefused) }
    ensures halted { IfErr result (λ e. Halted G.answers gate.now e) }
    ensures flows { IfOk result (λ r. vec_len r.flows ≡ PORTS * config.now.pairs) }
    ensures reports { IfOk result (λ r. (flow : ℕ) (d : _) → flow < PORTS * config.now.pairs → IsReport (plan config.now script.now flow) (slice_index_or r.flows.items flow d)) }
{
    let Gauges {
        cells,
        pens,
        mut readers,
    } = gauges;
    let over = AtomicBool::new(false);
    let over = &over;
    let frames = (script.frames().len() as u64).saturating_mul(u64::from(config.repeat));
    let (_, ran) = thread::join(
        rt,
        move || watch(rt, readers.as_mut_slice(), frames, screen, form, over),
        move || -> Result<(Report, Vec<FlowPens>), ForwardError>
            requires { (length cells.now ≡ PORTS * config.now.pairs) × ArePaired cells.now pens.items }
        {
            let ran = forward_watched(rt, alloc, script, config, gate, cells, pens);
            over.store(true, Ordering::SeqCst);
            ran
        },
    );
    let (report, _) = ran?;
    Ok(report)
}
