//! A watcher: its thread reads the counters of a flow while the forwarder runs.
ghost use Rattle.std.specs.Prelude.{◌≡◌, ◌*◌, [], ◌∷◌, IfOk, length};
ghost use Rattle.counters.specs.Paired.{ArePaired, IsFresh};

use crate::outcome::both;
use anyhow::Result;
use counters::{CounterError, DriveCell, FlowCells, FlowPens, StatCell, StatPass, Tally};
use forwarder::{Config, Report, forward_watched};
use forwarding::{ForwardError, Open};
use std::alloc::{AllocError, Global};
use std::rt::Clock;
use std::sync::Wait;
use std::thread;
use std::thread::Threads;
use wire_script::{Script, parse};

/// The most reads of the watcher.
const READS: u32 = 10_000_000;

/// The counters of a flow that were read last, and how many of its frames went out.
#[derive(Clone, Copy, Debug)]
pub struct Seen {
    pub offered: Tally,
    pub sent: usize,
}

/// Makes the cells of one flow, their pens, and a pass for reading the first cell.
fn cells_of_one(alloc: Global) -> Result<(FlowCells, FlowPens, StatPass), CounterError>
    ensures pens { IfOk result (λ made. IsFresh made.0 made.1) }
    ensures pass { IfOk result (λ made. made.2.cell ≡ made.0.stat) }
{
    let (stat, stat_pen, pass) = StatCell::new(alloc)?;
    let (drive, drive_pen, _) = DriveCell::new(alloc)?;
    let pens = FlowPens {
        stat: stat_pen,
        drive: drive_pen,
    };
    Ok((FlowCells { stat, drive }, pens, pass))
}

/// Reads until `count` frames were offered. No number is below one that was read before.
fn watch<R: Wait>(rt: &R, cell: &StatCell, mut pass: StatPass, count: u64) -> Tally
    requires own { pass.cell ≡ cell.now }
{
    let mut seen = cell.read(rt, &mut pass);
    for _ in 0..READS {
        if seen.offered == count {
            break;
        }
        thread::yield_now();
        seen = cell.read(rt, &mut pass);
    }
    seen
}

/// Forwards a script while another thread watches the cell of a flow.
fn run<R: Threads + Wait + Clock + Sync>(
    rt: &R,
    alloc: Global,
    script: &Script,
    config: &Config,
    cells: &[FlowCells],
    pens: Vec<FlowPens>,
    shown: &StatCell,
    pass: StatPass,
    count: u64,
) -> Result<Seen, ForwardError>
    requires cells { length cells.now ≡ 2 * config.now.pairs }
    requires pens { ArePaired cells.now pens.items }
    requires own { pass.cell ≡ shown.now }
{
    let (ran, offered) = thread::join(
        rt,
        move || -> Result<(Report, Vec<FlowPens>), ForwardError>
            requires { (length cells.now ≡ 2 * config.now.pairs) × ArePaired cells.now pens.items }
        { forward_watched(rt, alloc, script, config, &Open, cells, pens) },
        || watch(rt, shown, pass, count),
    );
    let (report, _) = ran?; // and the pens, which wrote last what the report says
    let sent = report.flows.first().map_or(0, |flow| flow.wire.len());
    Ok(Seen { offered, sent })
}

/// Forwards a script that has `count` frames of flow 0. Returns the counters that were read last, and how many frames
/// went out.
pub fn watched<R: Threads + Wait + Clock + Sync>(
    rt: &R,
    alloc: Global,
    text: &[u8],
    count: u64,
) -> Result<Seen> {
    let script = parse(alloc, text)?;
    let seen = watched_script(rt, alloc, &script, count);
    drop(script);
    seen
}

/// Does the same with a parsed script, and with the cells of two flows.
fn watched_script<R: Threads + Wait + Clock + Sync>(
    rt: &R,
    alloc: Global,
    script: &Script,
    count: u64,
) -> Result<Seen> {
    let (first, second) = both(cells_of_one(alloc), cells_of_one(alloc))?;
    let (first, first_pens, pass) = first;
    let (second, second_pens, _) = second;
    let cells = two(alloc, first, second);
    let pens = two(alloc, first_pens, second_pens);
    let (cells, pens) = both(cells, pens)?;
    let (config, shown) = (Config::default(), &cells[0].stat);
    let seen = run(rt, alloc, script, &config, &cells, pens, shown, pass, count);
    drop(cells);
    Ok(seen?)
}

/// Makes a list of two.
fn two<T: Drop>(alloc: Global, first: T, second: T) -> Result<Vec<T>, AllocError>
    ensures { IfOk result (λ list. list.items ≡ first ∷ second ∷ []) }
{
    let mut list = Vec::new(alloc);
    list.push(first)?;
    list.push(second)?;
    Ok(list)
}
