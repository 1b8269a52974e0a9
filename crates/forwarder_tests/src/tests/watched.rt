//! Cells show the counts of flows while they run.
ghost use Rattle.std.specs.Prelude.{◌≡◌, length};
ghost use Rattle.counters.specs.Paired.{ArePaired, ArePensOf};
ghost use Rattle.pool.specs.Owned.{IsOf};
ghost use Rattle.pool.specs.declared.hand.TheConstants.{WHOLE_SHARE};
ghost use Rattle.settings.specs.Configs.{FitsIn};

use crate::tests::bursts::{Burst, FORTY, FORTY_COUNTS, FRAME, script_of};
use crate::tests::configs::SHORT;
use crate::tests::counted::{Counts, NONE, is_drained};
use crate::tests::gates::Paced;
use crate::tests::readers::{Reader, readers_of};
use crate::tests::trials::{Asked, ONCE, Trial, each_is_so};
use crate::tests::wanted::holds;
use counters::{DriveCell, DrivePass, Driven, FlowCells, FlowPens, Snapshot, StatCell, StatPass};
use flows::FlowReport;
use forwarder::{Config, Report, Watch, forward_watched, forward_with};
use forwarding::{ForwardError, Open};
use pool::{Pool, PoolPass};
use std::alloc::Global;
use std::process::Abort;
use std::rt::Clock;
use std::sync::Wait;
use std::thread;
use std::thread::Threads;
use wire_script::Script;

/// Whether each flow's cells have the numbers of its report now.
fn all_see<R: Wait>(rt: &R, readers: &mut [Reader<'_>], flows: &[FlowReport]) -> bool {
    for k in 0..readers.len() {
        if k >= flows.len() || !readers[k].sees(rt, &flows[k]) {
            return false;
        }
    }
    readers.len() == flows.len()
}

/// Whether each cell has its flow's numbers after the 40 frames passed rings of 8.
pub(crate) fn are_shown<R: Threads + Wait + Clock + Sync + Abort>(
    rt: &R,
    trial: Trial<'_>,
) -> bool {
    let Trial { alloc, script, .. } = trial;
    let config = Config {
        workers: trial.workers,
        ..SHORT
    };
    let (cells, mut pens) = FlowCells::of(alloc, 4).expect(rt, "cells");
    let mut readers = readers_of(rt, alloc, &cells, &mut pens);
    let (report, _) = forward_watched(rt, alloc, script, &config, &Open, &cells, pens).expect(
        rt, "a report",
    );
    let shown = all_see(rt, &mut readers, &report.flows);
    shown && is_drained(&report, script, 2, FORTY_COUNTS)
}

#[test]
fn each_cell_shows_its_report(rt: HostRuntime) {
    each_is_so(&rt, rt.alloc(), Asked::AreShown, FORTY, ONCE);
}

/// 40 frames for port 0, queue 1, and a frame for port 1, queue 0.
const MORE: &[Burst] = &[
    Burst {
        queue: 1,
        count: 40,
        ..FRAME
    },
    Burst { port: 1, ..FRAME },
];

/// Their counts with two pairs.
const MORE_COUNTS: &[Counts] = &[
    NONE,
    [40, 40, 0, 0, 40, 40, 0, 40, 0],
    [1, 1, 0, 0, 1, 1, 0, 1, 0],
    NONE,
];

/// Whether the cells go on when a script is forwarded twice over one pool: each reader sees the counts of both times.
fn go_on<R: Threads + Wait + Clock + Sync + Abort>(
    rt: &R,
    alloc: Global,
    script: &Script,
    pool: &Pool,
    pass: &mut PoolPass,
    readers: &mut [Reader<'_>],
    watch: Watch<'_>,
) -> bool
    requires fits { FitsIn script.now SHORT }
    requires pool { IsOf pool.now pass.old }
    requires share { pass.old.hand.share ≡ WHOLE_SHARE }
    requires cells { length watch.cells.now ≡ 4 }
    requires pens { ArePensOf watch.cells.now watch.pens.items }
{
    let cells = watch.cells;
    let (_, pens) = forward_with(
        rt,
        alloc,
        script,
        &SHORT,
        &Open,
        pool,
        pass,
        Some(watch),
        None,
    )
    .expect(rt, "a report");
    let again = Some(Watch { cells, pens });
    let (report, _) = forward_with(
        rt, alloc, script, &SHORT, &Open, pool, pass, again, None,
    ).expect(rt, "another report");
    let mut good = readers.len() == report.flows.len();
    for (reader, flow) in readers.iter_mut().zip(report.flows.iter()) {
        good &= reader.sees_twice(rt, flow);
    }
    good && is_drained(&report, script, 2, MORE_COUNTS)
}

#[test]
fn cells_go_on(rt: HostRuntime) {
    let script = script_of(&rt, rt.alloc(), MORE);
    SHORT.check(&script).expect(&rt, "a lawful configuration");
    let (pool, mut pass) = Pool::new(&rt, rt.alloc(), SHORT.buffers).expect(&rt, "a pool");
    let (cells, mut pens) = FlowCells::of(rt.alloc(), 4).expect(&rt, "cells");
    let mut readers = readers_of(&rt, rt.alloc(), &cells, &mut pens);
    let watch = Watch {
        cells: &cells,
        pens,
    };
    holds(
        &rt,
        go_on(
            &rt,
            rt.alloc(),
            &script,
            &pool,
            &mut pass,
            &mut readers,
            watch,
        ),
    );
}

/// The maximum number of reads of a reader.
const READS: u32 = 10_000_000;

/// Reads until 40 frames were offered, and reports its progress to the gate. Returns whether each moment in between was
/// seen, none out of order, and each adds up.
fn watch_offered<R: Wait>(rt: &R, cell: &StatCell, mut pass: StatPass, gate: &Paced) -> bool
    requires own { pass.cell ≡ cell.now }
{
    let mut last = 0;
    for _ in 0..READS {
        let now = cell.read(rt, &mut pass);
        let next = now.offered == last || now.offered.checked_sub(1) == Some(last);
        if !next || now.stored != now.offered || !now.is_lawful() {
            return false;
        }
        last = now.offered;
        gate.see(last);
        if last == 40 {
            return true;
        }
        thread::yield_now();
    }
    false
}

/// Reads until 40 frames were posted. Returns whether no number fell, and each moment adds up.
fn watch_driven<R: Wait>(rt: &R, cell: &DriveCell, mut pass: DrivePass) -> bool
    requires own { pass.cell ≡ cell.now }
{
    let mut last = Driven::opening();
    for _ in 0..READS {
        let now = cell.read(rt, &mut pass);
        let falls = now.taken < last.taken || now.posted < last.posted;
        if falls || now.tx_dropped != 0 || !now.is_lawful() {
            return false;
        }
        last = now;
        if last.posted == 40 {
            return true;
        }
        thread::yield_now();
    }
    false
}

/// Reads both cells of a flow in threads of their own.
fn watch<R: Threads + Wait + Clock + Sync + Abort>(
    rt: &R,
    reader: Reader<'_>,
    gate: &Paced,
) -> bool {
    let Reader { cells, stat, drive } = reader;
    let (offered, driven) = thread::join(
        rt,
        || watch_offered(rt, &cells.stat, stat, gate),
        || watch_driven(rt, &cells.drive, drive),
    );
    offered && driven
}

/// Four flows over rings of 64.
const WATCHED: Config = Config { ring: 64, ..SHORT };

/// Whether the cells of flow 1 show the progress of a forwarder with this gate.
fn is_watched<R: Threads + Wait + Clock + Sync + Abort>(
    rt: &R,
    alloc: Global,
    script: &Script,
    cells: &[FlowCells],
    pens: Vec<FlowPens>,
    reader: Reader<'_>,
) -> bool
    requires cells { length cells.now ≡ 4 }
    requires pens { ArePaired cells.now pens.items }
{
    let gate = Paced::new();
    let gate = &gate;
    let (ran, good) = thread::join(
        rt,
        move || -> Result<(Report, Vec<FlowPens>), ForwardError>
            requires { (length cells.now ≡ 4) × ArePaired cells.now pens.items }
        { forward_watched(rt, alloc, script, &WATCHED, gate, cells, pens) },
        move || watch(rt, reader, gate),
    );
    let (report, _) = ran.expect(rt, "a report");
    good && is_drained(&report, script, 2, FORTY_COUNTS)
}

// The gate lets each frame be offered only once the previous one was seen in the cell.
#[test]
fn watch_while_workers_run(rt: HostRuntime) {
    let script = script_of(&rt, rt.alloc(), FORTY);
    let (cells, mut pens) = FlowCells::of(rt.alloc(), 4).expect(&rt, "cells");
    let mut readers = readers_of(&rt, rt.alloc(), &cells, &mut pens);
    readers.truncate(2);
    let reader = readers.pop().expect(&rt, "flow 1");
    holds(
        &rt,
        is_watched(&rt, rt.alloc(), &script, &cells, pens, reader),
    );
}
