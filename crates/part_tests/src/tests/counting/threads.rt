//! One thread writes and two read: no number falls, and each read adds up.
ghost use Rattle.std.specs.Prelude.{◌≡◌, ◌*◌, ◌≤◌};
ghost use Rattle.counters.specs.Kinds.{nothing};

use crate::tests::counting::rows::shows;
use crate::tests::wanted::holds;
use counters::{Snapshot, StatCell, StatPass, StatPen, Tally};
use std::process::Abort;
use std::sync::Wait;
use std::thread;
use std::thread::Threads;

/// The number of writes, and the most reads per reading thread.
const WRITES: u64 = 100_000;

const _: () = prove!(WRITES == 100_000);

/// The numbers after `writes` writes.
fn row(writes: u64) -> Tally
    requires { writes ≤ WRITES }
    ensures { result ≡ record { offered = 6 * writes; stored = 3 * writes; dropped = 2 * writes; oversize = writes } }
{
    Tally {
        offered: 6 * writes,
        stored: 3 * writes,
        dropped: 2 * writes,
        oversize: writes,
    }
}

fn write_all<R: Wait>(rt: &R, cell: &StatCell, mut pen: StatPen) -> StatPen
    requires own { pen.cell ≡ cell.now }
    requires opening { pen.last ≡ nothing }
    ensures own { result.cell ≡ cell.now }
{
    for writes in 0..WRITES {
        cell.write(rt, &mut pen, row(writes + 1));
    }
    pen
}

/// Whether this is the opening or a written moment.
fn is_row(now: Tally) -> bool {
    let writes = now.oversize;
    writes <= WRITES && now == row(writes) && now.is_lawful()
}

/// Whether each moment read is the opening or a written one, and none is older than the one before.
fn read_all<R: Wait>(rt: &R, cell: &StatCell, mut pass: StatPass) -> bool
    requires own { pass.cell ≡ cell.now }
{
    let mut last = 0;
    for _ in 0..WRITES {
        let now = cell.read(rt, &mut pass);
        if now.oversize < last || !is_row(now) {
            return false;
        }
        last = now.oversize;
    }
    true
}

fn read_in_two<R: Threads + Wait + Sync>(
    rt: &R,
    cell: &StatCell,
    first: StatPass,
    second: StatPass,
) -> bool
    requires first { first.cell ≡ cell.now }
    requires second { second.cell ≡ cell.now }
{
    let (first, second) = thread::join(
        rt,
        || read_all(rt, cell, first),
        || read_all(rt, cell, second),
    );
    first && second
}

/// After all writes, a pass that begins now and an earlier one show the last row.
fn both_show<R: Abort + Wait>(rt: &R, cell: &StatCell, mut pen: StatPen, mut earlier: StatPass)
    requires pen { pen.cell ≡ cell.now }
    requires earlier { earlier.cell ≡ cell.now }
{
    let mut later = pen.pass();
    shows(rt, cell, &mut later, row(WRITES));
    shows(rt, cell, &mut earlier, row(WRITES));
}

#[test]
fn no_number_falls_and_each_read_adds_up(rt: HostRuntime) {
    let (cell, mut pen, mut first) = StatCell::new(rt.alloc()).expect(&rt, "a cell");
    let second = cell.split(&mut first);
    let earlier = pen.pass();
    let (pen, good) = thread::join(
        &rt,
        || write_all(&rt, &cell, pen),
        || read_in_two(&rt, &cell, first, second),
    );
    holds(&rt, good);
    both_show(&rt, &cell, pen, earlier);
}
