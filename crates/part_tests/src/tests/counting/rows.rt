//! A written moment is read back, inconsistent numbers are recognized, and memory may be refused.
ghost use Rattle.std.specs.Prelude.{◌≡◌};
ghost use Rattle.counters.specs.Snapshots.{NoneFalls};

use crate::tests::wanted::{holds, same};
use counters::{
    ByteCell, Bytes, CounterError, DRIVEN_NUMBERS, Driven, FlowCells, RegisterReader,
    RegisterWriter, Snapshot, SnapshotCell, SnapshotPass, TALLY_NUMBERS, Tally,
};
use std::alloc::Global;
use std::fmt::Debug;
use std::process::Abort;
use std::sync::Wait;

/// The next read of this pass shows these numbers.
pub fn shows<R: Abort + Wait, T: Snapshot<N> + PartialEq + Debug, const N: usize>(
    rt: &R,
    cell: &SnapshotCell<T, N>,
    pass: &mut SnapshotPass<T>,
    numbers: T,
)
    requires own { pass.old.cell ≡ cell.now }
    ensures own { pass.new.cell ≡ pass.old.cell }
{
    same(rt, cell.read(rt, pass), numbers);
}

/// A pass shows the opening first and then the written numbers. A pass that begins afterwards shows the latter.
fn what_is_written_is_read<R: Abort + Wait, T: Snapshot<N> + PartialEq + Debug, const N: usize>(
    rt: &R,
    alloc: Global,
    numbers: T,
)
    requires lawful { T.lawful numbers }
    requires none_falls { NoneFalls (T.words T.opening) (T.words numbers) }
{
    let (cell, mut pen, mut told_before) = SnapshotCell::<T, N>::new(alloc).expect(rt, "a cell");
    shows(rt, &cell, &mut told_before, T::opening());
    same(rt, cell.last(rt, &mut pen), T::opening());
    cell.write(rt, &mut pen, numbers);
    same(rt, cell.last(rt, &mut pen), numbers);
    let mut told_after = pen.pass();
    shows(rt, &cell, &mut told_after, numbers);
    shows(rt, &cell, &mut told_before, numbers);
}

const OFFERED: Tally = Tally {
    offered: 8,
    stored: 7,
    dropped: 1,
    oversize: 0,
};

const DRIVEN: Driven = Driven {
    taken: 8,
    posted: 7,
    tx_dropped: 0,
};

const BYTES: Bytes = Bytes {
    frames: 2,
    bytes: 15_014,
};

#[test]
fn what_was_offered_is_read(rt: HostRuntime) {
    what_is_written_is_read::<HostRuntime, Tally, TALLY_NUMBERS>(&rt, rt.alloc(), OFFERED);
}

#[test]
fn what_was_driven_is_read(rt: HostRuntime) {
    what_is_written_is_read::<HostRuntime, Driven, DRIVEN_NUMBERS>(&rt, rt.alloc(), DRIVEN);
}

#[test]
fn frames_and_bytes_are_read(rt: HostRuntime) {
    what_is_written_is_read::<HostRuntime, Bytes, 2>(&rt, rt.alloc(), BYTES);
}

fn can_be(frames: u64, bytes: u64) -> bool {
    Bytes { frames, bytes }.is_lawful()
}

fn adds_up(offered: u64, stored: u64, dropped: u64, oversize: u64) -> bool {
    Tally {
        offered,
        stored,
        dropped,
        oversize,
    }
    .is_lawful()
}

fn was_taken(taken: u64, posted: u64, tx_dropped: u64) -> bool {
    Driven {
        taken,
        posted,
        tx_dropped,
    }
    .is_lawful()
}

#[test]
fn numbers_that_fit_are_told(rt: HostRuntime) {
    holds(&rt, can_be(0, 0) && can_be(2, 28) && can_be(2, 30_000));
    holds(&rt, !can_be(0, 1) && !can_be(2, 27) && !can_be(2, 30_001));
    holds(&rt, !can_be(u64::MAX, u64::MAX));
    holds(
        &rt,
        adds_up(8, 7, 1, 0) && !adds_up(8, 7, 0, 0) && !adds_up(0, u64::MAX, 1, 0),
    );
    holds(&rt, was_taken(8, 7, 1) && was_taken(8, 0, 0));
    holds(&rt, !was_taken(8, 7, 2) && !was_taken(0, 0, 1));
}

fn is_of_memory(refused: CounterError) -> bool {
    refused == CounterError::Memory && refused.number() == 61
}

// Whether it is made, or memory is refused.
fn is_made<T: Drop>(made: Result<T, CounterError>) -> bool {
    match made {
        Ok(_) => true,
        Err(refused) => is_of_memory(refused),
    }
}

// Whether the cells and pens of two flows are made, or memory is refused.
fn are_two_or_of_memory(alloc: Global) -> bool {
    match FlowCells::of(alloc, 2) {
        Ok((cells, pens)) => cells.len() == 2 && pens.len() == 2,
        Err(refused) => is_of_memory(refused),
    }
}

// A reader of two registers.
fn registers(alloc: Global) -> Result<RegisterReader, CounterError> {
    let mut writer = RegisterWriter::new(alloc, 2)?;
    writer.reader()
}

// Also passes if any one allocation is refused, as by `rt try --test --fail-alloc N`.
#[test]
fn want_of_memory(rt: HostRuntime) {
    holds(&rt, are_two_or_of_memory(rt.alloc()));
    holds(&rt, is_made(ByteCell::new(rt.alloc())));
    holds(&rt, is_made(registers(rt.alloc())));
}
