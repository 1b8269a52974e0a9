//! A cell, the pen that writes its numbers, and the passes that read them.
ghost use Rattle.std.specs.Prelude.{◌≡◌, All, IfOk, IfErr};
ghost use Rattle.counters.specs.Snapshots.{GoesOn, NoneFalls};
ghost use Rattle.counters.specs.Cells.{fresh, with_snapshot, all_of};
ghost use Rattle.refusals.specs.declared.errors.CounterError.TheVariants.{Memory};

use crate::numbers::{CellHolder, Numbers};
use crate::{CounterError, Snapshot};
use std::alloc::Global;
use std::marker::Model;
use std::sync::{Arc, Wait};

/// Numbers that one pen writes and any number of passes read. Threads share it.
#[derive(Drop)]
pub struct SnapshotCell<T: Snapshot<N>, const N: usize> {
    numbers: Arc<Numbers<T, N>, Global>,
}

/// Writes the numbers of its cell. There is one for each cell.
#[derive(Drop)]
pub struct SnapshotPen<T: Snapshot<N>, const N: usize> {
    numbers: Arc<Numbers<T, N>, Global>,
    view: CellHolder<T>,
}

/// Reads the numbers of its cell. It has no bytes.
#[derive(Drop)]
pub struct SnapshotPass<T> {
    view: CellHolder<T>,
}

impl<T: Snapshot<N>, const N: usize> Model for SnapshotCell<T, N> {
    ghost use Rattle.std.specs.Arc.{arc_value};
    ghost use Rattle.atomic_table.specs.Seated.{TableId};

    ghost Value = { TableId };

    ghost view = { λ c. arc_value c.numbers };
}

impl<T: Snapshot<N>, const N: usize> Model for SnapshotPen<T, N> {
    ghost use Rattle.std.specs.Prelude.{◌≡◌, true};
    ghost use Rattle.std.specs.Arc.{arc_value};
    ghost use Rattle.counters.specs.Cells.{Knowing, knowing};

    ghost Value = { Knowing T };

    ghost view = { λ p. knowing p.view };

    ghost invariant = { λ p. (p.view.cell ≡ arc_value p.numbers) × (p.view.writes ≡ true) };
}

impl<T> Model for SnapshotPass<T> {
    ghost use Rattle.counters.specs.Cells.{Knowing, knowing};

    ghost Value = { Knowing T };

    ghost view = { λ p. knowing p.view };
}

impl<T: Snapshot<N>, const N: usize> SnapshotCell<T, N> {
    /// A cell whose numbers are all 0, its pen, and a pass. Returns `CounterError::Memory` only if memory was refused.
    pub fn new(alloc: Global) -> Result<(Self, SnapshotPen<T, N>, SnapshotPass<T>), CounterError>
        ensures refused { IfErr result (λ e. e ≡ Memory) }
        ensures zero { IfOk result (λ made. All (λ n. n ≡ 0) (T.words made.1.last)) }
        ensures pen { IfOk result (λ made. made.1 ≡ fresh made.0 T.opening) }
        ensures pass { IfOk result (λ made. made.2 ≡ fresh made.0 T.opening) }
    {
        let (cell, mut pen) = Self::with_pen(alloc)?;
        let pass = pen.pass();
        Ok((cell, pen, pass))
    }

    /// A cell and its pen, as `new`, without a pass; the pen makes passes at any time. Returns `CounterError::Memory`
    /// only if memory was refused.
    pub fn with_pen(alloc: Global) -> Result<(Self, SnapshotPen<T, N>), CounterError>
        ensures refused { IfErr result (λ e. e ≡ Memory) }
        ensures zero { IfOk result (λ made. All (λ n. n ≡ 0) (T.words made.1.last)) }
        ensures pen { IfOk result (λ made. made.1 ≡ fresh made.0 T.opening) }
    {
        let (numbers, theirs, view) = Numbers::<T, N>::shared(alloc)?;
        let pen = SnapshotPen {
            numbers: theirs,
            view,
        };
        Ok((SnapshotCell { numbers }, pen))
    }

    /// Writes the numbers, all at one moment. They are lawful, and none is below the last one that the pen wrote.
    pub fn write<R: Wait>(&self, rt: &R, pen: &mut SnapshotPen<T, N>, numbers: T)
        requires own { pen.old.cell ≡ self.now }
        requires lawful { T.lawful numbers }
        requires none_falls { NoneFalls (T.words pen.old.last) (T.words numbers) }
        ensures written { pen.new ≡ with_snapshot numbers pen.old }
    {
        let cell = &self.numbers;
        cell.write(rt, &mut pen.view, numbers);
    }

    /// Reads the numbers of one moment: a write of the pen, or the opening.
    pub fn read<R: Wait>(&self, rt: &R, pass: &mut SnapshotPass<T>) -> T
        requires own { pass.old.cell ≡ self.now }
        ensures own { pass.new.cell ≡ pass.old.cell }
        ensures snapshot { result ≡ pass.new.last }
        ensures later { GoesOn (all_of pass.old) (all_of pass.new) }
        ensures lawful { T.lawful result }
        ensures none_falls { NoneFalls (T.words pass.old.last) (T.words result) }
    {
        self.numbers.read(rt, &mut pass.view)
    }

    /// Reads the numbers that the pen wrote last, or those of the opening.
    pub fn last<R: Wait>(&self, rt: &R, pen: &mut SnapshotPen<T, N>) -> T
        requires own { pen.old.cell ≡ self.now }
        ensures same { pen.new ≡ pen.old }
        ensures value { result ≡ pen.old.last }
        ensures lawful { T.lawful result }
    {
        self.numbers.read(rt, &mut pen.view)
    }

    /// Another pass, which knows what this one has read. Either may move to another thread.
    pub fn split(&self, pass: &mut SnapshotPass<T>) -> SnapshotPass<T>
        requires own { pass.old.cell ≡ self.now }
        ensures same { pass.new ≡ pass.old }
        ensures knows { result ≡ pass.old }
    {
        SnapshotPass {
            view: self.numbers.tell(&mut pass.view),
        }
    }
}

impl<T: Snapshot<N>, const N: usize> SnapshotPen<T, N> {
    /// A pass that knows all that this pen has written: no number that it reads is below the pen's last.
    pub fn pass(&mut self) -> SnapshotPass<T>
        ensures same { self.new ≡ self.old }
        ensures knows { result ≡ self.old }
    {
        SnapshotPass {
            view: self.numbers.tell(&mut self.view),
        }
    }
}
