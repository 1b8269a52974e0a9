//! The numbers, and the views that write and read them.
ghost use Rattle.std.specs.Prelude.{◌≡◌, true, All, IfOk};
ghost use Rattle.std.specs.Arc.{arc_value};
ghost use Rattle.counters.specs.Snapshots.{GoesOn, NoneFalls};
ghost use Rattle.counters.specs.Viewed.{all_of, first_view, IsOfSame, with_snapshot, without_writing};

use crate::Snapshot;
use crate::rule::{
    CellKnowledge, Reads, SeqCellRule, Tells, Writes, may_open, may_read, may_tell, may_write,
};
use crossbeam_utils::atomic::seq_cell::{Pass, RuledSeqCell};
use std::alloc::{AllocError, Global};
use std::marker::Model;
use std::sync::{Arc, Wait};

/// The words, under their rule.
type Ruled<T, const N: usize> = RuledSeqCell<T, CellKnowledge<T>, SeqCellRule<N>, N>;

/// The numbers of the newest moment, as words that threads share.
#[derive(Drop)]
pub struct Numbers<T: Snapshot<N>, const N: usize> {
    words: Ruled<T, N>,
}

/// The knowledge of one holder about the numbers. It has no bytes.
#[derive(Drop)]
pub struct CellHolder<T> {
    pass: Pass<T, CellKnowledge<T>>,
}

impl<T: Snapshot<N>, const N: usize> Model for Numbers<T, N> {
    ghost use Rattle.atomic_table.specs.Seated.{TableId};

    ghost Value = { TableId };

    ghost view = { λ n. n.words.table.shared.table_id };
}

impl<T> Model for CellHolder<T> {
    ghost use Rattle.crossbeam_utils.specs.Seq.{cell_view};
    ghost use Rattle.counters.specs.Viewed.{Viewed, viewed};

    ghost Value = { Viewed T };

    ghost view = { λ v. viewed v.pass.table_id (cell_view v.pass) };
}

impl<T: Snapshot<N>, const N: usize> Numbers<T, N> {
    /// The numbers of the opening, which are all 0, for two owners in separate threads, and the one view that writes.
    /// Fails only if memory was refused.
    pub fn shared(
        alloc: Global,
    ) -> Result<(Arc<Self, Global>, Arc<Self, Global>, CellHolder<T>), AllocError>
        ensures zero { IfOk result (λ made. All (λ n. n ≡ 0) (T.words made.2.last)) }
        ensures first { IfOk result (λ made. made.2 ≡ first_view (arc_value made.0) T.opening) }
        ensures same { IfOk result (λ made. arc_value made.1 ≡ arc_value made.0) }
    {
        let (numbers, view) = Self::new(alloc)?;
        let ours = Arc::new(alloc, numbers)?;
        let theirs = Arc::try_clone(&ours)?;
        Ok((ours, theirs, view))
    }

    /// The numbers of the opening and the view that writes, for one owner.
    pub fn new(alloc: Global) -> Result<(Self, CellHolder<T>), AllocError>
        ensures zero { IfOk result (λ made. All (λ n. n ≡ 0) (T.words made.1.last)) }
        ensures first { IfOk result (λ made. made.1 ≡ first_view made.0 T.opening) }
    {
        let opening = T::opening();
        may_open::<T, N>(opening);
        let (words, pass) = Ruled::<T, N>::ruled(alloc, opening)?;
        Ok((Numbers { words }, CellHolder { pass }))
    }

    /// Writes the numbers, all at one moment. They are lawful, and none is below the last one written.
    pub fn write<R: Wait>(&self, rt: &R, view: &mut CellHolder<T>, numbers: T)
        requires own { view.old.cell ≡ self.now }
        requires writes { view.old.writes ≡ true }
        requires lawful { T.lawful numbers }
        requires none_falls { NoneFalls (T.words view.old.last) (T.words numbers) }
        ensures written { view.new ≡ with_snapshot numbers view.old }
    {
        may_write::<T, N>(&view.pass, numbers);
        self.words
            .swap_as::<Writes<N>, R>(rt, &mut view.pass, numbers);
    }

    /// Reads the numbers of one moment: a write, or the opening.
    pub fn read<R: Wait>(&self, rt: &R, view: &mut CellHolder<T>) -> T
        requires own { view.old.cell ≡ self.now }
        ensures own { IsOfSame view.old view.new }
        ensures snapshot { result ≡ view.new.last }
        ensures later { GoesOn (all_of view.old) (all_of view.new) }
        ensures lawful { T.lawful result }
        ensures none_falls { NoneFalls (T.words view.old.last) (T.words result) }
        ensures last { view.old.writes ≡ true → (result ≡ view.old.last) × (view.new ≡ view.old) }
    {
        may_read::<T, N>(&view.pass);
        self.words.load_as::<Reads<N>, R>(rt, &mut view.pass)
    }

    /// Another view, which knows as much and does not write. Either may move to another thread.
    pub fn tell(&self, view: &mut CellHolder<T>) -> CellHolder<T>
        requires own { view.old.cell ≡ self.now }
        ensures same { view.new ≡ view.old }
        ensures told { result ≡ without_writing view.old }
    {
        may_tell::<T, N>(&view.pass);
        CellHolder {
            pass: self.words.split_pass::<Tells>(&mut view.pass),
        }
    }
}
