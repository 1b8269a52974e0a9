//! The rule of the words, the knowledge that each step gives, and that each step keeps the rule.
ghost use Rattle.std.specs.Prelude.{◌≡◌, true, [], ◌∷◌};
ghost use Rattle.crossbeam_utils.specs.Register.{Forks, Turns};
ghost use Rattle.crossbeam_utils.specs.Seq.{cell_view};
ghost use Rattle.counters.specs.Snapshots.{NoneFalls};
ghost use Rattle.counters.specs.Rule.{HoldsSeqCellRule, HasRead, HasWritten, opened, same, told};

use crate::Snapshot;
use atomic_table::Split;
use crossbeam_utils::atomic::seq_cell::Pass;
use crossbeam_utils::rule::{Outcome, Protocol};
use std::collections::LinkedList;

/// The knowledge of a view, for contracts alone; no value of it exists at run time.
pub struct CellKnowledge<T> {
    /// Whether the view writes.
    pub writes: bool,
    /// The newest moment that it knows.
    pub last: T,
    /// The moments before that, the newest first.
    pub earlier: LinkedList<T>,
}

/// The rule of the words: the moments that were written, in this order, each lawful and with no number that falls. The
/// words hold the newest one, the view that writes knows them all, and each other view knows them up to one of them.
pub struct SeqCellRule<const N: usize>;

impl<T: Snapshot<N>, const N: usize> Protocol<T, CellKnowledge<T>> for SeqCellRule<N> {
    ghost use Rattle.counters.specs.Rule.{HoldsSeqCellRule, opened};

    ghost holds = { HoldsSeqCellRule T.words T.lawful };

    ghost first = { opened T.opening };
}

/// A view reads.
pub(crate) struct Reads<const N: usize>;

impl<T: Snapshot<N>, const N: usize> Outcome<T, CellKnowledge<T>> for Reads<N> {
    ghost use Rattle.counters.specs.Rule.{HasRead};

    ghost then = { HasRead T.words T.lawful };
}

/// The view that writes does so.
pub(crate) struct Writes<const N: usize>;

impl<T: Snapshot<N>, const N: usize> Outcome<T, CellKnowledge<T>> for Writes<N> {
    ghost use Rattle.counters.specs.Rule.{HasWritten};

    ghost then = { HasWritten T.words T.lawful };
}

/// A view splits off another.
pub(crate) struct Tells;

impl<T> Split<CellKnowledge<T>> for Tells {
    ghost use Rattle.counters.specs.Rule.{same, told};

    ghost left = { same };

    ghost right = { told };
}

// These four functions do nothing: their clauses state that a step keeps the rule. The call that makes the step takes
// this as a known fact, and needs no answers of its own, which the prover would state slowly there.

/// The rule holds of new words.
pub(crate) fn may_open<T: Snapshot<N>, const N: usize>(now: T)
    requires opening { now ≡ T.opening }
    requires lawful { T.lawful now }
    ensures { HoldsSeqCellRule T.words T.lawful now (opened T.opening ∷ []) }
{}

/// Any view may read.
pub(crate) fn may_read<T: Snapshot<N>, const N: usize>(pass: &Pass<T, CellKnowledge<T>>)
    ensures { Turns (HoldsSeqCellRule T.words T.lawful) pass.now.id (cell_view pass.now) (λ x. x) (HasRead T.words T.lawful) }
{}

/// The view that writes may write lawful numbers, none of them below the last one that it wrote.
pub(crate) fn may_write<T: Snapshot<N>, const N: usize>(
    pass: &Pass<T, CellKnowledge<T>>,
    numbers: T,
)
    requires writes { (cell_view pass.now).writes ≡ true }
    requires lawful { T.lawful numbers }
    requires none_falls { NoneFalls (T.words (cell_view pass.now).last) (T.words numbers) }
    ensures { Turns (HoldsSeqCellRule T.words T.lawful) pass.now.id (cell_view pass.now) (λ _. numbers) (HasWritten T.words T.lawful) }
{}

/// Any view may split off another.
pub(crate) fn may_tell<T: Snapshot<N>, const N: usize>(pass: &Pass<T, CellKnowledge<T>>)
    ensures { Forks (HoldsSeqCellRule T.words T.lawful) pass.now.id (cell_view pass.now) (same (cell_view pass.now)) (told (cell_view pass.now)) }
{}
