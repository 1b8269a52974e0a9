//! Registers: counters that one thread writes and others read, one at a time. No call waits.
ghost use Rattle.std.specs.Prelude.{◌≡◌, ◌⊎◌, ◌<◌, ◌≤◌, true, false, slice_index, slice_set, IfErr, IfNone, IfOk, IfSome};
ghost use Rattle.refusals.specs.declared.errors.CounterError.TheVariants.{Memory};
ghost use Rattle.counters.specs.Cells as cell;
ghost use Rattle.counters.specs.Registers.{zeros};
ghost use Rattle.counters.specs.Snapshots.{GoesOn, NoneFalls};
ghost use Rattle.counters.specs.Viewed.{all_of, first_view, IsOfSame, with_snapshot, without_writing};

use crate::CounterError;
use crate::rule::{CellKnowledge, Tells};
use atomic_table::{Play, Seat, Table, TableRule};
use std::alloc::{AllocError, Global};
use std::collections::LinkedList;
use std::marker::Model;
use std::sync::Arc;

/// The rule of the words: there are as many as the key says, and what they hold together is a moment that was written.
struct RegisterRule;

impl TableRule<(), CellKnowledge<LinkedList<u64>>, usize> for RegisterRule {
    ghost use Rattle.counters.specs.Registers.{HoldsRegisters, zeros};
    ghost use Rattle.counters.specs.Rule.{opened};

    ghost holds = { HoldsRegisters };

    ghost first = { λ count. opened (zeros count) };
}

/// A seat loads a register.
struct Loads;

impl Play<(), CellKnowledge<LinkedList<u64>>> for Loads {
    ghost use Rattle.counters.specs.Registers.{loaded};

    ghost then = { loaded };
}

/// The seat that writes stores a register.
struct Stores;

impl Play<(), CellKnowledge<LinkedList<u64>>> for Stores {
    ghost use Rattle.counters.specs.Registers.{stored};

    ghost then = { stored };
}

type RegisterTable = Table<(), CellKnowledge<LinkedList<u64>>, usize, RegisterRule, Global>;

/// The registers, and the knowledge of one side about them.
#[derive(Drop)]
struct RegisterSide {
    table: Arc<RegisterTable, Global>,
    seat: Seat<(), CellKnowledge<LinkedList<u64>>>,
}

/// Writes registers. There is one writer for each set of registers.
///
/// A contract sees the writer and each reader as the moments that it knows, the newest first. A moment is the contents
/// of all registers between two writes.
#[derive(Drop)]
pub struct RegisterWriter {
    side: RegisterSide,
}

/// Reads registers that a writer may be writing in another thread.
#[derive(Drop)]
pub struct RegisterReader {
    side: RegisterSide,
}

impl Model for RegisterSide {
    ghost use Rattle.std.specs.Prelude.{ℕ, List};
    ghost use Rattle.std.specs.Arc.{arc_value};
    ghost use Rattle.counters.specs.Registers.{IsSeated};
    ghost use Rattle.counters.specs.Viewed.{Viewed, viewed};

    ghost Value = { Viewed (List ℕ) };

    ghost view = { λ s. viewed s.seat.table_id s.seat.me.0 };

    ghost invariant = { λ s. IsSeated (arc_value s.table).shared.table_id (arc_value s.table).shared.key s.seat.table_id s.seat.me };
}

impl Model for RegisterWriter {
    ghost use Rattle.std.specs.Prelude.{◌≡◌, true, ℕ, List};
    ghost use Rattle.counters.specs.Cells.{Knowing, knowing};

    ghost Value = { Knowing (List ℕ) };

    ghost view = { λ w. knowing w.side };

    ghost invariant = { λ w. w.side.writes ≡ true };
}

impl Model for RegisterReader {
    ghost use Rattle.std.specs.Prelude.{ℕ, List};
    ghost use Rattle.counters.specs.Cells.{Knowing, knowing};

    ghost Value = { Knowing (List ℕ) };

    ghost view = { λ r. knowing r.side };
}

impl RegisterSide {
    /// Makes `count` registers, all 0. Fails only if memory was refused.
    fn new(alloc: Global, count: usize) -> Result<RegisterSide, AllocError>
        requires some { 0 < count }
        ensures count { IfOk result (λ s. s.cell.words ≡ count) }
        ensures first { IfOk result (λ s. s ≡ first_view s.cell (zeros count)) }
    {
        let zeros = Vec::from_elem(alloc, 0u64, count)?;
        let (table, seat) = RegisterTable::of_words(alloc, zeros.as_slice(), &count)?;
        let table = Arc::new(alloc, table)?;
        Ok(RegisterSide { table, seat })
    }

    /// How many registers there are.
    fn count(&self) -> usize
        ensures { result ≡ self.now.cell.words }
    {
        self.table.word_count()
    }

    /// Loads a register.
    fn load(&mut self, at: usize) -> u64
        requires place { at < self.old.cell.words }
        ensures value { result ≡ slice_index self.new.last at }
        ensures own { IsOfSame self.old self.new }
        ensures later { GoesOn (all_of self.old) (all_of self.new) }
        ensures none_falls { NoneFalls self.old.last self.new.last }
        ensures knows { self.old.writes ≡ true → self.new ≡ self.old }
    {
        self.table.shared.load::<Loads>(&mut self.seat, at)
    }

    /// Stores a register. The number is not below the last one.
    fn store(&mut self, at: usize, number: u64)
        requires writes { self.old.writes ≡ true }
        requires place { at < self.old.cell.words }
        requires none_falls { slice_index self.old.last at ≤ number }
        ensures { self.new ≡ with_snapshot (slice_set self.old.last at number) self.old }
    {
        self.table
            .shared
            .store::<Stores>(&mut self.seat, at, number);
    }

    /// Another side, which knows as much and does not write.
    fn tell(&mut self) -> Result<RegisterSide, AllocError>
        ensures same { self.new ≡ self.old }
        ensures told { IfOk result (λ s. s ≡ without_writing self.old) }
    {
        let table = Arc::try_clone(&self.table)?;
        let seat = self.table.shared.split_seat::<Tells>(&mut self.seat);
        Ok(RegisterSide { table, seat })
    }
}

impl RegisterWriter {
    /// Makes `count` registers, all 0. Returns `CounterError::Memory` only if memory was refused.
    pub fn new(alloc: Global, count: usize) -> Result<RegisterWriter, CounterError>
        requires some { 0 < count }
        ensures refused { IfErr result (λ e. e ≡ Memory) }
        ensures count { IfOk result (λ w. w.cell.words ≡ count) }
        ensures zero { IfOk result (λ w. w ≡ cell.fresh w.cell (zeros count)) }
    {
        let side = RegisterSide::new(alloc, count)?;
        Ok(RegisterWriter { side })
    }

    /// Writes a register. Returns whether it did: `at` is below the number of registers, and `number` is not below the
    /// register.
    pub fn set(&mut self, at: usize, number: u64) -> bool
        ensures done { result ≡ true → (at < self.old.cell.words) × (slice_index self.old.last at ≤ number) × (self.new ≡ cell.with_snapshot (slice_set self.old.last at number) self.old) }
        ensures refused { result ≡ false → ((self.old.cell.words ≤ at) ⊎ (number < slice_index self.old.last at)) × (self.new ≡ self.old) }
    {
        if self.side.count() <= at || number < self.side.load(at) {
            return false;
        }
        self.side.store(at, number);
        true
    }

    /// A reader that knows all that this writer has written. Returns `CounterError::Memory` only if memory was refused.
    pub fn reader(&mut self) -> Result<RegisterReader, CounterError>
        ensures refused { IfErr result (λ e. e ≡ Memory) }
        ensures same { self.new ≡ self.old }
        ensures knows { IfOk result (λ r. r ≡ self.old) }
    {
        let side = self.side.tell()?;
        Ok(RegisterReader { side })
    }
}

impl RegisterReader {
    /// Reads a register: what it had at a moment no earlier than those that this reader knows. Returns `None` if `at` is
    /// not below the number of registers.
    pub fn get(&mut self, at: usize) -> Option<u64>
        ensures none { IfNone result ((self.old.cell.words ≤ at) × (self.new ≡ self.old)) }
        ensures place { IfSome result (λ _. at < self.old.cell.words) }
        ensures value { IfSome result (λ n. n ≡ slice_index self.new.last at) }
        ensures own { self.new.cell ≡ self.old.cell }
        ensures later { GoesOn (cell.all_of self.old) (cell.all_of self.new) }
        ensures none_falls { NoneFalls self.old.last self.new.last }
    {
        if self.side.count() <= at {
            return None;
        }
        Some(self.side.load(at))
    }
}
