//! A pool, and taking and returning single buffers.
ghost use Rattle.std.specs.Prelude.{◌≡◌, ◌<◌, ◌⊎◌, ◌↔◌, ℕ, List, [], ◌∷◌, IsPermutation, IfOk, IfErr, OnOk, OnErr, IsErrOf, Contains};
ghost use Rattle.crossbeam_queue.specs.Passes.{view, IsPassOf, IsSamePass, ruled_capacity};
ghost use Rattle.buffer_pool.specs.Buffer.{buffer};
ghost use Rattle.buffer_pool.specs.Stocked.{full_stock};
ghost use Rattle.refusals.specs.declared.errors.PoolError.TheVariants.{Empty};
ghost use Rattle.pool.specs.Hands.{fresh_hand, Took, Gave, Knows, Accounts, WasDry};
ghost use Rattle.pool.specs.Owned.{IsOf};

use crate::hand::{Adds, GivesBuffer, Hand, Sharing, TakesBuffer};
use buffer_pool::{Buf, PoolError, Stock};
use crossbeam_queue::{Pass, RuledArrayQueue};
use limits::{BUFFER_BYTES, FEWEST_BUFFERS, MOST_BUFFERS};
use std::alloc::Global;
use std::marker::Model;
use std::sync::Wait;

/// The queue of the buffers that are in a pool.
pub(crate) type BufferQueue = RuledArrayQueue<Buf, Hand, Sharing>;

/// The empty buffers that no pass holds, in the order in which they are taken. Threads share it.
#[derive(Drop)]
pub struct Pool {
    pub(crate) queue: BufferQueue,
}

impl Model for Pool {
    ghost use Rattle.crossbeam_queue.specs.Passes.{ruled_capacity};
    ghost use Rattle.pool.specs.Owned.{Pooled};

    ghost Value = { Pooled };

    ghost view = { λ p. record { id = p.queue.table.shared.table_id; count = ruled_capacity p.queue } };
}

/// A worker's right to take and return buffers of a pool. A buffer is returned by the pass that took it, or by the one
/// into which that pass was joined.
#[derive(Drop)]
pub struct PoolPass {
    pub(crate) pass: Pass<Buf, Hand>,
}

impl Model for PoolPass {
    ghost use Rattle.crossbeam_queue.specs.Passes.{view as view_of};
    ghost use Rattle.pool.specs.Owned.{Passed, IsIdle};

    ghost Value = { Passed };

    ghost view = { λ p. record { pool = p.pass.table_id; hand = view_of p.pass } };

    ghost invariant = { λ p. IsIdle p.pass };
}

impl PoolPass {
    /// States the invariant of a pass: it holds numbers of the pool, each once, and if it knows the pool's content,
    /// both together are the whole pool. It does nothing at run time.
    #[inline]
    pub fn accounts(&self)
        ensures { Accounts self.now.hand }
    {
        let _pass = &self.pass;
    }
}

impl Pool {
    /// A pool of the buffers `0` to `count - 1`, which are taken in this order, and its only pass.
    ///
    /// Returns `PoolError::Count` if `count` is not `FEWEST_BUFFERS` to `MOST_BUFFERS`, and `PoolError::Memory` only if
    /// memory was refused.
    pub fn new<R: Wait>(rt: &R, alloc: Global, count: u32) -> Result<(Pool, PoolPass), PoolError>
        ensures refused { IsErrOf result PoolError.Count ↔ ((count < FEWEST_BUFFERS) ⊎ (MOST_BUFFERS < count)) }
        ensures refusals { IfErr result (λ e. (e ≡ PoolError.Count) ⊎ (e ≡ PoolError.Memory)) }
        ensures count { IfOk result (λ made. made.0.count ≡ count) }
        ensures pass { IfOk result (λ made. made.1 ≡ record { pool = made.0.id; hand = fresh_hand count }) }
        ensures accounts { IfOk result (λ made. Accounts made.1.hand) }
    {
        let stock = Stock::new(alloc, 0, count)?;
        let (queue, mut pass) = BufferQueue::ruled(alloc, count as usize)?;
        fill(rt, &queue, &mut pass, stock);
        Ok((Pool { queue }, PoolPass { pass }))
    }

    /// How many buffers belong to the pool.
    pub fn count(&self) -> usize
        ensures { result ≡ self.now.count }
    {
        self.queue.capacity()
    }

    /// Takes the buffer that has been in the pool longest. Returns `PoolError::Empty` only if the pool was empty at a
    /// moment of the call.
    pub fn take<R: Wait>(&self, rt: &R, pass: &mut PoolPass) -> Result<Buf, PoolError>
        requires { IsOf self.now pass.old }
        ensures empty { IfErr result (λ e. (e ≡ Empty) × (pass.new ≡ pass.old)) }
        ensures dry { OnErr result (WasDry pass.old.hand) }
        ensures ready { IfOk result (λ b. b ≡ buffer b.number []) }
        ensures taken { IfOk result (λ b. Took pass.old.hand (b.number ∷ []) pass.new.hand) }
        ensures knows { OnOk result (Knows pass.new.hand) }
        ensures pool { IsOf self.now pass.new }
        ensures accounts { Accounts pass.new.hand }
    {
        match self.queue.pop_as::<TakesBuffer, R>(rt, &mut pass.pass) {
            Some(buf) => Ok(buf),
            None => Err(PoolError::Empty),
        }
    }

    /// Empties a buffer that the pass holds and returns it to the pool, which always has room.
    pub fn give<R: Wait>(&self, rt: &R, pass: &mut PoolPass, mut buf: Buf)
        requires pool { IsOf self.now pass.old }
        requires held { Contains pass.old.hand.held buf.number }
        requires real { buf.capacity ≡ BUFFER_BYTES }
        ensures given { Gave pass.old.hand (buf.number ∷ []) pass.new.hand }
        ensures left { (rest : List ℕ) → IsPermutation pass.old.hand.held (buf.number ∷ rest) → IsPermutation pass.new.hand.held rest }
        ensures knows { Knows pass.new.hand }
        ensures pool { IsOf self.now pass.new }
        ensures accounts { Accounts pass.new.hand }
    {
        buf.clear();
        match self
            .queue
            .push_as::<GivesBuffer, R>(rt, &mut pass.pass, buf)
        {
            Ok(()) => {}
            Err(_) => unreachable!(),
        }
    }
}

/// Puts the buffers of a full stock into an empty queue. No one else has the queue yet, so each push is its next step,
/// and finds room.
fn fill<R: Wait>(rt: &R, queue: &BufferQueue, pass: &mut Pass<Buf, Hand>, mut stock: Stock)
    requires queue { IsPassOf queue.now pass.old }
    requires room { ruled_capacity queue.now ≡ stock.count }
    requires stock { stock ≡ full_stock 0 stock.count }
    requires fresh { view pass.old ≡ fresh_hand 0 }
    ensures queue { IsSamePass pass.old pass.new }
    ensures filled { view pass.new ≡ fresh_hand stock.count }
{
    while let Some(buf) = stock.take() {
        match queue.push_as::<Adds, R>(rt, pass, buf) {
            Ok(()) => {}
            Err(_) => unreachable!(),
        }
    }
}
