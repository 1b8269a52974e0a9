//! A pool of empty buffers, which workers take from and return to.
ghost use Rattle.std.specs.Prelude.{◌≡◌, ◌+◌, ◌<◌, ◌≤◌, ◌++◌, ◌∷◌, ◌⊎◌, [], length, Some, IfErr, IfNone, IfOk, IfSome};
ghost use Rattle.buffer_pool.specs.Buffer.{buffer};
ghost use Rattle.buffer_pool.specs.Stocked.{full_stock, Shares};
ghost use Rattle.buffer_pool.specs.declared.stash.TheConstants.{STASH_BUFFERS};
ghost use Rattle.poll82599_c.specs.Handles.{as_pool};
ghost use Rattle.poll82599_c.specs.Held.{There};
ghost use Rattle.poll82599_c.specs.Stashes.{AreBuffers};

use crate::end::End;
use crate::makings::{Unmade, boxed};
use buffer_pool::{Buf, PoolError, Stash, Stock};
use std::alloc::Global;
use std::marker::Model;

/// The most buffers of a pool.
pub(crate) const POOL_BUFFERS: usize = 65_536;

const _: () = prove!(POOL_BUFFERS == 65_536);

/// Up to `POOL_BUFFERS` empty buffers. The one that was put in last is taken first.
///
/// A contract sees a pool as the list of its numbers, the next one to be taken last. Two of its buffers may have the
/// same number, since a worker may return the buffers of another pool. Room for all buffers is allocated at the start,
/// so no other call allocates.
#[derive(Drop)]
pub struct Pool {
    pile: Vec<Buf>,
}

impl Model for Pool {
    ghost use Rattle.std.specs.Prelude.{◌≡◌, ℕ, List, vec_capacity};
    ghost use Rattle.buffer_pool.specs.Shelf.{AllReady};
    ghost use Rattle.poll82599_c.specs.batches.Packets.{numbers_of};
    ghost use Rattle.poll82599_c.specs.declared.batches.pool.TheConstants.{POOL_BUFFERS};

    ghost Value = { List ℕ };

    ghost view = { λ p. numbers_of p.pile.items };

    ghost invariant = { λ p. AllReady p.pile.items × (vec_capacity p.pile ≡ POOL_BUFFERS) };
}

impl Pool {
    /// An empty pool. Refuses if memory is refused.
    fn empty(alloc: Global) -> Result<Pool, Unmade>
        ensures made { IfOk result (λ p. p ≡ []) }
        ensures refusal { IfErr result (λ e. e ≡ Unmade.Memory) }
    {
        match Vec::with_capacity(alloc, POOL_BUFFERS) {
            Ok(pile) => Ok(Pool { pile }),
            Err(_) => Err(Unmade::Memory),
        }
    }

    /// The number of buffers in the pool.
    pub(crate) fn len(&self) -> usize
        ensures value { result ≡ length self.now }
        ensures few { result ≤ POOL_BUFFERS }
    {
        self.pile.len()
    }

    /// Takes a buffer. Returns `None` if there is none.
    fn take(&mut self) -> Option<Buf>
        ensures none { IfNone result ((self.old ≡ []) × (self.new ≡ self.old)) }
        ensures left { IfSome result (λ b. self.old ≡ self.new ++ b.number ∷ []) }
        ensures empty { IfSome result (λ b. b ≡ buffer b.number []) }
    {
        self.pile.pop()
    }

    /// Puts an empty buffer into a pool that has room for it.
    fn put(&mut self, buf: Buf)
        requires room { length self.old < POOL_BUFFERS }
        requires empty { buf ≡ buffer buf.number [] }
        ensures { self.new ≡ self.old ++ buf.number ∷ [] }
    {
        self.pile.push_reserved(buf);
    }

    /// Moves `count` buffers to a stash that has room for them.
    pub(crate) fn give(&mut self, stash: &mut Stash, count: usize)
        requires enough { count ≤ length self.old }
        requires room { length stash.old + count ≤ STASH_BUFFERS }
        ensures kept { self.new ++ stash.new ≡ self.old ++ stash.old }
        ensures came { length stash.new ≡ length stash.old + count }
    {
        let mut left = count;
        while 0 < left {
            let Some(buf) = self.take() else {
                unreachable!()
            };
            stash.push(buf);
            left -= 1;
        }
    }

    /// Takes `count` buffers out of a stash. The pool has room for them.
    pub(crate) fn receive(&mut self, stash: &mut Stash, count: usize)
        requires enough { count ≤ length stash.old }
        requires room { length self.old + count ≤ POOL_BUFFERS }
        ensures kept { self.new ++ stash.new ≡ self.old ++ stash.old }
        ensures left { length stash.old ≡ length stash.new + count }
    {
        let mut left = count;
        while 0 < left {
            let Some(buf) = stash.take() else {
                unreachable!()
            };
            self.put(buf);
            left -= 1;
        }
    }
}

/// Makes a pool of `buffers` empty buffers. Refuses if `buffers` is not 16 to 65,536, or memory is refused.
pub(crate) fn fresh_pool(alloc: Global, buffers: u32) -> Result<Box<End>, Unmade>
    ensures made { IfOk result (λ p. There (AreBuffers buffers) (as_pool (Some p.value))) }
    ensures refusals { IfErr result (λ e. (e ≡ Unmade.Buffers) ⊎ (e ≡ Unmade.Memory)) }
    ensures buffers { IfErr result (λ e. e ≡ Unmade.Buffers → (buffers < 16) ⊎ (65536 < buffers)) }
{
    boxed(alloc, End::Pool(pool_of(alloc, buffers)?))
}

/// Makes a pool of `buffers` empty buffers, numbered from 0.
fn pool_of(alloc: Global, buffers: u32) -> Result<Pool, Unmade>
    ensures made { IfOk result (λ p. AreBuffers buffers p) }
    ensures refusals { IfErr result (λ e. (e ≡ Unmade.Buffers) ⊎ (e ≡ Unmade.Memory)) }
    ensures buffers { IfErr result (λ e. e ≡ Unmade.Buffers → (buffers < 16) ⊎ (65536 < buffers)) }
{
    let mut stock = stock_of(alloc, buffers)?;
    let mut pool = Pool::empty(alloc)?;
    while let Some(buf) = stock.take() {
        pool.put(buf);
    }
    Ok(pool)
}

/// Makes a stock of `buffers` buffers, numbered from 0.
fn stock_of(alloc: Global, buffers: u32) -> Result<Stock, Unmade>
    ensures full { IfOk result (λ s. s ≡ full_stock 0 buffers) }
    ensures shared { IfOk result (λ s. Shares s []) }
    ensures few { IfOk result (λ _. buffers ≤ 65536) }
    ensures refusals { IfErr result (λ e. (e ≡ Unmade.Buffers) ⊎ (e ≡ Unmade.Memory)) }
    ensures buffers { IfErr result (λ e. e ≡ Unmade.Buffers → (buffers < 16) ⊎ (65536 < buffers)) }
{
    match Stock::new(alloc, 0, buffers) {
        Ok(stock) => Ok(stock),
        Err(PoolError::Count) => Err(Unmade::Buffers),
        Err(_) => Err(Unmade::Memory),
    }
}
