//! A stock of buffers.
ghost use Rattle.std.specs.Prelude.{◌≡◌, ◌+◌, ◌<◌, ◌≤◌, ◌↔◌, ◌⊎◌, ℕ, List, [], ◌∷◌, length, vec_capacity, IsTrue, IsNone, IfNone, IfSome, IfOk, IfErr, IsErrOf};
ghost use Rattle.std.specs.List.{range_with_len};
ghost use Rattle.buffer_pool.specs.Buffer.{buffer};
ghost use Rattle.buffer_pool.specs.Shelf.{numbers_of, AllReady};
ghost use Rattle.buffer_pool.specs.Stocked.{full_stock, with_number, IsStock, IsOut, Shares};

use crate::{Buf, PoolError};
use limits::{BUFFER_BYTES, FEWEST_BUFFERS, MOST_BUFFERS};
use std::alloc::{AllocError, Global};
use std::marker::Model;

/// The buffers with the numbers of one range, except those that are out.
///
/// The buffer that was returned last is handed out first, since its bytes may still be in a cache.
#[derive(Drop)]
pub struct Stock {
    first: u32,
    count: u32,
    pile: Vec<Buf>,
}

impl Model for Stock {
    ghost use Rattle.buffer_pool.specs.Stocked.{Stocked};

    ghost Value = { Stocked };

    ghost use Rattle.buffer_pool.specs.Held.{stocked, IsHeld};

    ghost view = { stocked };

    ghost invariant = { IsHeld };
}

impl Stock {
    /// A full stock of the buffers `first` to `first + count - 1`, which are handed out in this order.
    ///
    /// Returns `Count` if `count` is below `FEWEST_BUFFERS` or a number is above 65,535. Returns `Memory` if there is
    /// no memory for all buffers; none is kept then.
    pub fn new(alloc: Global, first: u32, count: u32) -> Result<Self, PoolError>
        ensures refused { IsErrOf result PoolError.Count ↔ ((count < FEWEST_BUFFERS) ⊎ (MOST_BUFFERS < first + count)) }
        ensures refusals { IfErr result (λ e. (e ≡ PoolError.Count) ⊎ (e ≡ PoolError.Memory)) }
        ensures full { IfOk result (λ s. s ≡ full_stock first count) }
        ensures shared { IfOk result (λ s. Shares s []) }
    {
        if count < FEWEST_BUFFERS || first > MOST_BUFFERS || count > MOST_BUFFERS - first {
            return Err(PoolError::Count);
        }
        let pile = new_pile(alloc, first, count)?;
        Ok(Stock { first, count, pile })
    }

    /// The number of buffers in the stock.
    pub fn len(&self) -> usize
        ensures value { result ≡ length self.now.numbers }
        ensures each_once { IsStock self.now }
    {
        self.pile.len()
    }

    /// Whether all buffers are out.
    pub fn is_empty(&self) -> bool
        ensures { IsTrue result ↔ (self.now.numbers ≡ []) }
    {
        self.pile.is_empty()
    }

    /// Hands out an empty buffer. Returns `None` if all are out. Allocates nothing.
    pub fn take(&mut self) -> Option<Buf>
        ensures none { IsNone result ↔ (self.old.numbers ≡ []) }
        ensures unchanged { IfNone result (self.new ≡ self.old) }
        ensures left { IfSome result (λ b. self.old ≡ with_number self.new b.number) }
        ensures empty { IfSome result (λ b. b ≡ buffer b.number []) }
        ensures out { IfSome result (λ b. IsOut self.new b.number) }
        ensures shared { IfSome result (λ b. (out : List ℕ) → Shares self.old out
            → Shares self.new (b.number ∷ out)) }
    {
        self.pile.pop()
    }

    /// Takes back a buffer of this stock, and empties it. Allocates nothing.
    pub fn give(&mut self, mut buf: Buf)
        requires real { buf.capacity ≡ BUFFER_BYTES }
        requires out { IsOut self.old buf.number }
        ensures back { self.new ≡ with_number self.old buf.number }
        ensures shared { (out : List ℕ) → Shares self.old (buf.number ∷ out) → Shares self.new out }
    {
        buf.clear();
        self.pile.push_reserved(buf);
    }
}

/// The buffers `first` to `first + count - 1`, each on top of the next.
fn new_pile(alloc: Global, first: u32, count: u32) -> Result<Vec<Buf>, AllocError>
    requires { first + count ≤ MOST_BUFFERS }
    ensures numbers { IfOk result (λ pile. numbers_of pile.items ≡ range_with_len first count) }
    ensures ready { IfOk result (λ pile. AllReady pile.items) }
    ensures room { IfOk result (λ pile. vec_capacity pile ≡ count) }
{
    let mut pile = Vec::with_capacity(alloc, count as usize)?;
    for number in (first..first + count).rev() {
        pile.push_reserved(Buf::new(alloc, number as u16)?);
    }
    Ok(pile)
}
