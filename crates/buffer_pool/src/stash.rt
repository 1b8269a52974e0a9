//! The empty buffers that a worker has at hand.
ghost use Rattle.std.specs.Prelude.{◌≡◌, ◌<◌, ◌≤◌, ◌↔◌, ℕ, [], ◌∷◌, length, IsTrue, IsErr, IsNone, IfNone, IfSome, IfErr, OnOk, OnErr};
ghost use Rattle.buffer_pool.specs.Buffer.{buffer};
ghost use Rattle.refusals.specs.declared.errors.PoolError.TheVariants.{StashFull};

use crate::{Buf, PoolError};
use arrayvec::ArrayVec;
use limits::BUFFER_BYTES;
use std::marker::Model;

/// The maximum number of buffers of a stash.
pub const STASH_BUFFERS: usize = 256;

const _: () = prove!(STASH_BUFFERS == 256);

/// Up to `STASH_BUFFERS` empty buffers, for one worker.
///
/// A worker takes buffers from its stash and puts them back, and uses the shared pool only if the stash is empty or
/// full. The buffer that was put in last is taken first, since its bytes may still be in a cache. A contract sees a
/// stash as the list of its numbers, the next one to be taken first. No call allocates.
#[derive(Drop)]
pub struct Stash {
    bufs: ArrayVec<Buf, STASH_BUFFERS>,
}

impl Model for Stash {
    ghost use Rattle.std.specs.Prelude.{List, ℕ};
    ghost use Rattle.buffer_pool.specs.Shelf.{numbers_of, AllReady};

    ghost Value = { List ℕ };

    ghost view = { λ s. numbers_of s.bufs.items };

    ghost invariant = { λ s. AllReady s.bufs.items };
}

impl Stash {
    /// An empty stash.
    pub fn new() -> Self
        ensures { result ≡ [] }
    {
        Stash {
            bufs: ArrayVec::new(),
        }
    }

    /// The number of buffers in the stash.
    #[inline]
    pub fn len(&self) -> usize
        ensures value { result ≡ length self.now }
        ensures few { result ≤ STASH_BUFFERS }
    {
        self.bufs.len()
    }

    /// Whether the stash has no buffer.
    #[inline]
    pub fn is_empty(&self) -> bool
        ensures { IsTrue result ↔ (self.now ≡ []) }
    {
        self.bufs.is_empty()
    }

    /// Whether no further buffer fits.
    #[inline]
    pub fn is_full(&self) -> bool
        ensures value { IsTrue result ↔ (length self.now ≡ STASH_BUFFERS) }
        ensures few { length self.now ≤ STASH_BUFFERS }
    {
        self.bufs.is_full()
    }

    /// Takes a buffer. Returns `None` if the stash is empty.
    #[inline]
    pub fn take(&mut self) -> Option<Buf>
        ensures none { IsNone result ↔ (self.old ≡ []) }
        ensures unchanged { IfNone result (self.new ≡ self.old) }
        ensures left { IfSome result (λ b. self.old ≡ b.number ∷ self.new) }
        ensures empty { IfSome result (λ b. b ≡ buffer b.number []) }
    {
        self.bufs.pop()
    }

    /// Empties a buffer and puts it in. If the stash is full, returns `PoolError::StashFull` with the unchanged buffer.
    #[inline]
    pub fn put(&mut self, buf: Buf) -> Result<(), (PoolError, Buf)>
        requires real { buf.capacity ≡ BUFFER_BYTES }
        ensures refused { IsErr result ↔ (length self.old ≡ STASH_BUFFERS) }
        ensures kept { OnOk result (self.new ≡ buf.number ∷ self.old) }
        ensures unchanged { OnErr result (self.new ≡ self.old) }
        ensures handed_back { IfErr result (λ e. (e.0 ≡ StashFull) × (e.1 ≡ buf)) }
    {
        if self.bufs.is_full() {
            return Err((PoolError::StashFull, buf));
        }
        self.push(buf);
        Ok(())
    }

    /// Empties a buffer and puts it into a stash that is not full. If that is not known, use `put`.
    #[inline]
    pub fn push(&mut self, mut buf: Buf)
        requires room { length self.old < STASH_BUFFERS }
        requires real { buf.capacity ≡ BUFFER_BYTES }
        ensures { self.new ≡ buf.number ∷ self.old }
    {
        buf.clear();
        self.bufs.push(buf);
    }
}

impl Default for Stash {
    ghost is_default = { λ s. s ≡ [] };

    fn default() -> Stash {
        Stash::new()
    }
}
