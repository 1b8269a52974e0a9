//! The frames that a transmit queue sent.
ghost use Rattle.std.specs.Prelude.{◌≡◌, ◌<◌, ◌≤◌, ◌↔◌, [], length, sum_by, drop, Some, slice_get, IsTrue};
ghost use Rattle.std.specs.Iterator.{YieldsFirstRef, item_count};

use crate::arena::Arena;
use std::alloc::Global;
use std::marker::Model;

/// The frames that one transmit queue sent, in order.
#[derive(Drop)]
pub struct Wire {
    pub(crate) arena: Arena,
}

impl Model for Wire {
    ghost use Rattle.std.specs.Prelude.{◌≡◌, List, []};
    ghost use Rattle.ring_model.specs.shared.Frames.{Bytes};

    ghost Value = { List Bytes };

    ghost view = { λ w. w.arena.frames };

    ghost invariant = { λ w. w.arena.begun ≡ [] };
}

impl Wire {
    /// An empty wire. Allocates nothing.
    pub fn new(alloc: Global) -> Wire
        ensures { result ≡ [] }
    {
        Wire {
            arena: Arena::new(alloc),
        }
    }

    /// The number of frames sent.
    #[inline]
    pub fn len(&self) -> usize
        ensures { result ≡ length self.now }
    {
        self.arena.len()
    }

    /// How many frames and how many bytes fit into the memory that the wire has allocated, those sent included. It
    /// allocates more once either is used up.
    pub fn capacity(&self) -> (usize, usize)
        ensures frames { length self.now ≤ result.0 }
        ensures bytes { sum_by length self.now ≤ result.1 }
    {
        self.arena.capacity()
    }

    /// Whether no frame was sent.
    #[inline]
    pub fn is_empty(&self) -> bool
        ensures { IsTrue result ↔ (self.now ≡ []) }
    {
        self.len() == 0
    }

    /// Removes all frames. Keeps the memory, so that as many frames can be sent again without an allocation.
    pub fn clear(&mut self)
        ensures { self.new ≡ [] }
    {
        self.arena.clear();
    }

    /// The bytes of frame `i`.
    #[inline]
    pub fn frame(&self, i: usize) -> &[u8]
        requires { i < length self.now }
        ensures { slice_get self.now i ≡ Some result.now }
    {
        self.arena.frame(i)
    }

    /// Iterates over the bytes of each frame, in order.
    #[inline]
    pub fn iter(&self) -> Frames<'_>
        ensures { result ≡ self.now }
    {
        Frames {
            arena: &self.arena,
            next: 0,
        }
    }
}

/// An iterator over the bytes of each frame of a wire, in order.
#[derive(Drop)]
pub struct Frames<'a> {
    arena: &'a Arena,
    next: usize,
}

impl<'a> Model for Frames<'a> {
    ghost use Rattle.std.specs.Prelude.{◌≤◌, List, length, drop};
    ghost use Rattle.ring_model.specs.shared.Frames.{Bytes};

    ghost Value = { List Bytes };

    ghost view = { λ s. drop s.next s.arena.now.frames };

    ghost invariant = { λ s. s.next ≤ length s.arena.now.frames };
}

impl<'a> Iterator for Frames<'a> {
    type Item = &'a [u8];

    ghost next_gives = { YieldsFirstRef (λ s. s) };

    ghost remaining = { item_count (λ s. s) };

    #[inline]
    fn next(&mut self) -> Option<&'a [u8]> {
        if self.next == self.arena.len() {
            return None;
        }
        let frame = self.arena.frame(self.next);
        self.next += 1;
        Some(frame)
    }
}
