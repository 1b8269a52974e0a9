//! The storage of a wire: one block with the bytes of all frames, and the end of each frame.
ghost use Rattle.std.specs.Prelude.{◌≡◌, ◌+◌, ◌-◌, ◌<◌, ◌≤◌, [], ◌∷◌, ◌++◌, length, sum_by, take, drop, Some, slice_get, OnOk};
ghost use Rattle.limits.specs.declared.profile.TheConstants.{MOST_FRAME};
ghost use Rattle.controller.specs.Laid.{frames_from, AreEnds};

use limits::MOST_FRAME;
use std::alloc::{AllocError, Global};
use std::marker::Model;

/// The least number of bytes by which the block grows. A large block grows by a quarter instead, so that frames are
/// seldom moved and the block is never much larger than its frames.
const LEAST_GROWTH: usize = MOST_FRAME + MOST_FRAME / 2;

/// The least number of entries by which the list of ends grows.
const LEAST_ENTRIES: usize = 16;

/// Frames one after another, and the bytes of an unfinished frame.
#[derive(Drop)]
pub(crate) struct Arena {
    bytes: Vec<u8>,
    ends: Vec<usize>,
}

impl Model for Arena {
    ghost use Rattle.controller.specs.Arenas.{laid, AreLaid};
    ghost use Rattle.controller.specs.Laid.{Laid};

    ghost Value = { Laid };

    ghost view = { laid };

    ghost invariant = { AreLaid };
}

impl Arena {
    /// An arena without frames. Allocates nothing.
    pub(crate) fn new(alloc: Global) -> Arena
        ensures frames { result.frames ≡ [] }
        ensures begun { result.begun ≡ [] }
    {
        Arena {
            bytes: Vec::new(alloc),
            ends: Vec::new(alloc),
        }
    }

    /// Makes room for the longest frame and its entry.
    #[inline]
    pub(crate) fn reserve(&mut self) -> Result<(), AllocError>
        ensures frames { self.new.frames ≡ self.old.frames }
        ensures begun { self.new.begun ≡ self.old.begun }
        ensures room { OnOk result (MOST_FRAME ≤ self.new.room) }
        ensures entries { OnOk result (0 < self.new.entries) }
    {
        if self.bytes.capacity() - self.bytes.len() < MOST_FRAME
            || self.ends.len() == self.ends.capacity()
        {
            return self.grow();
        }
        Ok(())
    }

    /// Grows the list of ends if it is full, and the block if it has no room for the longest frame.
    #[cold]
    #[inline(never)]
    fn grow(&mut self) -> Result<(), AllocError>
        ensures frames { self.new.frames ≡ self.old.frames }
        ensures begun { self.new.begun ≡ self.old.begun }
        ensures room { OnOk result (MOST_FRAME ≤ self.new.room) }
        ensures entries { OnOk result (0 < self.new.entries) }
    {
        if self.bytes.capacity() - self.bytes.len() < MOST_FRAME {
            let more = (self.bytes.capacity() / 4).max(LEAST_GROWTH);
            self.bytes.reserve_exact(more)?;
        }
        if self.ends.len() == self.ends.capacity() {
            let more = (self.ends.capacity() / 4).max(LEAST_ENTRIES);
            self.ends.reserve_exact(more)?;
        }
        Ok(())
    }

    /// Appends these bytes to the unfinished frame.
    #[inline]
    pub(crate) fn append(&mut self, bytes: &[u8])
        requires { length bytes.now ≤ self.old.room }
        ensures frames { self.new.frames ≡ self.old.frames }
        ensures begun { self.new.begun ≡ self.old.begun ++ bytes.now }
        ensures room { self.old.room ≤ self.new.room + length bytes.now }
        ensures entries { self.new.entries ≡ self.old.entries }
    {
        let Ok(()) = self.bytes.extend_from_slice(bytes) else {
            unreachable!()
        };
    }

    /// Ends the unfinished frame.
    #[inline]
    pub(crate) fn end_frame(&mut self)
        requires { 0 < self.old.entries }
        ensures frames { self.new.frames ≡ self.old.frames ++ self.old.begun ∷ [] }
        ensures begun { self.new.begun ≡ [] }
    {
        self.ends.push_reserved(self.bytes.len());
    }

    /// Removes all frames and the bytes of an unfinished one. Keeps the memory.
    pub(crate) fn clear(&mut self)
        ensures frames { self.new.frames ≡ [] }
        ensures begun { self.new.begun ≡ [] }
    {
        self.bytes.clear();
        self.ends.clear();
    }

    /// The number of frames.
    #[inline]
    pub(crate) fn len(&self) -> usize
        ensures { result ≡ length self.now.frames }
    {
        self.ends.as_slice().len()
    }

    /// How many entries and how many bytes fit into the memory that is allocated, used ones included.
    pub(crate) fn capacity(&self) -> (usize, usize)
        ensures entries { result.0 ≡ length self.now.frames + self.now.entries }
        ensures room { result.1 ≡ sum_by length self.now.frames + length self.now.begun + self.now.room }
    {
        (self.ends.capacity(), self.bytes.capacity())
    }

    /// Frame `i`.
    #[inline]
    pub(crate) fn frame(&self, i: usize) -> &[u8]
        requires { i < length self.now.frames }
        ensures { slice_get self.now.frames i ≡ Some result.now }
    {
        let (start, end) = bounds(self.bytes.as_slice(), self.ends.as_slice(), i);
        &self.bytes.as_slice()[start..end]
    }
}

/// The offsets at which frame `i` begins and ends.
#[inline]
fn bounds(bytes: &[u8], ends: &[usize], i: usize) -> (usize, usize)
    requires ends { AreEnds 0 (length bytes.now) ends.now }
    requires there { i < length ends.now }
    ensures order { result.0 ≤ result.1 }
    ensures within { result.1 ≤ length bytes.now }
    ensures frame { slice_get (frames_from 0 bytes.now ends.now) i ≡ Some (take (result.1 - result.0) (drop result.0 bytes.now)) }
{
    let start = if i == 0 { 0 } else { ends[i - 1] };
    (start, ends[i])
}
