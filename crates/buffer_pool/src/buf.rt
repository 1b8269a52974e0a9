//! A single buffer.
ghost use Rattle.std.specs.Prelude.{◌≡◌, ◌≤◌, ◌↔◌, ◌⊎◌, [], ◌++◌, length, drop, replicate, IsTrue, IfOk};
ghost use Rattle.buffer_pool.specs.Buffer.{buffer, blank};

use crate::chain::{Chain, Link, Room};
use limits::BUFFER_BYTES;
use std::alloc::{AllocError, Global};
use std::marker::Model;

/// A buffer: its number, and the bytes of one segment.
///
/// Both are on the heap, so a `Buf` takes 16 bytes and is cheap to move. The default buffer is a blank, for a place
/// without a buffer: it has number 0, no room, and nothing on the heap.
#[derive(Drop)]
pub struct Buf {
    pub(crate) chain: Chain,
}

const _: () = prove!(size_of::<Buf>() == 16);

impl Model for Buf {
    ghost use Rattle.buffer_pool.specs.Buffer.{Buffer};
    ghost use Rattle.buffer_pool.specs.Chain.{IsBuffer, seen};

    ghost Value = { Buffer };

    ghost view = { λ b. seen b.chain };

    ghost invariant = { λ b. IsBuffer b.chain };
}

impl Buf {
    /// An empty buffer with room for `BUFFER_BYTES` bytes.
    pub(crate) fn new(alloc: Global, number: u16) -> Result<Self, AllocError>
        ensures { IfOk result (λ b. b ≡ buffer number []) }
    {
        let room = Room {
            number,
            len: 0,
            bytes: [0; BUFFER_BYTES],
        };
        let link = Link {
            room,
            next: Chain::End,
        };
        Ok(Buf {
            chain: Chain::To(Box::new(alloc, link)?),
        })
    }

    /// A vector of `count` blanks, for places that have no buffer yet.
    pub fn blanks(alloc: Global, count: usize) -> Result<Vec<Buf>, AllocError>
        ensures { IfOk result (λ blanks. blanks.items ≡ replicate count blank) }
    {
        let mut blanks = Vec::with_capacity(alloc, count)?;
        while blanks.len() < count {
            blanks.push_reserved(Buf::default());
        }
        Ok(blanks)
    }

    /// The buffer's number, which no call changes. A blank has number 0.
    #[inline]
    pub fn number(&self) -> u16
        ensures { result ≡ self.now.number }
    {
        match &self.chain {
            Chain::To(link) => link.room.number,
            Chain::End => 0,
        }
    }

    /// The bytes in the buffer.
    #[inline]
    pub fn bytes(&self) -> &[u8]
        ensures value { result.now ≡ self.now.bytes }
        ensures fits { length result.now ≤ self.now.capacity }
        ensures few { length result.now ≤ BUFFER_BYTES }
    {
        match &self.chain {
            Chain::To(link) => &link.room.bytes[..usize::from(link.room.len)],
            Chain::End => &[],
        }
    }

    /// The number of bytes in the buffer.
    #[inline]
    pub fn len(&self) -> usize
        ensures value { result ≡ length self.now.bytes }
        ensures fits { result ≤ self.now.capacity }
        ensures few { result ≤ BUFFER_BYTES }
    {
        self.bytes().len()
    }

    /// Whether the buffer has no bytes.
    #[inline]
    pub fn is_empty(&self) -> bool
        ensures { IsTrue result ↔ (self.now.bytes ≡ []) }
    {
        self.len() == 0
    }

    /// How many bytes fit: `BUFFER_BYTES`, or 0 for a blank.
    #[inline]
    pub fn capacity(&self) -> usize
        ensures value { result ≡ self.now.capacity }
        ensures all_or_none { (result ≡ BUFFER_BYTES) ⊎ (result ≡ 0) }
    {
        match &self.chain {
            Chain::To(_) => BUFFER_BYTES,
            Chain::End => 0,
        }
    }

    /// Replaces the buffer's bytes with `bytes`. Writes no other byte of the room.
    #[inline]
    pub fn fill(&mut self, bytes: &[u8])
        requires { length bytes.now ≤ self.old.capacity }
        ensures { self.new ≡ record self.old { bytes = bytes.now } }
    {
        if let Chain::To(link) = &mut self.chain {
            overwrite(&mut link.room.bytes, bytes);
            link.room.len = bytes.len() as u16;
        }
    }

    /// Empties the buffer. Writes no byte of the room.
    #[inline]
    pub fn clear(&mut self)
        ensures { self.new ≡ record self.old { bytes = [] } }
    {
        if let Chain::To(link) = &mut self.chain {
            link.room.len = 0;
        }
    }
}

impl Default for Buf {
    ghost is_default = { λ b. b ≡ blank };

    fn default() -> Buf {
        Buf { chain: Chain::End }
    }
}

/// Writes `bytes` over the first bytes of a buffer's room, and leaves the others unchanged.
#[inline]
fn overwrite(room: &mut [u8], bytes: &[u8])
    requires { length bytes.now ≤ length room.old }
    ensures { room.new ≡ bytes.now ++ drop (length bytes.now) room.old }
{
    room[..bytes.len()].copy_from_slice(bytes);
}
