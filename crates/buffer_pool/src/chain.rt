//! Buffers in a linked chain.
ghost use Rattle.std.specs.Prelude.{◌≡◌, ◌<◌, ◌≤◌, ◌∷◌, ◌++◌, ◌↔◌, [], length, map, drop, slice_index, slice_set, IsNone, IfNone, IfSome};
ghost use Rattle.std.specs.Iterator.{YieldsFirstRef, item_count};
ghost use Rattle.buffer_pool.specs.Buffer.{buffer};
ghost use Rattle.buffer_pool.specs.Chain.{IsChain, chained};
ghost use Rattle.buffer_pool.specs.Packed.{bytes_of, shape_of};

use crate::Buf;
use limits::BUFFER_BYTES;
use std::marker::Model;
use std::mem;

/// A linked list of buffers, each on the heap. A single buffer is a chain of one.
#[derive(Drop)]
#[cycle(chain)]
pub(crate) enum Chain {
    End,
    To(Box<Link>),
}

/// A buffer of a chain, and those after it.
#[derive(Drop)]
#[cycle(chain)]
pub(crate) struct Link {
    pub(crate) room: Room,
    pub(crate) next: Chain,
}

/// The content of a buffer: its number, and its bytes, of which the first `len` are in use.
#[derive(Drop)]
pub(crate) struct Room {
    pub(crate) number: u16,
    pub(crate) len: u16,
    pub(crate) bytes: [u8; BUFFER_BYTES],
}

const _: () = prove!(size_of::<Chain>() == 16);

impl Chain {
    /// Links these buffers after `buf`.
    pub(crate) fn behind(self, buf: Buf) -> Chain
        requires chain { IsChain self }
        requires some_bytes { 0 < length buf.bytes }
        ensures chain { IsChain result }
        ensures bufs { chained result ≡ buf ∷ chained self }
    {
        match buf.chain {
            Chain::To(mut link) => {
                link.next = self;
                Chain::To(link)
            }
            Chain::End => self,
        }
    }

    /// Removes the first buffer. Returns `None` if there is none.
    #[inline]
    pub(crate) fn pop(&mut self) -> Option<Buf>
        requires { IsChain self.old }
        ensures chain { IsChain self.new }
        ensures none { IsNone result ↔ (chained self.old ≡ []) }
        ensures unchanged { IfNone result (self.new ≡ self.old) }
        ensures bufs { IfSome result (λ b. chained self.old ≡ b ∷ chained self.new) }
        ensures real { IfSome result (λ b. b ≡ buffer b.number b.bytes) }
    {
        match mem::replace(self, Chain::End) {
            Chain::To(mut link) => {
                *self = mem::replace(&mut link.next, Chain::End);
                Some(Buf {
                    chain: Chain::To(link),
                })
            }
            Chain::End => None,
        }
    }

    /// Appends `buf` after the last buffer.
    pub(crate) fn push(&mut self, buf: Buf)
        requires chain { IsChain self.old }
        requires some_bytes { 0 < length buf.bytes }
        ensures chain { IsChain self.new }
        ensures bufs { chained self.new ≡ chained self.old ++ buf ∷ [] }
    {
        match self {
            Chain::To(link) => link.next.push(buf),
            Chain::End => *self = buf.chain,
        }
    }

    /// Byte `i` of the bytes of all buffers.
    pub(crate) fn byte(&self, i: usize) -> u8
        requires chain { IsChain self.now }
        requires within { i < length (bytes_of (chained self.now)) }
        ensures { result ≡ slice_index (bytes_of (chained self.now)) i }
    {
        match self {
            Chain::To(link) => {
                let len = usize::from(link.room.len);
                if i < len {
                    link.room.bytes[i]
                } else {
                    link.next.byte(i - len)
                }
            }
            Chain::End => unreachable!(),
        }
    }

    /// Sets byte `i` of the bytes of all buffers to `v`.
    pub(crate) fn set_byte(&mut self, i: usize, v: u8)
        requires chain { IsChain self.old }
        requires within { i < length (bytes_of (chained self.old)) }
        ensures chain { IsChain self.new }
        ensures bytes { bytes_of (chained self.new) ≡ slice_set (bytes_of (chained self.old)) i v }
        ensures shape { map shape_of (chained self.new) ≡ map shape_of (chained self.old) }
    {
        match self {
            Chain::To(link) => {
                let len = usize::from(link.room.len);
                if i < len {
                    link.room.bytes[i] = v;
                } else {
                    link.next.set_byte(i - len, v);
                }
            }
            Chain::End => unreachable!(),
        }
    }

    /// Copies the bytes of all buffers, in order, to the front of `to`.
    pub(crate) fn copy_to(&self, to: &mut [u8])
        requires chain { IsChain self.now }
        requires fits { length (bytes_of (chained self.now)) ≤ length to.old }
        ensures { to.new ≡ bytes_of (chained self.now) ++ drop (length (bytes_of (chained self.now))) to.old }
    {
        if let Chain::To(link) = self {
            let (here, behind) = to.split_at_mut(usize::from(link.room.len));
            here.copy_from_slice(&link.room.bytes[..usize::from(link.room.len)]);
            link.next.copy_to(behind);
        }
    }
}

/// An iterator over the bytes of each buffer of a packet, in order.
#[derive(Drop)]
pub struct Segments<'a> {
    pub(crate) rest: &'a Chain,
}

impl<'a> Model for Segments<'a> {
    ghost use Rattle.std.specs.Prelude.{List, ℕ, map};
    ghost use Rattle.buffer_pool.specs.Chain.{IsChain, chained};

    ghost Value = { List (List ℕ) };

    ghost view = { λ s. map (λ b. b.bytes) (chained s.rest.now) };

    ghost invariant = { λ s. IsChain s.rest.now };
}

impl<'a> Iterator for Segments<'a> {
    type Item = &'a [u8];

    ghost next_gives = { YieldsFirstRef (λ s. s) };

    ghost remaining = { item_count (λ s. s) };

    #[inline]
    fn next(&mut self) -> Option<&'a [u8]> {
        match self.rest {
            Chain::To(link) => {
                self.rest = &link.next;
                Some(&link.room.bytes[..usize::from(link.room.len)])
            }
            Chain::End => None,
        }
    }
}
