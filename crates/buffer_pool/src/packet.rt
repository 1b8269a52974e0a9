//! A packet, in the buffers of its segments.
ghost use Rattle.std.specs.Prelude.{◌≡◌, ◌<◌, ◌≤◌, ◌↔◌, [], ◌∷◌, ◌++◌, length, map, drop, slice_index, slice_set, IsTrue, IsNone, IfNone, IfSome};
ghost use Rattle.buffer_pool.specs.Buffer.{buffer};
ghost use Rattle.buffer_pool.specs.Packed.{AreReal, IsPacket, bytes_of, shape_of};

use crate::Buf;
use crate::chain::{Chain, Segments};
use arrayvec::ArrayVec;
use limits::{LEAST_FRAME, MOST_FRAME, MOST_SEGMENTS};
use std::marker::Model;
use std::mem;

/// The buffers of one packet, in order.
///
/// A whole packet has 1 to `MOST_SEGMENTS` buffers, none of them empty, and `LEAST_FRAME` to `MOST_FRAME` bytes. Its
/// buffers are linked on the heap, so a `Packet` takes 24 bytes and is cheap to move. No call of a packet allocates.
/// The default packet has no buffers. A contract sees a packet as the list of its buffers.
#[derive(Drop)]
pub struct Packet {
    chain: Chain,
    len: u32,
    segments: u32,
}

const _: () = prove!(size_of::<Packet>() == 24);

impl Model for Packet {
    ghost use Rattle.std.specs.Prelude.{List};
    ghost use Rattle.buffer_pool.specs.Buffer.{Buffer};
    ghost use Rattle.buffer_pool.specs.Chain.{chained};
    ghost use Rattle.buffer_pool.specs.Hung.{IsHung};

    ghost Value = { List Buffer };

    ghost view = { λ p. chained p.chain };

    ghost invariant = { IsHung };
}

impl Packet {
    /// A packet of these buffers.
    pub fn new(mut bufs: ArrayVec<Buf, MOST_SEGMENTS>) -> Self
        requires { IsPacket bufs.items }
        ensures { result ≡ bufs.items }
    {
        let mut packet = Packet::default();
        while let Some(buf) = bufs.pop() {
            packet.push_front(buf);
        }
        packet
    }

    /// Returns the packet's buffers, in order.
    pub fn into_bufs(self) -> ArrayVec<Buf, MOST_SEGMENTS>
        ensures value { result.items ≡ self }
        ensures real { AreReal result.items }
    {
        let mut bufs = ArrayVec::new();
        let mut packet = self;
        while let Some(buf) = packet.pop_front() {
            bufs.push(buf);
        }
        bufs
    }

    /// Inserts a buffer before the others.
    #[inline]
    fn push_front(&mut self, buf: Buf)
        requires some_bytes { 0 < length buf.bytes }
        requires few { length self.old < MOST_SEGMENTS }
        ensures { self.new ≡ buf ∷ self.old }
    {
        self.len += buf.len() as u32;
        self.segments += 1;
        let chain = mem::replace(&mut self.chain, Chain::End);
        self.chain = chain.behind(buf);
    }

    /// Removes the first buffer. Returns `None` if none is left.
    #[inline]
    pub fn pop_front(&mut self) -> Option<Buf>
        ensures none { IsNone result ↔ (self.old ≡ []) }
        ensures unchanged { IfNone result (self.new ≡ self.old) }
        ensures rest { IfSome result (λ b. self.old ≡ b ∷ self.new) }
        ensures real { IfSome result (λ b. b ≡ buffer b.number b.bytes) }
    {
        let buf = self.chain.pop()?;
        self.len -= buf.len() as u32;
        self.segments -= 1;
        Some(buf)
    }

    /// Appends a buffer that is not empty.
    pub fn push_back(&mut self, buf: Buf)
        requires some_bytes { 0 < length buf.bytes }
        requires few { length self.old < MOST_SEGMENTS }
        ensures { self.new ≡ self.old ++ buf ∷ [] }
    {
        self.len += buf.len() as u32;
        self.segments += 1;
        self.chain.push(buf);
    }

    /// The number of bytes of the packet.
    #[inline]
    pub fn len(&self) -> usize
        ensures { result ≡ length (bytes_of self.now) }
    {
        self.len as usize
    }

    /// Whether the packet has no bytes.
    #[inline]
    pub fn is_empty(&self) -> bool
        ensures { IsTrue result ↔ (bytes_of self.now ≡ []) }
    {
        self.len == 0
    }

    /// The number of buffers of the packet.
    #[inline]
    pub fn segments(&self) -> usize
        ensures value { result ≡ length self.now }
        ensures few { result ≤ MOST_SEGMENTS }
    {
        self.segments as usize
    }

    /// Whether the packet is whole: it has `LEAST_FRAME` to `MOST_FRAME` bytes.
    pub fn is_whole(&self) -> bool
        ensures { IsTrue result ↔ IsPacket self.now }
    {
        let _chain = &self.chain;
        let len = self.len();
        LEAST_FRAME <= len && len <= MOST_FRAME
    }

    /// Byte `i` of the packet, counted from 0.
    pub fn byte(&self, i: usize) -> u8
        requires { i < length (bytes_of self.now) }
        ensures { result ≡ slice_index (bytes_of self.now) i }
    {
        self.chain.byte(i)
    }

    /// Sets byte `i` of the packet to `v`. Each buffer keeps its number and its length.
    pub fn set_byte(&mut self, i: usize, v: u8)
        requires { i < length (bytes_of self.old) }
        ensures bytes { bytes_of self.new ≡ slice_set (bytes_of self.old) i v }
        ensures shape { map shape_of self.new ≡ map shape_of self.old }
        ensures real { AreReal self.new }
    {
        self.chain.set_byte(i, v);
    }

    /// Iterates over the bytes of each buffer, in order, none of them empty.
    #[inline]
    pub fn iter(&self) -> Segments<'_>
        ensures { result ≡ map (λ b. b.bytes) self.now }
    {
        Segments { rest: &self.chain }
    }

    /// Copies the packet's bytes to the front of `to`, and leaves the rest of `to` unchanged.
    pub fn copy_to(&self, to: &mut [u8])
        requires { length (bytes_of self.now) ≤ length to.old }
        ensures { to.new ≡ bytes_of self.now ++ drop (length (bytes_of self.now)) to.old }
    {
        self.chain.copy_to(to);
    }
}

impl Default for Packet {
    ghost is_default = { λ p. p ≡ [] };

    fn default() -> Packet {
        Packet {
            chain: Chain::End,
            len: 0,
            segments: 0,
        }
    }
}
