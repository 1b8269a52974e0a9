//! A worker's buffers: its empty ones, and its packets.
ghost use Rattle.std.specs.Prelude.{◌≡◌, ◌+◌, ◌*◌, ◌<◌, ◌≤◌, ◌++◌, ◌⊎◌, true, false, [], length, reverse, Some, IfErr, IfOk};
ghost use Rattle.poll82599_c.specs.Handles.{as_packets};
ghost use Rattle.buffer_pool.specs.Packed.{IsPacket};
ghost use Rattle.buffer_pool.specs.declared.stash.TheConstants.{STASH_BUFFERS};
ghost use Rattle.limits.specs.declared.profile.TheConstants.{BUFFER_BYTES, MOST_SEGMENTS};
ghost use Rattle.ring_model.specs.shared.Frames.{HasFrameLength};
ghost use Rattle.poll82599_c.specs.batches.Pools.{TriedRefill, TriedReturn};
ghost use Rattle.poll82599_c.specs.batches.Ranges.{TriedReadRange, TriedWriteRange};
ghost use Rattle.poll82599_c.specs.batches.Packets.{HasNoByte, IsMade, Packed, Pushed, SetIn, TriedAppend, TriedCopy, TriedExtend, TriedMeasure, TriedMove, TriedPut, TriedRead, TriedRelease, TriedTouch, numbers_of};

use crate::batches::found::Found;
use crate::batches::pool::{POOL_BUFFERS, Pool};
use crate::batches::ranges::{copy_range, has_range, patch_in};
use crate::end::End;
use crate::makings::{Unmade, boxed, stash_of};
use arrayvec::ArrayVec;
use buffer_pool::{Packet, STASH_BUFFERS, Stash};
use driver::MOST_BATCH;
use limits::{BUFFER_BYTES, LEAST_FRAME, MOST_FRAME, MOST_SEGMENTS};
use std::alloc::Global;
use std::marker::Model;

/// The empty buffers of a worker, and up to 32 packets.
#[derive(Drop)]
pub struct Packets {
    pub(crate) stash: Stash,
    pub(crate) list: ArrayVec<Packet, MOST_BATCH>,
}

impl Model for Packets {
    ghost use Rattle.std.specs.Prelude.{All};
    ghost use Rattle.buffer_pool.specs.Packed.{IsPacket};
    ghost use Rattle.poll82599_c.specs.batches.Packets.{Worked};

    ghost Value = { Worked };

    ghost view = { λ p. record { stash = p.stash; packets = p.list.items } };

    ghost invariant = { λ p. All IsPacket p.list.items };
}

impl Packets {
    /// Makes a worker's packets of these empty buffers, without a packet.
    pub(crate) fn of(stash: Stash) -> Packets
        ensures stash { result.stash ≡ stash }
        ensures none { result.packets ≡ [] }
    {
        Packets {
            stash,
            list: ArrayVec::new(),
        }
    }

    /// How many empty buffers left the worker, or came back to it, since it had this many.
    pub(crate) fn moved_since(&self, had: usize) -> usize
        ensures { (had ≡ result + length self.now.stash) ⊎ (length self.now.stash ≡ result + had) }
    {
        had.abs_diff(self.stash.len())
    }

    /// Makes a packet of a frame and appends it. Returns 1: done; 0: there are 32 packets, or too few empty buffers; 2:
    /// the frame's length is not 14 to 15,000 bytes.
    pub(crate) fn put(&mut self, frame: &[u8]) -> u32
        ensures step { TriedPut result frame.now self.old self.new }
    {
        if frame.len() < LEAST_FRAME || MOST_FRAME < frame.len() {
            return 2;
        }
        if self.list.is_full() || BUFFER_BYTES * self.stash.len() < frame.len() {
            return 0;
        }
        self.list.push(packed(&mut self.stash, frame));
        1
    }

    /// Appends a segment of 1 to 2,048 bytes to the last packet. Returns 1: done; 0: there is no packet, or no empty buffer;
    /// 2: the length is another, or the packet would have more than 15 segments or 15,000 bytes.
    pub(crate) fn append(&mut self, bytes: &[u8]) -> u32
        ensures step { TriedAppend result bytes.now self.old self.new }
    {
        if self.list.len() == 0 {
            return 0;
        }
        let Some(mut packet) = self.list.pop() else {
            unreachable!()
        };
        let answer = extend(&mut packet, &mut self.stash, bytes);
        self.list.push(packet);
        answer
    }

    /// Copies packet `i`, counted from 0, to the beginning of `room`. Returns 1: done; 0: there is no such packet; 4:
    /// `room` is too small. With 1 and 4 the count is the packet's length.
    pub(crate) fn copy(&self, i: usize, room: &mut [u8]) -> Found
        ensures step { TriedCopy result.answer i result.count room.old room.new self.now self.now }
    {
        match self.list.as_slice().get(i) {
            None => Found::nothing(0),
            Some(packet) if room.len() < packet.len() => Found {
                answer: 4,
                count: packet.len(),
            },
            Some(packet) => {
                packet.copy_to(room);
                Found {
                    answer: 1,
                    count: packet.len(),
                }
            }
        }
    }

    /// Reads a byte of packet `i`. Returns 1 and the byte, or 0 if there is no such packet or byte.
    pub(crate) fn byte(&self, i: usize, at: usize) -> (u32, u8)
        ensures step { TriedRead result.0 i at result.1 self.now self.now }
    {
        match self.list.as_slice().get(i) {
            Some(packet) if at < packet.len() => (1, packet.byte(at)),
            _ => (0, 0),
        }
    }

    /// Replaces a byte of packet `i` in place. Returns 1, or 0 if there is no such packet or byte.
    pub(crate) fn touch(&mut self, i: usize, at: usize, byte: u8) -> u32
        ensures step { TriedTouch result i at byte self.old self.new }
    {
        if set_in(self.list.as_mut_slice(), i, at, byte) {
            return 1;
        }
        0
    }

    /// Measures packet `i`. Returns 1, its length and how many buffers it has; or 0 if there is no such packet.
    pub(crate) fn measure(&self, i: usize) -> (Found, usize)
        ensures step { TriedMeasure result.0.answer i result.0.count result.1 self.now self.now }
    {
        match self.list.as_slice().get(i) {
            None => (Found::nothing(0), 0),
            Some(packet) => {
                let count = packet.len();
                (Found { answer: 1, count }, packet.segments())
            }
        }
    }

    /// Fills `room` with the bytes of packet `i` from `at` on. Returns 1, or 0 if there is no such packet, or it ends before
    /// the range.
    pub(crate) fn read(&self, i: usize, at: usize, room: &mut [u8]) -> u32
        ensures step { TriedReadRange result i at room.old room.new self.now self.now }
    {
        match self.list.as_slice().get(i) {
            Some(packet) if has_range(packet, at, room.len()) => {
                copy_range(packet, at, room);
                1
            }
            _ => 0,
        }
    }

    /// Replaces the bytes of packet `i` from `at` on in place. Returns 1, or 0 if there is no such packet, or it ends before
    /// the range.
    pub(crate) fn write(&mut self, i: usize, at: usize, bytes: &[u8]) -> u32
        ensures step { TriedWriteRange result i at bytes.now self.old self.new }
    {
        if patch_in(self.list.as_mut_slice(), i, at, bytes) {
            return 1;
        }
        0
    }

    /// Removes packet `i` and puts its buffers into the stash. Returns 1: done; 0: there is no such packet; 2: the
    /// stash has no room for them.
    pub(crate) fn release(&mut self, i: usize) -> u32
        ensures step { TriedRelease result i self.old self.new }
    {
        if self.list.len() <= i {
            return 0;
        }
        if STASH_BUFFERS - self.stash.len() < self.list.as_slice()[i].segments() {
            return 2;
        }
        let packet = self.list.remove(i);
        emptied(packet, &mut self.stash);
        1
    }

    /// Moves packet `i`, with its buffers, to the end of another worker's list. Returns 1: done; 0: there is no such
    /// packet, or the other list has 32.
    pub(crate) fn move_to(&mut self, i: usize, other: &mut Packets) -> u32
        ensures step { TriedMove result i self.old other.old self.new other.new }
    {
        if self.list.len() <= i || other.list.is_full() {
            return 0;
        }
        let moved = self.list.remove(i);
        other.list.push(moved);
        1
    }

    /// Takes empty buffers from a pool until the stash is full or the pool is empty. Returns 1: done, and how many; 0: the
    /// stash is full, or the pool is empty.
    pub(crate) fn refill(&mut self, pool: &mut Pool) -> Found
        ensures step { TriedRefill result.answer result.count self.old pool.old self.new pool.new }
    {
        let count = pool.len().min(STASH_BUFFERS - self.stash.len());
        if count == 0 {
            return Found::nothing(0);
        }
        pool.give(&mut self.stash, count);
        Found { answer: 1, count }
    }

    /// Returns up to `wanted` empty buffers to a pool. Returns 1: done, and how many; 0: none was wanted, the stash is
    /// empty, or the pool is full.
    pub(crate) fn give_back(&mut self, pool: &mut Pool, wanted: usize) -> Found
        ensures step { TriedReturn result.answer wanted result.count self.old pool.old self.new pool.new }
    {
        let room = POOL_BUFFERS - pool.len();
        let count = wanted.min(room).min(self.stash.len());
        if count == 0 {
            return Found::nothing(0);
        }
        pool.receive(&mut self.stash, count);
        Found { answer: 1, count }
    }
}

/// Makes a worker's packets: none, and `buffers` empty buffers. Refuses if `buffers` is not 16 to 256, or memory is
/// refused.
pub(crate) fn fresh_packets(alloc: Global, buffers: u32) -> Result<Box<End>, Unmade>
    ensures made { IfOk result (λ p. IsMade buffers (as_packets (Some p.value))) }
    ensures refusals { IfErr result (λ e. (e ≡ Unmade.Buffers) ⊎ (e ≡ Unmade.Memory)) }
    ensures buffers { IfErr result (λ e. e ≡ Unmade.Buffers → (buffers < 16) ⊎ (256 < buffers)) }
{
    boxed(alloc, End::Packets(Packets::of(stash_of(alloc, buffers)?)))
}

/// Makes a packet of a frame, in buffers of the stash.
fn packed(stash: &mut Stash, frame: &[u8]) -> Packet
    requires frame { HasFrameLength frame.now }
    requires enough { length frame.now ≤ BUFFER_BYTES * length stash.old }
    ensures { Packed frame.now stash.old result stash.new }
{
    let mut packet = Packet::default();
    let mut rest = frame;
    while BUFFER_BYTES < rest.len() {
        let (piece, more) = rest.split_at(BUFFER_BYTES);
        push_piece(&mut packet, stash, piece);
        rest = more;
    }
    push_piece(&mut packet, stash, rest);
    packet
}

/// Appends a segment with these bytes to a packet, in a buffer of the stash.
fn push_piece(packet: &mut Packet, stash: &mut Stash, bytes: &[u8])
    requires some_bytes { 0 < length bytes.now }
    requires few_bytes { length bytes.now ≤ BUFFER_BYTES }
    requires few { length packet.old < MOST_SEGMENTS }
    requires stash { 0 < length stash.old }
    ensures { Pushed bytes.now packet.old stash.old packet.new stash.new }
{
    let Some(mut buf) = stash.take() else {
        unreachable!()
    };
    buf.fill(bytes);
    packet.push_back(buf);
}

/// Appends a segment to a packet, in a buffer of the stash. The results are those of [`Packets::append`].
fn extend(packet: &mut Packet, stash: &mut Stash, bytes: &[u8]) -> u32
    requires whole { IsPacket packet.old }
    ensures step { TriedExtend result bytes.now packet.old stash.old packet.new stash.new }
    ensures whole { IsPacket packet.new }
{
    if bytes.is_empty() || BUFFER_BYTES < bytes.len() {
        return 2;
    }
    if packet.segments() == MOST_SEGMENTS || MOST_FRAME < packet.len() + bytes.len() {
        return 2;
    }
    if stash.is_empty() {
        return 0;
    }
    push_piece(packet, stash, bytes);
    1
}

/// Replaces a byte of packet `i`. Returns whether there is such a packet and byte.
fn set_in(packets: &mut [Packet], i: usize, at: usize, byte: u8) -> bool
    ensures step { result ≡ true → SetIn i at byte packets.old packets.new }
    ensures absent { result ≡ false → HasNoByte i at packets.old }
    ensures kept { result ≡ false → packets.new ≡ packets.old }
{
    if packets.len() <= i || packets[i].len() <= at {
        return false;
    }
    packets[i].set_byte(at, byte);
    true
}

/// Moves a packet's buffers into a stash that has room for them.
fn emptied(mut packet: Packet, stash: &mut Stash)
    requires { length packet + length stash.old ≤ STASH_BUFFERS }
    ensures { stash.new ≡ reverse (numbers_of packet) ++ stash.old }
{
    while let Some(buf) = packet.pop_front() {
        stash.push(buf);
    }
}
