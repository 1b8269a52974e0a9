//! Ranges of a packet's bytes: reading them into a room, and replacing them in place, segment by segment.
ghost use Rattle.std.specs.Prelude.{◌≡◌, ◌+◌, ◌<◌, ◌≤◌, All, true, false, length, map, take, drop};
ghost use Rattle.std.specs.List.{concat};
ghost use Rattle.buffer_pool.specs.Buffer.{buffer};
ghost use Rattle.buffer_pool.specs.Packed.{IsPacket, bytes_of, shape_of};
ghost use Rattle.poll82599_c.specs.batches.Ranges.{HasNoRange, Overlaid, PatchedIn, patched};

use buffer_pool::{Buf, Packet, Segments};
use limits::BUFFER_BYTES;

/// Whether a packet has `count` bytes from `at` on.
pub(crate) fn has_range(packet: &Packet, at: usize, count: usize) -> bool
    ensures within { result ≡ true → at + count ≤ length (bytes_of packet.now) }
    ensures beyond { result ≡ false → length (bytes_of packet.now) < at + count }
{
    at <= packet.len() && count <= packet.len() - at
}

/// Fills `room` with the bytes of a packet from `at` on.
pub(crate) fn copy_range(packet: &Packet, at: usize, room: &mut [u8])
    requires { at + length room.old ≤ length (bytes_of packet.now) }
    ensures { room.new ≡ take (length room.old) (drop at (bytes_of packet.now)) }
{
    copy_pieces(packet.iter(), at, room);
}

/// Fills `room` with the bytes of these segments, joined, from `at` on.
fn copy_pieces(mut segments: Segments<'_>, at: usize, room: &mut [u8])
    requires { at + length room.old ≤ length (concat segments) }
    ensures { room.new ≡ take (length room.old) (drop at (concat segments.entry)) }
{
    if room.is_empty() {
        return;
    }
    let Some(segment) = segments.next() else {
        unreachable!()
    };
    if segment.len() <= at {
        copy_pieces(segments, at - segment.len(), room);
        return;
    }
    let here = &segment[at..];
    if room.len() <= here.len() {
        room.copy_from_slice(&here[..room.len()]);
        return;
    }
    let (front, back) = room.split_at_mut(here.len());
    front.copy_from_slice(here);
    copy_pieces(segments, 0, back);
}

/// Replaces bytes of packet `i` from `at` on. Returns whether there is such a packet, and it has such a range.
pub(crate) fn patch_in(packets: &mut [Packet], i: usize, at: usize, bytes: &[u8]) -> bool
    requires { All IsPacket packets.old }
    ensures step { result ≡ true → PatchedIn i at bytes.now packets.old packets.new }
    ensures absent { result ≡ false → HasNoRange i at (length bytes.now) packets.old }
    ensures kept { result ≡ false → packets.new ≡ packets.old }
{
    if packets.len() <= i || !has_range(&packets[i], at, bytes.len()) {
        return false;
    }
    patch(&mut packets[i], at, bytes);
    true
}

/// Replaces bytes of a packet from `at` on. Each buffer keeps its number and its length.
fn patch(packet: &mut Packet, at: usize, bytes: &[u8])
    requires whole { IsPacket packet.old }
    requires within { at + length bytes.now ≤ length (bytes_of packet.old) }
    ensures bytes { bytes_of packet.new ≡ patched at bytes.now (bytes_of packet.old) }
    ensures shape { map shape_of packet.new ≡ map shape_of packet.old }
{
    let mut done = Packet::default();
    let mut skip = at;
    let mut rest = bytes;
    while let Some(mut buf) = packet.pop_front() {
        (skip, rest) = overlay(&mut buf, skip, rest);
        done.push_back(buf);
    }
    *packet = done;
}

/// Replaces bytes of a buffer with as many of `rest` as fit, after the first `skip` bytes of it. Returns how many bytes
/// to skip in the next buffer, and those that are left.
fn overlay<'a>(buf: &mut Buf, skip: usize, rest: &'a [u8]) -> (usize, &'a [u8])
    requires real { buf.old ≡ buffer buf.old.number buf.old.bytes }
    ensures { Overlaid skip rest.now buf.old buf.new result.0 result.1.now }
{
    let here = buf.len();
    if here <= skip {
        return (skip - here, rest);
    }
    let (front, left) = rest.split_at(rest.len().min(here - skip));
    overwrite(buf, skip, front);
    (0, left)
}

/// Replaces bytes of a buffer from `at` on.
fn overwrite(buf: &mut Buf, at: usize, bytes: &[u8])
    requires real { buf.old ≡ buffer buf.old.number buf.old.bytes }
    requires within { at + length bytes.now ≤ length buf.old.bytes }
    ensures { buf.new ≡ record buf.old { bytes = patched at bytes.now buf.old.bytes } }
{
    let mut room = [0; BUFFER_BYTES];
    let len = buf.len();
    room[..len].copy_from_slice(buf.bytes());
    room[at..at + bytes.len()].copy_from_slice(bytes);
    buf.fill(&room[..len]);
}
