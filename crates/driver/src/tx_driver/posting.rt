//! Posting as many packets as fit.
ghost use Rattle.std.specs.Prelude.{◌≡◌, ◌+◌, ◌-◌, ◌%◌, ◌<◌, ◌≤◌, ◌↔◌, true, [], ◌∷◌, length, take, drop, All, IsTrue};
ghost use Rattle.buffer_pool.specs.Buffer.{buffer};
ghost use Rattle.buffer_pool.specs.Packed.{IsPacket};
ghost use Rattle.ring_model.specs.shared.Frames.{unfinished};
ghost use Rattle.ring_model.specs.shared.Handshakes.{is_open};
ghost use Rattle.driver.specs.transmit.Batches.{PostedFront};
ghost use Rattle.ring_model.specs.transmit.Ring.{are_whole, carried};
ghost use Rattle.tx_ring.specs.Ends.{driver_size, posted, returned, driver_state};
ghost use Rattle.driver.specs.transmit.Frames.{frame_of, frames_of, segment_count, NeedsMore, IsTooLong};
ghost use Rattle.driver.specs.transmit.Going.{PostedAll};

use arrayvec::ArrayVec;
use buffer_pool::{Buf, Packet};
use limits::{BUFFER_BYTES, MOST_BATCH};
use ring_model::place_after;
use tx_ring::{DriverEnd, TxDriverEnd, TxRing};

/// Whether the first packet needs more descriptors than a ring of length `size` can ever have out.
pub(super) fn is_too_long(packets: &[Packet], size: u32) -> bool
    ensures { IsTrue result ↔ IsTooLong size packets.now }
{
    match packets.first() {
        Some(packet) => packet.segments() >= size as usize,
        None => false,
    }
}

/// How many packets from the front fit into `room` descriptors together.
fn fitting(packets: &[Packet], room: u32) -> usize
    ensures within { result ≤ length packets.now }
    ensures fits { segment_count (take result packets.now) ≤ room }
    ensures stays { NeedsMore (room - segment_count (take result packets.now)) (drop result packets.now) }
{
    let mut left = room as usize;
    for (count, packet) in packets.iter().enumerate() {
        let segments = packet.segments();
        if left < segments {
            return count;
        }
        left -= segments;
    }
    packets.len()
}

/// Removes the first buffer of a packet.
#[inline]
fn first_of(packet: &mut Packet) -> Buf
    requires { 0 < length packet.old }
    ensures rest { packet.old ≡ result ∷ packet.new }
    ensures real { result ≡ buffer result.number result.bytes }
    ensures few { length result.bytes ≤ BUFFER_BYTES }
{
    let Some(buf) = packet.pop_front() else {
        unreachable!()
    };
    let _len = buf.len();
    buf
}

/// Posts the buffers of a packet in order. The last one ends the frame, and asks for a report if `rs` is set. Most
/// packets have only one.
#[inline]
fn post_frame(driver: &mut TxDriverEnd, ring: &TxRing, mut packet: Packet, rs: bool)
    requires own { driver.old.table ≡ ring.now }
    requires open { is_open (driver_state driver.old) ≡ true }
    requires whole { unfinished carried (posted driver.old) ≡ [] }
    requires packet { IsPacket packet }
    requires short { length packet < driver_size driver.old }
    requires room { length (posted driver.old) + length packet < returned driver.old + driver_size driver.old }
    ensures went { PostedAll driver.old (frame_of rs packet) driver.new }
    ensures whole { are_whole (posted driver.new) ≡ true }
{
    if packet.segments() > 1 {
        post_segments(driver, ring, packet, rs);
        return;
    }
    let paylen = packet.len() as u16;
    let only = first_of(&mut packet);
    driver.post(ring, only, true, rs, paylen);
}

/// The same, out of line.
#[inline(never)]
fn post_segments(driver: &mut TxDriverEnd, ring: &TxRing, mut packet: Packet, rs: bool)
    requires own { driver.old.table ≡ ring.now }
    requires open { is_open (driver_state driver.old) ≡ true }
    requires whole { unfinished carried (posted driver.old) ≡ [] }
    requires packet { IsPacket packet }
    requires short { length packet < driver_size driver.old }
    requires room { length (posted driver.old) + length packet < returned driver.old + driver_size driver.old }
    ensures went { PostedAll driver.old (frame_of rs packet) driver.new }
    ensures whole { are_whole (posted driver.new) ≡ true }
{
    let paylen = packet.len() as u16;
    for _ in 1..packet.segments() {
        let buf = first_of(&mut packet);
        driver.post(ring, buf, false, false, paylen);
    }
    let buf = first_of(&mut packet);
    driver.post(ring, buf, true, rs, paylen);
}

/// Removes `count` packets from the front and posts them. Returns how many frames are posted then, modulo `every`.
fn post_front(
    driver: &mut TxDriverEnd,
    ring: &TxRing,
    packets: &mut ArrayVec<Packet, MOST_BATCH>,
    count: usize,
    every: u16,
    before: u16,
) -> u16
    requires own { driver.old.table ≡ ring.now }
    requires open { is_open (driver_state driver.old) ≡ true }
    requires whole { are_whole (posted driver.old) ≡ true }
    requires packets { All IsPacket packets.old.items }
    requires count { count ≤ length packets.old.items }
    requires counted { before < every }
    requires short { segment_count (take count packets.old.items) < driver_size driver.old }
    requires room { length (posted driver.old) + segment_count (take count packets.old.items) < returned driver.old + driver_size driver.old }
    ensures went { PostedAll driver.old (frames_of every before (take count packets.old.items)) driver.new }
    ensures whole { are_whole (posted driver.new) ≡ true }
    ensures stays { packets.new.items ≡ drop count packets.old.items }
    ensures counted { result ≡ (before + count) % every }
{
    let mut frames = before;
    let mut left = count;
    for packet in packets.drain(..count) {
        left -= 1;
        frames = place_after(frames, every);
        post_frame(driver, ring, packet, frames == 0 || left == 0);
    }
    frames
}

/// Removes the packets from the front that fit, posts and publishes them, unless a disabling was asked. Returns their
/// number, and how many frames are posted then, modulo `every`.
pub(super) fn post_fitting(
    driver: &mut TxDriverEnd,
    ring: &TxRing,
    packets: &mut ArrayVec<Packet, MOST_BATCH>,
    every: u16,
    before: u16,
) -> (usize, u16)
    requires own { driver.old.table ≡ ring.now }
    requires whole { are_whole (posted driver.old) ≡ true }
    requires packets { All IsPacket packets.old.items }
    requires counted { before < every }
    ensures posts { PostedFront every before result.0 driver.old packets.old.items driver.new packets.new.items }
    ensures counted { result.1 ≡ (before + result.0) % every }
    ensures whole { are_whole (posted driver.new) ≡ true }
{
    if !driver.is_on() {
        return (0, before);
    }
    let count = fitting(packets.as_slice(), driver.room());
    if count == 0 {
        return (0, before);
    }
    let frames = post_front(driver, ring, packets, count, every, before);
    driver.publish(ring);
    (count, frames)
}
