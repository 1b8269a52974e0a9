//! The exports that handle a worker's packets. The worker's thread calls them. Each returns 1: done, or a number that is
//! listed, or `0xFFFF_FFFF`: the handle is empty or of another kind; nothing changes.
ghost use Rattle.std.specs.Prelude.{◌≡◌, ◌≢◌, ◌⊎◌, None};
ghost use Rattle.poll82599_c.specs.Handles.{as_packets};
ghost use Rattle.poll82599_c.specs.Held.{Among, Between};
ghost use Rattle.poll82599_c.specs.batches.Packets.{TriedAppend, TriedCopy, TriedCount, TriedMeasure, TriedMove, TriedPut, TriedRead, TriedRelease, TriedTouch};

use crate::call::NO_OPERATION;
use crate::end::End;
use crate::handle::Handle;

/// Makes a packet of a frame and appends it. Returns 1: done; 0: there are 32 packets, or
/// too few empty buffers; 2: the length is not 14 to 15,000.
#[unsafe(no_mangle)]
pub extern "C" fn poll82599_packets_put(packets: &mut Handle, frame: &[u8]) -> u32
    ensures other { as_packets packets.old.held ≡ None → (result ≡ 4294967295) × (packets.new.held ≡ packets.old.held) }
    ensures step { Between (TriedPut result frame.now) (as_packets packets.old.held) (as_packets packets.new.held) }
{
    step!(packets, Packets(held) => held.put(frame))
}

/// Appends a segment of 1 to 2,048 bytes to the last packet. Returns 1: done; 0: there is
/// no packet, or no empty buffer; 2: the length is another, or the packet would be too long.
#[unsafe(no_mangle)]
pub extern "C" fn poll82599_packets_append(packets: &mut Handle, bytes: &[u8]) -> u32
    ensures other { as_packets packets.old.held ≡ None → (result ≡ 4294967295) × (packets.new.held ≡ packets.old.held) }
    ensures step { Between (TriedAppend result bytes.now) (as_packets packets.old.held) (as_packets packets.new.held) }
{
    step!(packets, Packets(held) => held.append(bytes))
}

/// Moves a packet, with its buffers, to the end of another worker's packets. The thread of both workers calls it.
/// Returns 1: done; 0: there is no such packet, or the other worker has 32 packets.
#[unsafe(no_mangle)]
pub extern "C" fn poll82599_packet_move(
    packets: &mut Handle,
    packet: usize,
    other: &mut Handle,
) -> u32
    ensures other { (as_packets packets.old.held ≡ None) ⊎ (as_packets other.old.held ≡ None) → (result ≡ 4294967295) × (packets.new.held ≡ packets.old.held) × (other.new.held ≡ other.old.held) }
    ensures step { Among (TriedMove result packet) (as_packets packets.old.held) (as_packets other.old.held) (as_packets packets.new.held) (as_packets other.new.held) }
{
    step_both!(packets, other, NO_OPERATION, Packets(held), Packets(receiving) => {
        held.move_to(packet, receiving)
    })
}

/// Copies a packet into `room`, with its length in `len`. 0: there is no such packet; 4: `room` is too small.
#[unsafe(no_mangle)]
pub extern "C" fn poll82599_packet_copy(
    packets: &mut Handle,
    packet: usize,
    room: &mut [u8],
    len: &mut usize,
) -> u32
    ensures other { as_packets packets.old.held ≡ None → (result ≡ 4294967295) × (packets.new.held ≡ packets.old.held) × (room.new ≡ room.old) × (len.new ≡ len.old) }
    ensures step { Between (TriedCopy result packet len.new room.old room.new) (as_packets packets.old.held) (as_packets packets.new.held) }
    ensures kept { (result ≢ 1) → packets.new.held ≡ packets.old.held }
{
    step!(packets, Packets(held) => {
        let found = held.copy(packet, room);
        *len = found.count;
        found.answer
    })
}

/// Reads a byte of a packet. 0: there is no such packet or byte.
#[unsafe(no_mangle)]
pub extern "C" fn poll82599_packet_byte(
    packets: &mut Handle,
    packet: usize,
    at: usize,
    byte: &mut u8,
) -> u32
    ensures other { as_packets packets.old.held ≡ None → (result ≡ 4294967295) × (packets.new.held ≡ packets.old.held) × (byte.new ≡ byte.old) }
    ensures step { Between (TriedRead result packet at byte.new) (as_packets packets.old.held) (as_packets packets.new.held) }
    ensures kept { packets.new.held ≡ packets.old.held }
{
    step!(packets, Packets(held) => {
        let (answer, found) = held.byte(packet, at);
        *byte = found;
        answer
    })
}

/// Replaces a byte of a packet in place. 0: there is no such packet or byte.
#[unsafe(no_mangle)]
pub extern "C" fn poll82599_packet_touch(
    packets: &mut Handle,
    packet: usize,
    at: usize,
    byte: u8,
) -> u32
    ensures other { as_packets packets.old.held ≡ None → (result ≡ 4294967295) × (packets.new.held ≡ packets.old.held) }
    ensures step { Between (TriedTouch result packet at byte) (as_packets packets.old.held) (as_packets packets.new.held) }
    ensures kept { (result ≢ 1) → packets.new.held ≡ packets.old.held }
{
    step!(packets, Packets(held) => held.touch(packet, at, byte))
}

/// Frees a packet into the stash. 0: there is no such packet; 2: the stash has no room for its buffers.
#[unsafe(no_mangle)]
pub extern "C" fn poll82599_packet_free(packets: &mut Handle, packet: usize) -> u32
    ensures other { as_packets packets.old.held ≡ None → (result ≡ 4294967295) × (packets.new.held ≡ packets.old.held) }
    ensures step { Between (TriedRelease result packet) (as_packets packets.old.held) (as_packets packets.new.held) }
    ensures kept { (result ≢ 1) → packets.new.held ≡ packets.old.held }
{
    step!(packets, Packets(held) => held.release(packet))
}

/// Measures a packet: its length, and how many buffers it has. 0: there is no such packet.
#[unsafe(no_mangle)]
pub extern "C" fn poll82599_packet_measure(
    packets: &mut Handle,
    packet: usize,
    len: &mut usize,
    segments: &mut usize,
) -> u32
    ensures other { as_packets packets.old.held ≡ None → (result ≡ 4294967295) × (packets.new.held ≡ packets.old.held) × (len.new ≡ len.old) × (segments.new ≡ segments.old) }
    ensures step { Between (TriedMeasure result packet len.new segments.new) (as_packets packets.old.held) (as_packets packets.new.held) }
    ensures kept { packets.new.held ≡ packets.old.held }
{
    step!(packets, Packets(held) => {
        let (found, count) = held.measure(packet);
        *len = found.count;
        *segments = count;
        found.answer
    })
}

/// Counts the packets and the empty buffers.
#[unsafe(no_mangle)]
pub extern "C" fn poll82599_packets_measure(
    packets: &mut Handle,
    count: &mut usize,
    empty: &mut usize,
) -> u32
    ensures other { as_packets packets.old.held ≡ None → (result ≡ 4294967295) × (packets.new.held ≡ packets.old.held) × (count.new ≡ count.old) × (empty.new ≡ empty.old) }
    ensures step { Between (TriedCount result count.new empty.new) (as_packets packets.old.held) (as_packets packets.new.held) }
    ensures kept { packets.new.held ≡ packets.old.held }
{
    step!(packets, Packets(held) => {
        *count = held.list.len();
        *empty = held.stash.len();
        1
    })
}
