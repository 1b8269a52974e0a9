//! The exports that read and replace ranges of a packet's bytes. No export can return a pointer into a buffer.
ghost use Rattle.std.specs.Prelude.{◌≡◌, None};
ghost use Rattle.poll82599_c.specs.Handles.{as_packets};
ghost use Rattle.poll82599_c.specs.Held.{Between};
ghost use Rattle.poll82599_c.specs.batches.Ranges.{TriedReadRange, TriedWriteRange};

use crate::call::NO_OPERATION;
use crate::end::End;
use crate::handle::Handle;

/// Fills `room` with the bytes of a packet from `at` on. The worker's thread calls it. Returns 1: done; 0: there is no
/// such packet, or it ends before `at` and the length of `room`.
#[unsafe(no_mangle)]
pub extern "C" fn poll82599_packet_read(
    packets: &mut Handle,
    packet: usize,
    at: usize,
    room: &mut [u8],
) -> u32
    ensures other { as_packets packets.old.held ≡ None → (result ≡ 4294967295) × (packets.new.held ≡ packets.old.held) × (room.new ≡ room.old) }
    ensures step { Between (TriedReadRange result packet at room.old room.new) (as_packets packets.old.held) (as_packets packets.new.held) }
{
    step!(packets, Packets(held) => held.read(packet, at, room))
}

/// Replaces the bytes of a packet from `at` on, in place. The worker's thread calls it. Returns 1: done; 0: there is no
/// such packet, or it ends before `at` and the length of `bytes`.
#[unsafe(no_mangle)]
pub extern "C" fn poll82599_packet_write(
    packets: &mut Handle,
    packet: usize,
    at: usize,
    bytes: &[u8],
) -> u32
    ensures other { as_packets packets.old.held ≡ None → (result ≡ 4294967295) × (packets.new.held ≡ packets.old.held) }
    ensures step { Between (TriedWriteRange result packet at bytes.now) (as_packets packets.old.held) (as_packets packets.new.held) }
{
    step!(packets, Packets(held) => held.write(packet, at, bytes))
}
