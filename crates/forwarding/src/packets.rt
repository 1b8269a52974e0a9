//! The change that a forwarder makes to a frame.
ghost use Rattle.std.specs.Prelude.{◌≤◌, All, length};
ghost use Rattle.buffer_pool.specs.Packed.{IsPacket};
ghost use Rattle.forwarding.specs.Touching.{Touched, TouchedFrom};

use buffer_pool::Packet;

/// Increments byte 1 of the packet, counted from 0, modulo 256.
#[inline]
pub fn touch(packet: &mut Packet)
    requires { IsPacket packet.old }
    ensures { Touched packet.old packet.new }
{
    let byte = packet.byte(1);
    packet.set_byte(1, byte.wrapping_add(1));
}

/// Touches the packets from `first` on.
#[inline]
pub(crate) fn touch_from(packets: &mut [Packet], first: usize)
    requires packets { All IsPacket packets.old }
    requires first { first ≤ length packets.old }
    ensures { TouchedFrom first packets.old packets.new }
{
    for i in first..packets.len() {
        touch(&mut packets[i]);
    }
}
