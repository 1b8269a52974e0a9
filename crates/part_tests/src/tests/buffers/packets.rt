use crate::tests::wanted::{holds, same};
use buffer_pool::{Buf, Packet, Stock};
use std::alloc::Global;
use std::process::Abort;

// Byte `i` of a new packet.
fn byte_at(i: usize) -> u8 {
    (i % 251) as u8
}

// The `len` bytes of a packet from `at` on.
fn bytes_from<R: Abort>(rt: &R, alloc: Global, at: usize, len: usize) -> Vec<u8> {
    let mut bytes = Vec::new(alloc);
    for k in 0..len {
        bytes
            .push(byte_at(at.wrapping_add(k)))
            .expect(rt, "a byte's room");
    }
    bytes
}

// Adds a buffer with these bytes to the packet, which has room for it.
fn add(packet: &mut Packet, mut buf: Buf, bytes: &[u8]) {
    if bytes.is_empty() || bytes.len() > buf.capacity() || packet.segments() == 15 {
        return;
    }
    buf.fill(bytes);
    packet.push_back(buf);
}

// Adds the packet's next segment, of `len` bytes, in the next buffer of the stock.
fn grow<R: Abort>(rt: &R, alloc: Global, packet: &mut Packet, stock: &mut Stock, len: usize) {
    let bytes = bytes_from(rt, alloc, packet.len(), len);
    let buf = stock.take().expect(rt, "a buffer");
    add(packet, buf, &bytes);
}

// A packet with segments of these lengths, in buffers numbered from 100.
fn grown<R: Abort>(rt: &R, alloc: Global, lengths: &[usize]) -> Packet {
    let mut stock = Stock::new(alloc, 100, 16).expect(rt, "a stock");
    let mut packet = Packet::default();
    for len in lengths {
        grow(rt, alloc, &mut packet, &mut stock, *len);
    }
    packet
}

// The same packet, which is complete.
fn packet<R: Abort>(rt: &R, alloc: Global, lengths: &[usize]) -> Packet {
    let packet = grown(rt, alloc, lengths);
    holds(rt, packet.is_whole());
    remade(packet)
}

// The packet, made again from its buffers if it is complete.
fn remade(packet: Packet) -> Packet {
    if packet.is_whole() {
        Packet::new(packet.into_bufs())
    } else {
        packet
    }
}

// Byte `i`, before and after it is overwritten with 255.
fn overwrite(packet: &mut Packet, i: usize) -> Option<(u8, u8)> {
    if i >= packet.len() {
        return None;
    }
    let before = packet.byte(i);
    packet.set_byte(i, 255);
    if i < packet.len() {
        Some((before, packet.byte(i)))
    } else {
        None
    }
}

// What is wrong with a packet of segments of these lengths and with its copy, if anything.
fn fault_of(
    packet: &mut Packet,
    copy: &[u8],
    lengths: &[usize],
    len: usize,
) -> Option<&'static str> {
    if packet.len() != len || packet.segments() != lengths.len() {
        Some("size")
    } else if !is_copy(copy, len) {
        Some("byte")
    } else if !has_lengths(packet, lengths) {
        Some("segment")
    } else if overwrite(packet, len).is_some() {
        Some("end")
    } else {
        None
    }
}

// What is wrong with a new packet of segments of these lengths, if anything.
fn fault<R: Abort>(rt: &R, alloc: Global, lengths: &[usize], len: usize) -> Option<&'static str> {
    let mut packet = packet(rt, alloc, lengths);
    let mut copy = Vec::from_elem(alloc, 9u8, packet.len().max(1) + 1).expect(rt, "a copy");
    packet.copy_to(copy.as_mut_slice());
    fault_of(&mut packet, &copy, lengths, len)
}

// Byte `i` of the copy of a packet of `len` bytes: 9 after them.
fn copied(i: usize, len: usize) -> u8 {
    if i < len { byte_at(i) } else { 9 }
}

// Whether the copy has the first `len` bytes of a packet and is unchanged after them.
fn is_copy(copy: &[u8], len: usize) -> bool {
    for (i, byte) in copy.iter().enumerate() {
        if *byte != copied(i, len) {
            return false;
        }
    }
    true
}

// Whether a packet's segments have these lengths.
fn has_lengths(packet: &Packet, lengths: &[usize]) -> bool {
    for (segment, want) in packet.iter().zip(lengths.iter()) {
        if segment.len() != *want {
            return false;
        }
    }
    true
}

// The lengths of a packet's segments, and its length.
const PACKETS: &[(&[usize], usize)] = &[
    (&[14], 14),
    (&[2_048], 2_048),
    (&[1, 13], 14),
    (&[1; 14], 14),
    (&[1_000; 15], 15_000),
];

#[test]
fn bytes_are_those_of_the_segments_in_order(rt: HostRuntime) {
    for (lengths, len) in PACKETS {
        let fault = fault(&rt, rt.alloc(), lengths, *len);
        same(&rt, (*lengths, fault), (*lengths, None));
    }
}

// A buffer's number and length, its first and last byte, and how many of its bytes are 255.
type Edges = (u16, usize, Option<u8>, Option<u8>, usize);

// How many of the bytes are 255.
fn overwritten(bytes: &[u8]) -> usize {
    let mut count = 0usize;
    for byte in bytes {
        if *byte == 255 {
            count = count.saturating_add(1);
        }
    }
    count
}

// The edges of the packet's next buffer, if there is one.
fn next_edges(packet: &mut Packet) -> Option<Edges> {
    let buf = packet.pop_front()?;
    let bytes = buf.bytes();
    let (first, last) = (bytes.first().copied(), bytes.last().copied());
    Some((buf.number(), buf.len(), first, last, overwritten(bytes)))
}

// Checks that byte `i` is read and overwritten.
fn is_overwritten<R: Abort>(rt: &R, packet: &mut Packet, i: usize) {
    let told = overwrite(packet, i);
    same(rt, (i, told), (i, Some((byte_at(i), 255))));
}

// The first and last byte of each segment, and the buffers that hold them afterwards.
const AT_EDGES: &[usize] = &[0, 1, 2, 2_049, 2_050, 2_051, 3_050];

const OVERWRITTEN: &[Edges] = &[
    (100, 2, Some(255), Some(255), 2),
    (101, 2_048, Some(255), Some(255), 2),
    (102, 1, Some(255), Some(255), 1),
    (103, 1_000, Some(255), Some(255), 2),
];

#[test]
fn a_byte_at_each_edge_is_read_and_written(rt: HostRuntime) {
    let mut packet = packet(&rt, rt.alloc(), &[2, 2_048, 1, 1_000]);
    for i in AT_EDGES {
        is_overwritten(&rt, &mut packet, *i);
    }
    for wanted in OVERWRITTEN {
        same(&rt, next_edges(&mut packet), Some(*wanted));
    }
    same(&rt, next_edges(&mut packet), None);
    holds(&rt, packet.is_empty());
}

// The length of a packet's only segment, and whether it is complete.
const OF_ONE_SEGMENT: &[(usize, bool)] = &[(13, false), (14, true), (2_048, true)];

#[test]
fn only_lawful_packets_are_whole(rt: HostRuntime) {
    holds(&rt, !Packet::default().is_whole());
    for (len, wanted) in OF_ONE_SEGMENT {
        let is_whole = grown(&rt, rt.alloc(), &[*len]).is_whole();
        same(&rt, (*len, is_whole), (*len, *wanted));
    }
}
