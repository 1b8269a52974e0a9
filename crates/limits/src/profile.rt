//! The limits and their values.

/// The least number of descriptors of a ring. Ring lengths are powers of two.
pub const LEAST_RING: usize = 8;

const _: () = prove!(LEAST_RING == 8);

/// The greatest number of descriptors of a ring.
pub const MOST_RING: usize = 4_096;

const _: () = prove!(MOST_RING == 4_096);

/// The greatest number of queue pairs of a port. They are numbered from 0.
pub const MOST_PAIRS: usize = 8;

const _: () = prove!(MOST_PAIRS == 8);

/// The number of ports. They are numbered from 0.
pub const PORTS: usize = 2;

const _: () = prove!(PORTS == 2);

/// The number of bytes that fit into a buffer, and so the greatest length of a segment: the reset value of
/// SRRCTL.BSIZEPACKET, 2 KB.
pub const BUFFER_BYTES: usize = 2_048;

const _: () = prove!(BUFFER_BYTES == 2_048);

/// The least number of buffers of a stock.
pub const FEWEST_BUFFERS: u32 = 16;

const _: () = prove!(FEWEST_BUFFERS == 16);

/// The greatest number of buffers of a stock. They are numbered 0 to 65,535.
pub const MOST_BUFFERS: u32 = 65_536;

const _: () = prove!(MOST_BUFFERS == 65_536);

/// The least number of bytes of a frame: an Ethernet header.
pub const LEAST_FRAME: usize = 14;

const _: () = prove!(LEAST_FRAME == 14);

/// The greatest number of bytes of a frame, without CRC.
pub const MOST_FRAME: usize = 15_000;

const _: () = prove!(MOST_FRAME == 15_000);

/// The greatest number of segments of a frame: `MOST_FRAME` bytes in buffers filled to 1,024.
pub const MOST_SEGMENTS: usize = 15;

const _: () = prove!(MOST_SEGMENTS == 15);

/// The maximum number of packets of a driver's batch, and of a list of packets.
pub const MOST_BATCH: usize = 32;

const _: () = prove!(MOST_BATCH == 32);

/// The greatest report interval of a driver, in frames.
pub const MOST_RS_EVERY: u16 = 4_096;

const _: () = prove!(MOST_RS_EVERY == 4_096);

/// The greatest number of frames of a wire script.
pub const MOST_SCRIPT_FRAMES: usize = 1_000_000;

const _: () = prove!(MOST_SCRIPT_FRAMES == 1_000_000);
