//! Frames with recognizable lengths and bytes.
ghost use Rattle.std.specs.Prelude.{◌≤◌};

use limits::BUFFER_BYTES;

/// Returns the length of frame `k`, which fits into one buffer.
pub fn frame_len(k: u32) -> usize
    ensures { (14 ≤ result) × (result ≤ 2048) }
{
    14 + (k.wrapping_mul(463) % 2_035) as usize
}

// Byte `i` of frame `k`.
fn frame_byte(k: u32, i: usize) -> u8 {
    ((i % 251 + k as usize % 241) % 256) as u8
}

/// Returns the bytes of frame `k`, followed by others up to a full buffer.
pub fn frame(k: u32) -> [u8; BUFFER_BYTES] {
    let mut bytes = [0; BUFFER_BYTES];
    for (i, byte) in bytes.iter_mut().enumerate() {
        *byte = frame_byte(k, i);
    }
    bytes
}

/// Whether these are exactly the bytes of frame `k`.
pub fn is_frame(k: u32, bytes: &[u8]) -> bool {
    bytes == &frame(k)[..frame_len(k)]
}
