//! Parses a frame in hex digits.
ghost use Rattle.std.specs.Prelude.{◌≡◌, ◌⊎◌, IfOk, IfErr};
ghost use Rattle.commands.specs.Frame.{frame_in};

use crate::digits::bytes_of;
use crate::passing::MOST_PASSED;
use limits::LEAST_FRAME;
use requests::Refusal;
use std::alloc::Global;

/// Parses pairs of hex digits of either case as a frame.
///
/// Returns `Hex` if the digits are not pairs of hex digits, `FrameLength` if the frame is shorter than an Ethernet
/// header (14 bytes) or longer than `MOST_PASSED`, and `Memory` if an allocation fails.
pub fn frame_of(alloc: Global, digits: &str) -> Result<Vec<u8>, Refusal>
    ensures ok { IfOk result (λ frame. frame_in digits.now ≡ Ok frame.items) }
    ensures err { IfErr result (λ e. (e ≡ Refusal.Memory) ⊎ (frame_in digits.now ≡ Err e)) }
{
    let frame = bytes_of(alloc, digits)?;
    if frame.len() < LEAST_FRAME || MOST_PASSED < frame.len() {
        return Err(Refusal::FrameLength);
    }
    Ok(frame)
}
