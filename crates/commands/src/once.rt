//! The command `once`: passes a frame through a receive ring, and prints the packet that the driver took.
ghost use Rattle.std.specs.Prelude.{◌≡◌, ◌⊎◌, IfErr, IfOk};
ghost use Rattle.std.specs.String.{string_bytes};
ghost use Rattle.buffer_pool.specs.Packed.{bytes_of};
ghost use Rattle.commands.specs.Answers.{line_of, once_answer, IsOnceRefused};
ghost use Rattle.commands.specs.Frame.{frame_in};

use crate::frame::frame_of;
use crate::passing::{PassedFrame, pass};
use buffer_pool::Packet;
use requests::Refusal;
use std::alloc::{AllocError, Global};
use std::sync::Wait;
use std::thread::Threads;

/// Passes the frame of these hex digits through a receive ring, and returns the line of the frame that was taken.
pub fn once<R: Threads + Wait + Sync>(
    rt: &R,
    alloc: Global,
    digits: &str,
) -> Result<String, Refusal>
    ensures ok { IfOk result (λ line. once_answer digits.now ≡ Ok (string_bytes line)) }
    ensures err { IfErr result (λ e. (e ≡ Refusal.Memory) ⊎ IsOnceRefused (frame_in digits.now) e) }
{
    let frame = frame_of(alloc, digits)?;
    let passage = pass(rt, alloc, frame.as_slice())?;
    Ok(taken_line(alloc, &passage)?)
}

/// Returns the bytes of the packet that the driver took, as a line of lower case hex digits. They are read from that
/// packet alone.
fn taken_line(alloc: Global, passage: &PassedFrame) -> Result<String, AllocError>
    ensures { IfOk result (λ line. string_bytes line ≡ line_of (bytes_of passage.now.packet)) }
{
    let bytes = joined(alloc, &passage.packet)?;
    let mut line = hex::encode(alloc, bytes.as_slice())?;
    line.push('\n')?;
    Ok(line)
}

/// Returns the joined bytes of a packet's segments.
fn joined(alloc: Global, packet: &Packet) -> Result<Vec<u8>, AllocError>
    ensures { IfOk result (λ bytes. bytes.items ≡ bytes_of packet.now) }
{
    let mut bytes = Vec::with_capacity(alloc, packet.len())?;
    for segment in packet.iter() {
        bytes.extend_from_slice(segment)?;
    }
    Ok(bytes)
}
