//! The texts to measure: a script or a capture. The memory is reserved at once, so that making it leaves no gaps that
//! reading could fill.

ghost use Rattle.std.specs.Prelude.{◌≤◌};
ghost use Rattle.limits.specs.declared.profile.TheConstants.{LEAST_FRAME, MOST_FRAME};

use anyhow::Result;
use capture::{CaptureRecord, write_header, write_record};
use limits::{MOST_FRAME, MOST_PAIRS, PORTS};
use std::alloc::Global;
use wire_script::print_line;

// The next pseudorandom number (Knuth's MMIX constants).
fn next(state: u64) -> u64 {
    state
        .wrapping_mul(6_364_136_223_846_793_005)
        .wrapping_add(1_442_695_040_888_963_407)
}

// Fills a frame with pseudorandom bytes.
fn fill(frame: &mut [u8], number: u32) {
    let mut state = u64::from(number);
    for byte in frame.iter_mut() {
        state = next(state);
        *byte = ((state >> 33) & 0xff) as u8;
    }
}

/// Makes a script of `frames` frames of `length` bytes, at each port and queue in turn.
pub fn script(alloc: Global, frames: u32, length: usize) -> Result<Vec<u8>> {
    let room = length
        .saturating_mul(2)
        .saturating_add(5)
        .saturating_mul(frames as usize);
    let mut text = String::with_capacity(alloc, room)?;
    let mut frame = Vec::from_elem(alloc, 0u8, length)?;
    for number in 0..frames {
        fill(frame.as_mut_slice(), number);
        let at = number as usize;
        let (port, queue) = ((at % PORTS) as u8, (at / PORTS % MOST_PAIRS) as u8);
        print_line(alloc, &mut text, port, queue, frame.as_slice())?;
    }
    Ok(text.into_bytes())
}

/// Makes a capture of `frames` frames of `length` bytes.
pub fn capture(alloc: Global, frames: u32, length: usize) -> Result<Vec<u8>>
    requires least { LEAST_FRAME ≤ length }
    requires greatest { length ≤ MOST_FRAME }
{
    let room = (frames as usize)
        .saturating_mul(length + 16)
        .saturating_add(24);
    let mut bytes = Vec::with_capacity(alloc, room)?;
    let mut frame = [0u8; MOST_FRAME];
    write_header(&mut bytes)?;
    for number in 0..frames {
        fill(&mut frame[..length], number);
        write_record(
            &mut bytes,
            &CaptureRecord::new(number / 1_000_000, number % 1_000_000, &frame[..length]),
        )?;
    }
    Ok(bytes)
}
