//! Both ends of a receive ring, each in its own thread: the device stores frames, and the driver takes them.
//!
//! `device_thread` is the controller's thread, and `driver_thread` the driver's.
ghost use Rattle.std.specs.Prelude.{◌≤◌, length};

mod device_thread;
mod driver_thread;

use crate::stash::filled;
use anyhow::Result;
use device_thread::serve;
use driver_thread::drive;
use rx_ring::{RxRing, meet_rx};
use std::alloc::Global;
use std::sync::Wait;
use std::thread;
use std::thread::Threads;

/// A frame of 14 bytes: the destination's address, the source's, and a type.
pub const FRAME: [u8; 14] = [2, 0, 0, 0, 0, 1, 2, 0, 0, 0, 0, 2, 0x88, 0xb5];

/// The number of frames to pass.
pub const FRAMES: u32 = 1000;

/// The number of the driver's buffers.
const BUFFERS: u32 = 16;

/// Passes the frame `frames` times through a ring of 8. Returns how many frames the driver took.
pub fn pass<R: Threads + Wait + Sync>(
    rt: &R,
    alloc: Global,
    frame: &[u8],
    frames: u32,
) -> Result<u32>
    requires { (14 ≤ length frame.now) × (length frame.now ≤ 2048) }
{
    let stash = filled(alloc, BUFFERS)?;
    let (ring, driver, controller) = RxRing::new(alloc, 8)?;
    let (mut controller, (mut driver, taken)) = thread::join(
        rt,
        || serve(rt, &ring, frame, frames, controller),
        || drive(rt, &ring, driver, stash, frames),
    );
    // the driver took a beginning of what was stored, byte for byte
    meet_rx(&ring, &mut driver, &mut controller);
    Ok(taken)
}
