//! Makes the frame that a run passes, and the buffers.
ghost use Rattle.std.specs.Prelude.{◌≡◌, ◌≤◌, [], length, replicate, IfOk};
ghost use Rattle.buffer_pool.specs.Stocked.{Shares};
ghost use Rattle.ring_bench.specs.Copies.{IsFrameLength};

use anyhow::{Result, bail};
use buffer_pool::{STASH_BUFFERS, Stock};
use limits::{BUFFER_BYTES, FEWEST_BUFFERS, LEAST_FRAME};
use std::alloc::Global;

/// Each byte of a frame.
pub const BYTE: u8 = 0xab;

/// Makes a frame of `size` bytes. Refuses if it is too short or does not fit into one buffer.
pub fn frame_of(alloc: Global, size: usize) -> Result<Vec<u8>>
    ensures bytes { IfOk result (λ frame. frame.items ≡ replicate size BYTE) }
    ensures length { IfOk result (λ frame. IsFrameLength (length frame.items)) }
{
    if size < LEAST_FRAME || BUFFER_BYTES < size {
        bail!("frame length");
    }
    Ok(vec![in alloc; BYTE; size]?)
}

/// Makes at least as many buffers as a ring has descriptors.
pub fn stock_for(alloc: Global, ring: u32) -> Result<Stock>
    ensures full { IfOk result (λ stock. Shares stock []) }
    ensures enough { IfOk result (λ stock. ring ≤ length stock.numbers) }
{
    Ok(Stock::new(alloc, 0, ring.max(FEWEST_BUFFERS))?)
}

/// Makes buffers for each descriptor of a ring, and for a stash beside it.
pub fn spare_for(alloc: Global, ring: u32) -> Result<Stock> {
    Ok(Stock::new(alloc, 0, ring.saturating_add(STASH_BUFFERS as u32))?)
}
