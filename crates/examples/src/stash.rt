//! A worker's buffers.

use anyhow::Result;
use buffer_pool::{Stash, Stock};
use limits::BUFFER_BYTES;
use std::alloc::Global;

/// Makes a stash of `count` empty buffers.
pub fn filled(alloc: Global, count: u32) -> Result<Stash> {
    let mut stock = Stock::new(alloc, 0, count)?;
    let mut stash = Stash::new();
    for _ in 0..count {
        if let Some(buf) = stock.take() {
            if buf.capacity() == BUFFER_BYTES {
                let _ = stash.put(buf);
            }
        }
    }
    Ok(stash)
}
