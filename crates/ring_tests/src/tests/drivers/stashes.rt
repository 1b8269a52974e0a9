//! Reducing the buffers at hand.

use buffer_pool::Stash;

/// Drops buffers until only `buffers` are at hand.
pub(crate) fn cut(stash: &mut Stash, buffers: usize) {
    for _ in 0..stash.len() {
        if stash.len() <= buffers {
            return;
        }
        stash.take();
    }
}
