//! Buffers, packets, stashes and stocks.

mod packets;
mod stocks;
