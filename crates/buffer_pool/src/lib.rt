//! Frame buffers, packets of them, and plain stocks of them.
//! Depends on `limits`, `refusals` and `arrayvec`.
//! Guarantees that a buffer is never copied, and that the numbers in a stock together with those that are out are its
//! range, each once.
//!
//! A [`Buf`] is one buffer of a port: its number, which names it on the descriptor rings, and the bytes of one segment.
//! A [`Packet`] is the list of the buffers of one frame, linked on the heap. It takes 24 bytes, and its bytes are read
//! and written by their place in the frame. A [`Stash`] has up to 256 empty buffers, for one worker. A [`Stock`]
//! creates the buffers of a range of numbers, hands them out empty and takes them back.
//!
//! Making a stock and [`Buf::blanks`] allocate; no other call does.
#![tactic(auto)]

mod buf;
mod chain;
mod packet;
mod stash;
mod stock;

pub use buf::Buf;
pub use chain::Segments;
pub use packet::Packet;
pub use refusals::PoolError;
pub use stash::{STASH_BUFFERS, Stash};
pub use stock::Stock;
