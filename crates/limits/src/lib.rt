//! The limits of this project's profile of the 82599, each named once.
//! Depends on no crate.
//! Guarantees the value of each limit, which is proved beside it: a change takes two lines, the constant and its
//! `prove!`.
//!
//! [`is_ring_length`] tests the number of descriptors of a ring, and [`is_fill_size`] the number of bytes to which buffers
//! are filled.
#![tactic(auto)]

mod fill_size;
mod profile;
mod ring_length;

pub use fill_size::is_fill_size;
pub use profile::{
    BUFFER_BYTES, FEWEST_BUFFERS, LEAST_FRAME, LEAST_RING, MOST_BATCH, MOST_BUFFERS, MOST_FRAME,
    MOST_PAIRS, MOST_RING, MOST_RS_EVERY, MOST_SCRIPT_FRAMES, MOST_SEGMENTS, PORTS,
};
pub use ring_length::is_ring_length;
