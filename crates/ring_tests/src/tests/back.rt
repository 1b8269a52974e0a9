//! The buffers that come back from a ring of 16 buffers after two threads used it.

use crate::Closed;

/// Counts of the buffers that the closed ring returned.
#[derive(Clone, Copy)]
pub(crate) struct Back {
    /// How many were in the ring.
    pub lying: usize,
    /// How many were spare.
    pub at_hand: usize,
    /// Whether the controller held one.
    pub held: bool,
    /// Whether each came back exactly once.
    pub is_whole: bool,
}

impl Back {
    pub(crate) fn of(closed: Closed) -> Back {
        Back {
            lying: closed.lying(),
            at_hand: closed.spare.len(),
            held: closed.held.is_some(),
            is_whole: closed.has_each_once(16),
        }
    }
}
