//! The lists that `schedules --cover` prints.

use crate::replay::ReplayOutput;
use ring_model::Completion;

/// Lists of moves that together meet all pairs of a receive and of a transmit queue of 8.
#[derive(Clone, Copy)]
pub struct CoverRequest {
    /// How the transmit queue reports.
    pub completion: Completion,
    /// The form in which `replay` prints the outcome after each list; `None` for nothing.
    pub expect: Option<ReplayOutput>,
    /// If set, queues begin enabled, and only moves are made that silicon and its driver make too. Otherwise queues
    /// begin never enabled, and all moves are made.
    pub device_only: bool,
}
