//! The plan of a list of moves.

use crate::thresholds::Thresholds;
use ring_model::Completion;

/// The queues that a list of moves is drawn for, its length, and how many of its moves may be refused.
#[derive(Clone, Copy)]
pub struct SchedulePlan {
    /// Pairs of a receive and a transmit queue, 1 to 8.
    pub pairs: u32,
    /// Descriptors per ring, a power of two from 8 to 4,096.
    pub ring: u32,
    /// Whether the queues begin enabled.
    pub enabled: bool,
    /// How the transmit queues report.
    pub completion: Completion,
    /// The number of moves.
    pub moves: u32,
    /// The maximum percentage of moves that do not happen, 0 to 100. With a driver it counts as 0.
    pub refused: u32,
    /// If set, only moves are drawn that silicon and its driver make too: none of the handshake, the quiet word,
    /// reclaiming, or renewal.
    pub device_only: bool,
    /// If set, the moves of a poll-mode driver with these thresholds, which [fit](Thresholds::fit) the ring, and between
    /// its calls moves of the device. The queues begin enabled and report by DD. With other thresholds or queues, a
    /// driver cannot follow the list.
    pub driver: Option<Thresholds>,
}
