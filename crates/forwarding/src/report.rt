//! The report of a flow.
ghost use Rattle.std.specs.Prelude.{◌≡◌};
ghost use Rattle.forwarding.specs.Reported.{counters_of};

use controller::Wire;
use counters::{Driven, FlowCounters, Tally};
use std::fmt;

/// How a flow ended.
#[derive(Clone, Copy, Debug, PartialEq, Eq)]
pub enum Ended {
    /// All stored frames were taken, all taken ones posted or dropped, and all posted ones sent.
    Drained,
    /// The driver made its number of turns before that.
    Cut,
}

/// The report of a flow: its counts and its wire.
#[derive(Drop)]
pub struct FlowReport {
    /// The frames that were offered, and their outcomes.
    pub tally: Tally,
    /// The bytes of the stored frames.
    pub stored_bytes: u64,
    /// The frames that the driver took, and what became of them.
    pub driven: Driven,
    /// The frames that were sent, in order, if they are kept.
    pub wire: Wire,
    /// The number of frames that were sent.
    pub sent: u64,
    /// The bytes of the sent frames.
    pub sent_bytes: u64,
    /// The segments that were stored and not taken plus those that were posted and not sent.
    pub left: u64,
    /// How the flow ended.
    pub ended: Ended,
}

impl FlowReport {
    /// Returns all counters of the flow.
    pub fn counters(&self) -> FlowCounters
        ensures { result ≡ counters_of self.now }
    {
        FlowCounters {
            tally: self.tally,
            driven: self.driven,
        }
    }
}

impl fmt::Debug for FlowReport {
    /// Writes the counts, and the number of frames on the wire in place of their bytes.
    fn fmt<W: fmt::Write>(&self, f: &mut fmt::Formatter<W>) -> fmt::Result {
        write!(
            f,
            "FlowReport {{ tally: {:?}, stored_bytes: {}, driven: {:?}, wire: {}, sent: {}, sent_bytes: {}, left: {}, ended: {:?} }}",
            self.tally,
            self.stored_bytes,
            self.driven,
            self.wire.len(),
            self.sent,
            self.sent_bytes,
            self.left,
            self.ended
        )
    }
}
