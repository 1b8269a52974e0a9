//! The phases of a driver's side.
ghost use Rattle.std.specs.Prelude.{◌≡◌, ◌↔◌, IsTrue};
ghost use Rattle.flows.specs.Driven.{is_over, without_turns};

use forwarding::Ended;

/// How a flow ended, and how many segments were left in its queues when their disablings were answered.
#[derive(Clone, Copy, Debug, PartialEq, Eq)]
pub struct Undelivered {
    /// How the flow ended.
    pub ended: Ended,
    /// Segments stored and not taken.
    pub untaken: u32,
    /// Segments posted and not sent.
    pub unsent: u32,
}

/// The phase of a driver's side with its two queues.
#[derive(Clone, Copy, Debug, PartialEq, Eq)]
pub enum Phase {
    /// The transmit queue is being enabled; the receive queue is not asked for yet.
    EnablingTx,
    /// The transmit queue was seen enabled; the receive queue is being enabled.
    EnablingRx,
    /// Both were seen enabled, with the number of turns since then.
    Forwarding(u32),
    /// Both disablings are asked. For each queue that has answered: how many segments are left in it.
    Disabling(Ended, Option<u32>, Option<u32>),
    /// Both were seen disabled, and the buffers come back.
    Reclaiming(Undelivered),
    /// All buffers are back in the pool.
    Over(Undelivered),
}

impl Phase {
    /// Whether nothing is left to do.
    #[inline]
    pub(crate) fn is_over(self) -> bool
        ensures { result ≡ is_over self }
    {
        matches!(self, Phase::Over(_))
    }

    /// Whether both are the same phase, regardless of the number of turns.
    #[inline]
    pub(crate) fn is_as(self, other: Phase) -> bool
        ensures { IsTrue result ↔ (without_turns self ≡ without_turns other) }
    {
        self.without_turns() == other.without_turns()
    }

    /// The phase with a turn count of 0.
    #[inline]
    fn without_turns(self) -> Phase
        ensures { result ≡ without_turns self }
    {
        match self {
            Phase::Forwarding(_) => Phase::Forwarding(0),
            phase => phase,
        }
    }
}
