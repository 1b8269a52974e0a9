//! The state of a controller that serves a queue.
ghost use Rattle.std.specs.Prelude.{◌≡◌, ◌≤◌, true, false};
ghost use Rattle.flows.specs.Served.{after, bytes_by, decides};

use controller::Offer;

/// The state of a controller that serves a queue for one epoch.
#[derive(Clone, Copy, Debug, PartialEq, Eq)]
pub enum QueuePhase {
    /// The enabling was not answered yet.
    Waiting,
    /// The enabling was answered.
    Serving,
    /// The disabling was answered: nothing is left to do.
    Ended,
}

impl QueuePhase {
    /// The state that follows, given whether the controller serves the queue now.
    #[inline]
    pub fn after(self, serves: bool) -> QueuePhase
        ensures { result ≡ after self serves }
    {
        match (self, serves) {
            (QueuePhase::Waiting, true) => QueuePhase::Serving,
            (QueuePhase::Serving, false) => QueuePhase::Ended,
            (queue_phase, _) => queue_phase,
        }
    }

    /// Moves to the state that follows, and returns whether it changed.
    #[inline]
    pub(crate) fn go_on(&mut self, serves: bool) -> bool
        ensures { self.new ≡ after self.old serves }
    {
        let next = self.after(serves);
        let moved = next != *self;
        *self = next;
        moved
    }
}

/// Whether this outcome is final, so that the frame is not offered again.
#[inline]
pub(crate) fn is_decided(offer: Offer) -> bool
    ensures { result ≡ decides offer }
{
    matches!(offer, Offer::Stored | Offer::Dropped | Offer::Oversize)
}

/// The bytes that this outcome of a frame of `len` bytes adds to those stored.
#[inline]
pub(crate) fn bytes_by(offer: Offer, len: usize) -> u64
    ensures value { result ≡ bytes_by offer len }
    ensures few { result ≤ len }
{
    match offer {
        Offer::Stored => len as u64,
        Offer::Dropped | Offer::Oversize | Offer::Held | Offer::Off => 0,
    }
}
