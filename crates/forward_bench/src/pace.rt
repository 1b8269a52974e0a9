//! Offers of frames at a constant rate, and the latency of each frame.

use std::alloc::{AllocError, Global};
use std::io;
use std::rt::Clock;
use std::time::Duration;

/// Says when each frame of a flow is due, and notes its latency: the time from its first offer until it is sent. Frames
/// are sent in the order of their offers.
#[derive(Drop)]
pub(crate) struct Pace {
    clock: HostRuntime,
    /// The time between two frames.
    gap: Duration,
    /// When the next frame is due. The first one is due when the flow can offer it.
    due: Option<Duration>,
    /// When the next frame was first offered. It is offered again until it is stored.
    offer: Option<Duration>,
    /// The latency of each frame that was sent, then the time of the first offer of each other frame that was stored.
    times: Vec<Duration>,
    /// How many frames were stored.
    stored: usize,
    /// How many frames were sent.
    sent: usize,
}

impl Pace {
    /// A pace for `frames` frames, with this time between two of them.
    pub(crate) fn new(
        alloc: Global,
        clock: HostRuntime,
        gap: Duration,
        frames: usize,
    ) -> Result<Pace, AllocError> {
        Ok(Pace {
            clock,
            gap,
            due: None,
            offer: None,
            times: Vec::from_elem(alloc, Duration::ZERO, frames)?,
            stored: 0,
            sent: 0,
        })
    }

    /// Whether the next frame is due. It must then be offered at once, until it is stored.
    ///
    /// After a late frame the next ones are due at their own times, so a delay does not lower the rate.
    pub(crate) fn is_due(&mut self) -> io::Result<bool> {
        if self.offer.is_some() {
            return Ok(true);
        }
        let now = self.clock.monotonic()?;
        let due = self.due.unwrap_or(now);
        if now < due {
            return Ok(false);
        }
        self.due = Some(due.saturating_add(self.gap));
        self.offer = Some(now);
        Ok(true)
    }

    /// Notes that the frame that was due is stored.
    pub(crate) fn note_stored(&mut self) {
        let Some(offer) = self.offer.take() else {
            return;
        };
        if let Some(time) = self.times.get_mut(self.stored) {
            *time = offer;
        }
        self.stored = self.stored.saturating_add(1);
    }

    /// Notes that the next frame is sent.
    pub(crate) fn note_sent(&mut self) -> io::Result<()> {
        let now = self.clock.monotonic()?;
        if let Some(time) = self.times.get_mut(self.sent) {
            *time = now.saturating_sub(*time);
        }
        self.sent = self.sent.saturating_add(1);
        Ok(())
    }

    /// The latencies, the shortest first, once all frames are sent.
    pub(crate) fn into_latencies(self) -> Vec<Duration> {
        let mut latencies = self.times;
        latencies.sort_unstable();
        latencies
    }
}
