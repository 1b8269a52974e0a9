//! The receive queue of a poll-mode driver: the moves of its calls, and of the device between them.

use crate::chance::Chance;
use crate::lane::Lane;
use limits::BUFFER_BYTES;
use ring_machine::{RxStep, SegmentLength};
use ring_model::Note;
use settings::Thresholds;

/// The number of buffers that the posts of a receive queue go through, from 0.
const BUFFERS: u16 = 32_768;

/// The weights of the device's moves: look, fetch, store, head.
const WEIGHTS: [u32; 4] = [4, 16, 16, 2];

/// The frames that a call may take, each equally likely.
const FRAMES: [u32; 5] = [1, 1, 1, 4, 32];

/// The lengths of single segments, each as likely as a random one.
const LENGTHS: [u16; 3] = [1, 60, BUFFER_BYTES as u16];

/// A receive queue: what its driver keeps, and what remains of the call in progress.
#[derive(Clone, Copy)]
pub(crate) struct Receiver {
    /// The driver's threshold.
    refill: u32,
    /// The next buffer that is posted.
    buffer: u16,
    /// Posted descriptors that are not taken.
    posted: u32,
    /// Taken descriptors that are not posted again.
    held: u32,
    /// Frames that the call still takes.
    frames: u32,
    /// Descriptors that the call still posts.
    posts: u32,
    /// Whether the call ends with storing the tail.
    publishes: bool,
    /// The frame that the device stores.
    lane: Lane,
}

// A random length of a frame of a single segment.
fn single(chance: &mut Chance) -> Option<SegmentLength> {
    let any = chance.below(BUFFER_BYTES as u32).saturating_add(1);
    let len = match LENGTHS.get(chance.index(LENGTHS.len() + 1)) {
        Some(len) => *len,
        None => u16::try_from(any).ok()?,
    };
    SegmentLength::new(len)
}

impl Receiver {
    /// A queue before its driver's start, which posts all descriptors but one.
    pub fn new(thresholds: Thresholds, ring: u32, chance: &mut Chance) -> Receiver {
        Receiver {
            refill: thresholds.refill,
            buffer: 0,
            posted: 0,
            held: 0,
            frames: 0,
            posts: ring.saturating_sub(1),
            publishes: true,
            lane: Lane::new(chance),
        }
    }

    /// Begins a call.
    pub fn begin(&mut self, chance: &mut Chance) {
        if self.posted > 0 {
            self.frames = *FRAMES.get(chance.index(FRAMES.len())).unwrap_or(&1);
        }
    }

    /// The next move of the call in progress.
    pub fn pending(&self) -> Option<RxStep<SegmentLength>> {
        if self.posts > 0 {
            Some(RxStep::Post(self.buffer))
        } else if self.publishes {
            Some(RxStep::Publish)
        } else if self.frames > 0 {
            Some(RxStep::Take)
        } else {
            None
        }
    }

    /// A candidate for the device's next move.
    pub fn device(&self, chance: &mut Chance) -> Option<RxStep<SegmentLength>> {
        match chance.place(WEIGHTS.as_slice()) {
            0 => Some(RxStep::Look),
            1 => Some(RxStep::Fetch),
            2 => self.store(chance),
            _ => Some(RxStep::Head),
        }
    }

    // The segment that the device stores next. At the beginning of a frame, a frame of a single segment is as likely.
    fn store(&self, chance: &mut Chance) -> Option<RxStep<SegmentLength>> {
        if self.lane.is_whole() && chance.one_in(2) {
            return Some(RxStep::Store(single(chance)?, true));
        }
        let (len, eop) = self.lane.segment()?;
        Some(RxStep::Store(len, eop))
    }

    /// Records a move of the queue.
    pub fn made(&mut self, chance: &mut Chance, step: &RxStep<SegmentLength>, note: &Note) {
        match step {
            RxStep::Post(_) => {
                self.posts = self.posts.saturating_sub(1);
                self.posted = self.posted.saturating_add(1);
                self.buffer = self.buffer.wrapping_add(1) % BUFFERS;
            }
            RxStep::Publish => self.publishes = false,
            RxStep::Take => self.take(note),
            RxStep::Store(len, eop) => self.lane.stored(chance, *len, *eop),
            _ => {}
        }
    }

    // Records a look at the next descriptor. The call goes on until it has its frames, or finds none.
    fn take(&mut self, note: &Note) {
        let Note::Taken(Some(segment)) = note else {
            return self.end();
        };
        self.held = self.held.saturating_add(1);
        self.posted = self.posted.saturating_sub(1);
        self.frames = self.frames.saturating_sub(u32::from(segment.eop));
        if self.frames == 0 || self.posted == 0 {
            self.end();
        }
    }

    // Ends the taking: above the threshold, as many descriptors are posted as are held.
    fn end(&mut self) {
        self.frames = 0;
        if self.held > self.refill {
            self.posts = self.held;
            self.publishes = true;
            self.held = 0;
        }
    }
}
