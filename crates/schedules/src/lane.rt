//! The state of drawing for one queue: its mood, and the progress of its frame.

use crate::chance::Chance;
use crate::weights::Mood;
use limits::{BUFFER_BYTES, LEAST_FRAME, MOST_FRAME};
use ring_machine::{Move, RxStep, SegmentDescriptor, SegmentLength, TxStep};

/// The maximum number of segments of a drawn frame: the room of a ring of 8.
pub(crate) const MOST_SEGMENTS: u32 = 7;

/// The mean number of a queue's moves per mood.
const MOOD_MOVES: u32 = 200;

/// A queue's mood and frame: its length, the bytes left, the most segments for them, and the fill of each buffer.
/// After a frame without RS, the next one is a single segment with RS, so that a ring of 8 drains.
#[derive(Clone, Copy)]
pub(crate) struct Lane {
    mood: Mood,
    bytes: u32,
    left: u32,
    segments: u32,
    fill: u32,
    unreported: bool,
}

/// A random frame length of at most `most` bytes. Most frames are a single segment.
pub(crate) fn frame_bytes(chance: &mut Chance, most: u32) -> u32 {
    let range = match chance.below(4) {
        0 => 51,
        1 => 1487,
        2 => 2035,
        _ => most,
    };
    let more = chance.below(range.max(1));
    more.saturating_add(LEAST_FRAME as u32)
        .min(most)
        .min(MOST_FRAME as u32)
}

impl Lane {
    /// A queue before its first move.
    pub fn new(chance: &mut Chance) -> Lane {
        let room = BUFFER_BYTES as u32;
        let fill = if chance.one_in(2) { room / 2 } else { room };
        let mut lane = Lane {
            mood: Mood::Even,
            bytes: 60,
            left: 60,
            segments: MOST_SEGMENTS,
            fill,
            unreported: false,
        };
        lane.begin(chance);
        lane
    }

    /// The mood of the queue's next move: its own, which changes now and then, or with `any` the one that weighs all
    /// kinds alike.
    pub fn next_mood(&mut self, chance: &mut Chance, any: bool) -> Mood {
        if chance.one_in(MOOD_MOVES) {
            self.mood = Mood::of(chance.below(4));
        }
        if any { Mood::Any } else { self.mood }
    }

    // Begins the next frame.
    fn begin(&mut self, chance: &mut Chance) {
        self.segments = if self.unreported { 1 } else { MOST_SEGMENTS };
        self.bytes = frame_bytes(chance, self.segments.saturating_mul(self.fill));
        self.left = self.bytes;
    }

    // Advances the frame by `len` bytes.
    fn expand(&mut self, chance: &mut Chance, len: u32, eop: bool) {
        if eop {
            self.begin(chance);
        } else {
            self.left = self.left.saturating_sub(len).max(1);
            self.segments = self.segments.saturating_sub(1).max(1);
        }
    }

    /// Whether the next segment is the first of its frame.
    pub fn is_whole(&self) -> bool {
        self.left == self.bytes
    }

    /// The segment that the controller stores next: a full buffer, or the rest of the frame.
    pub fn segment(&self) -> Option<(SegmentLength, bool)> {
        let len = self.left.min(self.fill);
        let len = u16::try_from(len).ok()?;
        Some((SegmentLength::new(len)?, self.left <= self.fill))
    }

    // The length of the next posted segment: any part of the frame, as long as the remaining segments have room for
    // the rest.
    fn posted_bytes(&self, chance: &mut Chance) -> u32 {
        let most = self.left.min(self.fill);
        let room = self.segments.saturating_sub(1).saturating_mul(self.fill);
        if most == 0 || self.left > room || chance.one_in(2) {
            most
        } else {
            chance.below(most).saturating_add(1)
        }
    }

    /// The segment that the driver posts next, in this buffer.
    pub fn posting(&self, chance: &mut Chance, buffer: u16) -> Option<SegmentDescriptor> {
        let len = self.posted_bytes(chance);
        let eop = len == self.left;
        let lone = len == self.bytes && !self.unreported;
        let rs = eop && !(lone && chance.one_in(8));
        SegmentDescriptor::new(
            buffer,
            u16::try_from(len).ok()?,
            eop,
            rs,
            u16::try_from(self.bytes).ok()?,
        )
    }

    /// Records a stored segment.
    pub fn stored(&mut self, chance: &mut Chance, len: SegmentLength, eop: bool) {
        self.expand(chance, u32::from(len.bytes()), eop);
    }

    /// Records a move of the queue.
    pub fn made(&mut self, chance: &mut Chance, action: &Move) {
        match action {
            Move::Receive(_, RxStep::Store(len, eop)) => self.stored(chance, *len, *eop),
            Move::Transmit(_, TxStep::Post(posting)) => {
                if posting.eop() {
                    self.unreported = !posting.rs();
                }
                self.expand(chance, u32::from(posting.len()), posting.eop());
            }
            Move::Receive(_, RxStep::ClearTail) | Move::Transmit(_, TxStep::ClearTail) => {
                self.unreported = false;
                self.begin(chance);
            }
            _ => {}
        }
    }
}
