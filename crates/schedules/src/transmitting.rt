//! The transmit queue of a poll-mode driver: the moves of its calls, and of the device between them.

use crate::chance::Chance;
use crate::lane::{MOST_SEGMENTS, frame_bytes};
use arrayvec::ArrayVec;
use limits::BUFFER_BYTES;
use ring_machine::{SegmentDescriptor, TxStep};
use ring_model::Note;
use settings::Thresholds;
use std::alloc::{AllocError, Global};

/// The number of buffers that the posts of a transmit queue go through.
const BUFFERS: u16 = 32_768;

/// The first of these buffers.
const FIRST_BUFFER: u16 = 32_768;

/// The weights of the device's moves: look, fetch, send, report.
const WEIGHTS: [u32; 4] = [4, 16, 16, 16];

/// The maximum number of frames of a call.
const MOST_FRAMES: usize = 8;

/// A frame that a call posts.
#[derive(Clone, Copy, Default)]
struct Frame {
    /// Its length in bytes.
    bytes: u32,
    /// The bytes that are not posted.
    left: u32,
    /// The length of all its segments but the last.
    piece: u32,
    /// Whether its last segment requests a report (RS).
    reports: bool,
}

impl Frame {
    /// A random frame.
    fn new(chance: &mut Chance) -> Frame {
        let room = BUFFER_BYTES as u32;
        let piece = if chance.one_in(2) { room / 2 } else { room };
        let bytes = frame_bytes(chance, MOST_SEGMENTS.saturating_mul(piece));
        Frame {
            bytes,
            left: bytes,
            piece,
            reports: false,
        }
    }

    /// The number of its segments.
    fn segments(&self) -> u32 {
        self.bytes
            .saturating_add(self.piece.saturating_sub(1))
            .checked_div(self.piece)
            .unwrap_or(1)
    }

    /// The descriptor of its next segment, with this buffer.
    fn descriptor(&self, buffer: u16) -> Option<SegmentDescriptor> {
        let len = u16::try_from(self.left.min(self.piece)).ok()?;
        let paylen = u16::try_from(self.bytes).ok()?;
        let eop = self.left <= self.piece;
        SegmentDescriptor::new(buffer, len, eop, eop && self.reports, paylen)
    }
}

/// What the driver keeps for a place of the ring.
#[derive(Clone, Copy)]
struct Place {
    /// The place of the last segment of its frame.
    last: u32,
    /// Whether its descriptor requests a report that the driver has not loaded.
    reports: bool,
    /// Whether the device has reported it.
    reported: bool,
}

/// A transmit queue: what its driver keeps, and what remains of the call in progress.
#[derive(Drop)]
pub(crate) struct Transmitter {
    thresholds: Thresholds,
    /// The ring length less 1. Ring lengths are powers of two.
    mask: u32,
    places: Vec<Place>,
    /// The next buffer that is posted, less the first.
    buffer: u16,
    /// The place after the last posted one.
    tail: u32,
    /// The last cleaned place.
    cleaned: u32,
    /// Descriptors that may be posted.
    free: u32,
    /// Descriptors since the last frame that reached the threshold of reports.
    used: u32,
    /// Reports that the call still loads.
    loads: u32,
    /// Descriptors that the call still cleans.
    cleans: u32,
    /// Frames that the call still posts.
    frames: ArrayVec<Frame, MOST_FRAMES>,
    /// Whether the call ends with storing the tail.
    publishes: bool,
}

impl Transmitter {
    /// A queue before its first call. Returns an error only if memory is refused.
    pub fn new(
        alloc: Global,
        thresholds: Thresholds,
        ring: u32,
    ) -> Result<Transmitter, AllocError> {
        let place = Place {
            last: 0,
            reports: false,
            reported: false,
        };
        let mask = ring.saturating_sub(1);
        Ok(Transmitter {
            thresholds,
            mask,
            places: Vec::from_elem(alloc, place, ring as usize)?,
            buffer: 0,
            tail: 0,
            cleaned: mask,
            free: mask,
            used: 0,
            loads: 0,
            cleans: 0,
            frames: ArrayVec::new(),
            publishes: false,
        })
    }

    // The place that is this far after another.
    fn after(&self, place: u32, distance: u32) -> u32 {
        place.wrapping_add(distance) & self.mask
    }

    /// Begins a call with 1 to 8 frames, as many as there is room for, if there is room for the first. It cleans first if
    /// few descriptors are free.
    pub fn begin(&mut self, chance: &mut Chance) {
        let mut frame = Frame::new(chance);
        if !self.has_room(frame.segments()) {
            return;
        }
        if self.free < self.thresholds.clean && !self.clean() && self.thresholds.report == 1 {
            // It polls the oldest report, so the model has a move for it.
            self.loads = 1;
        }
        for _ in 0..chance.below(MOST_FRAMES as u32).saturating_add(1) {
            if !self.plan(frame) {
                break;
            }
            frame = Frame::new(chance);
        }
        if let Some(frame) = self.frames.as_mut_slice().last_mut() {
            frame.reports = true;
            self.publishes = true;
        }
    }

    // Plans to post a frame, if there is room for it. Returns whether there is.
    fn plan(&mut self, mut frame: Frame) -> bool {
        let segments = frame.segments();
        if !self.make_room(segments) {
            return false;
        }
        let used = self.used.saturating_add(segments);
        frame.reports = used >= self.thresholds.report;
        if frame.reports {
            self.request();
        }
        if self.frames.try_push(frame).is_err() {
            return false;
        }
        self.used = if frame.reports { 0 } else { used };
        self.free = self.free.saturating_sub(segments);
        self.place(segments);
        true
    }

    // The last planned frame requests a report.
    fn request(&mut self) {
        if let Some(frame) = self.frames.as_mut_slice().last_mut() {
            frame.reports = true;
        }
    }

    // Records the last place of a frame at each of its places.
    fn place(&mut self, segments: u32) {
        let last = self.after(self.tail, segments.wrapping_sub(1));
        for _ in 0..segments {
            if let Some(place) = self.places.get_mut(self.tail as usize) {
                *place = Place {
                    last,
                    reports: false,
                    reported: false,
                };
            }
            self.tail = self.after(self.tail, 1);
        }
    }

    // Cleans until this many descriptors are free. Does nothing if the reports do not suffice. Returns whether they do.
    fn make_room(&mut self, segments: u32) -> bool {
        if !self.has_room(segments) {
            return false;
        }
        for _ in 0..segments {
            if segments <= self.free || !self.clean() {
                break;
            }
        }
        segments <= self.free
    }

    // Whether this many descriptors are free, or can be cleaned.
    fn has_room(&self, segments: u32) -> bool {
        let (mut cleaned, mut free) = (self.cleaned, self.free);
        for _ in 0..segments {
            if segments <= free {
                return true;
            }
            let Some(last) = self.polled(cleaned) else {
                return false;
            };
            free = free.saturating_add(last.wrapping_sub(cleaned) & self.mask);
            cleaned = last;
        }
        segments <= free
    }

    // Cleans up to the last place of a frame: that of the descriptor as far after the last cleaned one as the threshold
    // of reports says. Returns whether its report was there.
    fn clean(&mut self) -> bool {
        match self.polled(self.cleaned) {
            Some(last) => {
                self.clean_to(last);
                true
            }
            None => false,
        }
    }

    // The place whose report the driver polls after it has cleaned up to another, if it is reported.
    fn polled(&self, cleaned: u32) -> Option<u32> {
        let at = self.after(cleaned, self.thresholds.report);
        let last = self.places.get(at as usize)?.last;
        if self.places.get(last as usize)?.reported {
            Some(last)
        } else {
            None
        }
    }

    // Plans to load the requested reports up to a place, and to clean the descriptors.
    fn clean_to(&mut self, last: u32) {
        for _ in 0..last.wrapping_sub(self.cleaned) & self.mask {
            self.cleaned = self.after(self.cleaned, 1);
            if let Some(place) = self.places.get_mut(self.cleaned as usize) {
                self.loads = self.loads.saturating_add(u32::from(place.reports));
                place.reports = false;
                place.reported = false;
            }
            self.cleans = self.cleans.saturating_add(1);
            self.free = self.free.saturating_add(1);
        }
    }

    /// The next move of the call in progress.
    pub fn pending(&self) -> Option<TxStep<SegmentDescriptor>> {
        if self.loads > 0 {
            Some(TxStep::LoadReport)
        } else if self.cleans > 0 {
            Some(TxStep::Clean)
        } else if let Some(frame) = self.frames.as_slice().first() {
            let buffer = FIRST_BUFFER.wrapping_add(self.buffer);
            Some(TxStep::Post(frame.descriptor(buffer)?))
        } else if self.publishes {
            Some(TxStep::Publish)
        } else {
            None
        }
    }

    /// A candidate for the device's next move.
    pub fn device(&self, chance: &mut Chance) -> TxStep<SegmentDescriptor> {
        match chance.place(WEIGHTS.as_slice()) {
            0 => TxStep::Look,
            1 => TxStep::Fetch,
            2 => TxStep::Send,
            _ => TxStep::Report,
        }
    }

    /// Records a move of the queue.
    pub fn made(&mut self, step: &TxStep<SegmentDescriptor>, note: &Note) {
        match step {
            TxStep::LoadReport => self.loads = self.loads.saturating_sub(1),
            TxStep::Clean => self.cleans = self.cleans.saturating_sub(1),
            TxStep::Post(posting) => self.posted(posting, note),
            TxStep::Publish => self.publishes = false,
            TxStep::Report => {
                if let Some(place) = self.noted(note) {
                    place.reported = true;
                }
            }
            _ => {}
        }
    }

    // Records the post of a segment.
    fn posted(&mut self, posting: &SegmentDescriptor, note: &Note) {
        self.buffer = self.buffer.wrapping_add(1) % BUFFERS;
        if let Some(place) = self.noted(note) {
            place.reports = posting.rs();
        }
        if posting.eop() {
            let _ = self.frames.pop_at(0);
        } else if let Some(frame) = self.frames.as_mut_slice().first_mut() {
            frame.left = frame.left.saturating_sub(u32::from(posting.len()));
        }
    }

    // The place that a note names.
    fn noted(&mut self, note: &Note) -> Option<&mut Place> {
        match note {
            Note::Place(place) => self.places.get_mut(usize::from(*place)),
            _ => None,
        }
    }
}
