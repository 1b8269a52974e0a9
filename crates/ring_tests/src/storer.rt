//! A controller's end that stores segments. It leaves out each call whose condition does not hold.
ghost use Rattle.std.specs.Prelude.{◌≡◌, ◌+◌, ◌<◌, ◌≤◌, true, length};
ghost use Rattle.limits.specs.declared.profile.TheConstants.{BUFFER_BYTES, LEAST_FRAME, MOST_FRAME, MOST_SEGMENTS};
ghost use Rattle.ring_model.specs.shared.Segments.{piece_of};
ghost use Rattle.ring_model.specs.shared.Frames.{join, unfinished};
ghost use Rattle.rx_ring.specs.Ends.{controller_size, stored};
ghost use Rattle.rx_ring.specs.Calls.{IsFreshController};

use limits::{BUFFER_BYTES, LEAST_FRAME, MOST_FRAME, MOST_SEGMENTS};
use rx_ring::{ControllerEnd, RxControllerEnd, RxRing};

/// A controller's end, and the size of the unfinished frame.
#[derive(Drop)]
pub struct Storer {
    pub controller: RxControllerEnd,
    segments: usize,
    bytes: usize,
    ghost counts: { length (unfinished piece_of (stored controller)) ≡ segments },
    ghost adds: { length (join piece_of (unfinished piece_of (stored controller))) ≡ bytes },
    ghost few: { bytes ≤ MOST_FRAME },
}

impl Storer {
    pub fn new(controller: RxControllerEnd) -> Storer
        requires { IsFreshController controller }
        ensures { result.controller ≡ controller }
    {
        Storer {
            controller,
            segments: 0,
            bytes: 0,
        }
    }

    /// Answers a request, if there is one. Returns whether the end then serves.
    pub fn answer(&mut self, ring: &RxRing) -> bool
        requires { self.old.controller.table ≡ ring.now }
        ensures { self.new.controller.table ≡ ring.now }
    {
        self.controller.asked(ring);
        if self.controller.can_answer() {
            let enables = !self.controller.is_serving();
            self.controller.answer(ring);
            if enables {
                self.segments = 0;
                self.bytes = 0;
            }
        }
        self.controller.is_serving()
    }

    /// Stores the quiet word.
    pub fn say_quiet(&mut self, ring: &RxRing)
        requires { self.old.controller.table ≡ ring.now }
        ensures { self.new.controller.table ≡ ring.now }
    {
        if self.controller.is_serving()
            && !self.controller.is_holding()
            && self.controller.is_between_frames()
        {
            self.controller.set_quiet(ring);
        }
    }

    /// Loads the tail. Returns the number of free descriptors, 0 if the end does not serve.
    pub fn free(&mut self, ring: &RxRing) -> u32
        requires { self.old.controller.table ≡ ring.now }
        ensures { self.new.controller.table ≡ ring.now }
    {
        if !self.controller.is_serving() {
            return 0;
        }
        self.controller.look(ring)
    }

    // Whether `len` bytes may follow the unfinished frame.
    fn may_follow(&self, len: usize, eop: bool) -> bool
        ensures some { result ≡ true → (0 < len) × (len ≤ BUFFER_BYTES) }
        ensures segments { result ≡ true → self.now.segments < MOST_SEGMENTS }
        ensures descriptors { result ≡ true → self.now.segments + 1 < controller_size self.now.controller }
        ensures most { result ≡ true → self.now.bytes + len ≤ MOST_FRAME }
        ensures least { result ≡ true → eop ≡ true → LEAST_FRAME ≤ self.now.bytes + len }
    {
        0 < len
            && len <= BUFFER_BYTES
            && self.segments < MOST_SEGMENTS
            && self.segments + 1 < self.controller.size() as usize
            && self.bytes + len <= MOST_FRAME
            && (!eop || LEAST_FRAME <= self.bytes + len)
    }

    /// Stores a segment. Returns whether it could.
    pub fn store(&mut self, ring: &RxRing, bytes: &[u8], eop: bool) -> bool
        requires { self.old.controller.table ≡ ring.now }
        ensures { self.new.controller.table ≡ ring.now }
    {
        if !self.controller.is_serving() || self.controller.is_holding() {
            return false;
        }
        if self.controller.has_finished() || self.controller.look(ring) == 0 {
            return false;
        }
        if !self.may_follow(bytes.len(), eop) {
            return false;
        }
        let mut buf = self.controller.fetch(ring);
        buf.fill(bytes);
        self.controller.write_back(ring, buf, eop);
        if eop {
            self.segments = 0;
            self.bytes = 0;
        } else {
            self.segments += 1;
            self.bytes += bytes.len();
        }
        true
    }

    /// Stores the head.
    pub fn set_head(&mut self, ring: &RxRing)
        requires { self.old.controller.table ≡ ring.now }
        ensures { self.new.controller.table ≡ ring.now }
    {
        if self.controller.is_serving() && !self.controller.is_holding() {
            self.controller.set_head(ring);
        }
    }
}
