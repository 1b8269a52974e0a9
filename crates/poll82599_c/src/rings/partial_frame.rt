//! How much of an unfinished frame an end has begun, and what may follow.
ghost use Rattle.std.specs.Prelude.{◌≡◌, ◌+◌, ◌≤◌, true, false};
ghost use Rattle.limits.specs.declared.profile.TheConstants.{BUFFER_BYTES, MOST_FRAME, MOST_SEGMENTS};
ghost use Rattle.poll82599_c.specs.rings.Following.{CanFollow, CanPost};

use limits::{BUFFER_BYTES, LEAST_FRAME, MOST_FRAME, MOST_SEGMENTS};

/// How many segments the unfinished frame has so far, and how many bytes they have together.
#[derive(Clone, Copy)]
pub(crate) struct PartialFrame {
    pub(crate) segments: usize,
    pub(crate) bytes: usize,
}

/// The fields of a transmit descriptor besides its length: EOP, RS, and PAYLEN, the whole frame's length in bytes.
#[derive(Clone, Copy)]
pub(crate) struct Asking {
    pub(crate) eop: bool,
    pub(crate) rs: bool,
    pub(crate) paylen: u32,
}

impl PartialFrame {
    /// No segment.
    pub(crate) fn none() -> PartialFrame
        ensures segments { result.segments ≡ 0 }
        ensures bytes { result.bytes ≡ 0 }
    {
        PartialFrame {
            segments: 0,
            bytes: 0,
        }
    }

    /// Whether a segment of `len` bytes may follow in a ring of `ring` descriptors, and end the frame if `eop`.
    pub(crate) fn can_follow(self, len: usize, eop: bool, ring: u32) -> bool
        ensures can { result ≡ true → CanFollow ring self len eop }
        ensures cannot { result ≡ false → ¬ CanFollow ring self len eop }
    {
        if len == 0 || BUFFER_BYTES < len {
            return false;
        }
        if self.segments >= MOST_SEGMENTS || ring as usize <= self.segments + 1 {
            return false;
        }
        if MOST_FRAME < self.bytes || MOST_FRAME - self.bytes < len {
            return false;
        }
        !eop || LEAST_FRAME <= self.bytes + len
    }

    /// Whether a segment of `len` bytes may be posted with these fields in a ring of `ring` descriptors. Does not
    /// compare PAYLEN with that of the segments before.
    pub(crate) fn can_post(self, len: usize, ask: &Asking, ring: u32) -> bool
        ensures can { result ≡ true → CanPost ring self len ask.now.eop ask.now.rs ask.now.paylen }
        ensures cannot { result ≡ false → ¬ CanPost ring self len ask.now.eop ask.now.rs ask.now.paylen }
    {
        if !self.can_follow(len, ask.eop, ring) || (ask.rs && !ask.eop) {
            return false;
        }
        let paylen = ask.paylen as usize;
        if paylen < LEAST_FRAME || MOST_FRAME < paylen {
            return false;
        }
        let after = self.bytes + len;
        if ask.eop {
            after == paylen
        } else {
            after <= paylen
        }
    }

    /// Adds a segment of `len` bytes.
    pub(crate) fn with(self, len: usize) -> PartialFrame
        requires segments { self.segments + 1 ≤ MOST_SEGMENTS }
        requires bytes { self.bytes + len ≤ MOST_FRAME }
        ensures segments { result.segments ≡ self.segments + 1 }
        ensures bytes { result.bytes ≡ self.bytes + len }
    {
        PartialFrame {
            segments: self.segments + 1,
            bytes: self.bytes + len,
        }
    }
}
