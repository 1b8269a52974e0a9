//! The arguments of moves. Their types keep their ranges.

ghost use Rattle.std.specs.Prelude.{◌≡◌, ◌^◌, ℕ, ◌<◌, ◌≤◌, ◌↔◌, IsSome, IfSome};
ghost use Rattle.limits.specs.declared.profile.TheConstants.{BUFFER_BYTES, LEAST_FRAME, MOST_FRAME};

use limits::{BUFFER_BYTES, LEAST_FRAME, MOST_FRAME};
use std::marker::Model;

/// The length of a segment: 1 to 2,048 bytes.
#[derive(Clone, Copy, PartialEq, Eq)]
pub struct SegmentLength {
    bytes: u16,
}

impl Model for SegmentLength {
    ghost Value = { ℕ };

    ghost view = { λ s. s.bytes };

    ghost invariant = { λ s. (0 < s.bytes) × (s.bytes ≤ BUFFER_BYTES) };

    ghost inverse = { λ n. record { bytes = n } };
}

impl SegmentLength {
    /// Returns a segment length of `bytes`, or `None` outside the range.
    pub fn new(bytes: u16) -> Option<SegmentLength>
        ensures lawful { IsSome result ↔ ((0 < bytes) × (bytes ≤ BUFFER_BYTES)) }
        ensures value { IfSome result (λ s. s ≡ bytes) }
    {
        if 0 < bytes && usize::from(bytes) <= BUFFER_BYTES {
            Some(SegmentLength { bytes })
        } else {
            None
        }
    }

    /// Returns the number of bytes.
    pub fn bytes(self) -> u16
        ensures value { result ≡ self }
        ensures some { 0 < result }
        ensures few { result ≤ BUFFER_BYTES }
    {
        self.bytes
    }
}

/// The contents of a posted transmit descriptor: the buffer's number, its length of 1 to 2,048 bytes, whether it ends
/// the frame, whether it asks for a report (only at the end of a frame), and the frame's length, 14 to 15,000 bytes.
#[derive(Clone, Copy, PartialEq, Eq)]
pub struct SegmentDescriptor {
    number: u16,
    len: u16,
    eop: bool,
    rs: bool,
    paylen: u16,
}

impl Model for SegmentDescriptor {
    ghost use Rattle.std.specs.Prelude.{◌≡◌, ℕ, ◌<◌, ◌≤◌};
    ghost use Rattle.ring_model.specs.transmit.Ring.{Posting, new_posting};

    ghost Value = { Posting ℕ };

    ghost view = { λ d. new_posting d.number d.len d.eop d.rs d.paylen };

    ghost use Rattle.ring_machine.specs.text.Arguments.{IsDescriptor};

    ghost invariant = { λ d. IsDescriptor d.len d.eop d.rs d.paylen };

    ghost inverse = { λ p. record { number = p.number; len = p.payload; eop = p.eop; rs = p.rs; paylen = p.paylen } };
}

impl SegmentDescriptor {
    ghost use Rattle.ring_machine.specs.text.Arguments.{IsDescriptor};
    ghost use Rattle.ring_model.specs.transmit.Agreement.{tx_word};
    ghost use Rattle.ring_model.specs.transmit.Ring.{new_posting};

    /// Returns a descriptor with these values, or `None` outside their ranges.
    pub fn new(number: u16, len: u16, eop: bool, rs: bool, paylen: u16) -> Option<SegmentDescriptor>
        ensures lawful { IsSome result ↔ IsDescriptor len eop rs paylen }
        ensures value { IfSome result (λ d. d ≡ new_posting number len eop rs paylen) }
    {
        let bytes = usize::from(len);
        let frame = usize::from(paylen);
        if bytes < 1 || bytes > BUFFER_BYTES || (rs && !eop) {
            return None;
        }
        if frame < LEAST_FRAME || frame > MOST_FRAME {
            return None;
        }
        Some(SegmentDescriptor {
            number,
            len,
            eop,
            rs,
            paylen,
        })
    }

    /// Returns the buffer's number.
    pub fn number(&self) -> u16
        ensures { result ≡ self.now.number }
    {
        self.number
    }

    /// Returns the number of bytes in the buffer.
    pub fn len(&self) -> u16
        ensures value { result ≡ self.now.payload }
        ensures few { self.now.payload ≤ BUFFER_BYTES }
    {
        self.len
    }

    /// Whether the buffer ends the frame.
    pub fn eop(&self) -> bool
        ensures { result ≡ self.now.eop }
    {
        self.eop
    }

    /// Whether the descriptor asks for a report.
    pub fn rs(&self) -> bool
        ensures { result ≡ self.now.rs }
    {
        self.rs
    }

    /// Returns the length of the whole frame.
    pub fn paylen(&self) -> u16
        ensures { result ≡ self.now.paylen }
    {
        self.paylen
    }

    // Returns the second word of the descriptor (82599 datasheet, 7.2.3.2.4).
    pub(crate) fn word(&self) -> u64
        ensures value { result ≡ tx_word self.now.payload self.now.eop self.now.rs self.now.paylen }
        ensures short { self.now.payload < 2 ^ 16 }
    {
        let fixed = u64::from(self.len) + 0x30_0000 + 0x200_0000 + 0x2000_0000;
        let end = if self.eop { 0x100_0000 } else { 0 };
        let asked = if self.rs { 0x800_0000 } else { 0 };
        fixed + end + asked + u64::from(self.paylen) * 0x4000_0000_0000
    }
}
