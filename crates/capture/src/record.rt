//! A record of a capture.

ghost use Rattle.std.specs.Prelude.{◌≡◌, ◌≤◌, length};
ghost use Rattle.limits.specs.declared.profile.TheConstants.{LEAST_FRAME, MOST_FRAME};
ghost use Rattle.capture.specs.Record.{InRange, Record, record_of};

use std::marker::Model;

/// A frame of a capture, with the time of its capture. It borrows the bytes of the capture.
#[derive(Debug, Drop)]
pub struct CaptureRecord<'a> {
    seconds: u32,
    fraction: u32,
    wire_len: u32,
    frame: &'a [u8],
}

impl<'a> Model for CaptureRecord<'a> {
    ghost Value = { Record };

    ghost view = { λ r. record_of r.seconds r.fraction r.wire_len r.frame.now };

    ghost invariant = { λ r. InRange (record_of r.seconds r.fraction r.wire_len r.frame.now) };
}

impl<'a> CaptureRecord<'a> {
    /// A record of a completely captured frame, `seconds` seconds and `fraction` microseconds (nanoseconds, in a
    /// capture of nanoseconds) after the start of 1970.
    pub fn new(seconds: u32, fraction: u32, frame: &'a [u8]) -> Self
        requires least { LEAST_FRAME ≤ length frame.now }
        requires greatest { length frame.now ≤ MOST_FRAME }
        ensures { result ≡ record_of seconds fraction (length frame.entry.now) frame.entry.now }
    {
        let wire_len = frame.len() as u32;
        Self::with_wire_len(seconds, fraction, wire_len, frame)
    }

    // A record of a frame with this length on the wire.
    pub(crate) fn with_wire_len(seconds: u32, fraction: u32, wire_len: u32, frame: &'a [u8]) -> Self
        requires least { LEAST_FRAME ≤ length frame.now }
        requires greatest { length frame.now ≤ MOST_FRAME }
        requires whole { wire_len ≤ length frame.now }
        ensures { result ≡ record_of seconds fraction wire_len frame.entry.now }
    {
        CaptureRecord {
            seconds,
            fraction,
            wire_len,
            frame,
        }
    }

    /// The time in whole seconds since the start of 1970.
    pub fn seconds(&self) -> u32
        ensures { result ≡ self.now.seconds }
    {
        self.seconds
    }

    /// The fraction of a second of the time, in the capture's [`TimeUnit`](crate::TimeUnit).
    pub fn fraction(&self) -> u32
        ensures { result ≡ self.now.fraction }
    {
        self.fraction
    }

    /// The frame's length on the wire according to the capture: its captured length, or less.
    pub fn wire_len(&self) -> u32
        ensures { result ≡ self.now.wire_len }
    {
        self.wire_len
    }

    /// The captured bytes of the frame.
    pub fn frame(&self) -> &'a [u8]
        ensures value { result.now ≡ self.now.frame }
        ensures in_range { InRange self.now }
    {
        self.frame
    }
}
