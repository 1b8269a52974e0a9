//! A summary of the frames that were read.

use anyhow::{Result, ensure};

/// The total bytes of some frames, and the sum of their first bytes.
#[derive(Clone, Copy, PartialEq, Eq)]
pub struct Tally {
    bytes: u64,
    first_bytes: u64,
}

impl Tally {
    /// The tally of no frame.
    pub fn new() -> Tally {
        Tally {
            bytes: 0,
            first_bytes: 0,
        }
    }

    /// The tally of `frames` frames like this one.
    pub fn of(frame: &[u8], frames: u32) -> Tally {
        let first = frame.first().map_or(0, |byte| u64::from(*byte));
        let count = u64::from(frames);
        Tally {
            bytes: (frame.len() as u64).wrapping_mul(count),
            first_bytes: first.wrapping_mul(count),
        }
    }

    /// Checks that the tally is that of `frames` frames like this one.
    pub fn check(self, frame: &[u8], frames: u32) -> Result<()> {
        ensure!(
            self == Tally::of(frame, frames),
            "the frames that came out are not those that went in"
        );
        Ok(())
    }

    /// Adds one more frame.
    #[inline]
    pub fn add(&mut self, frame: &[u8]) {
        let first = frame.first().map_or(0, |byte| u64::from(*byte));
        self.bytes = self.bytes.wrapping_add(frame.len() as u64);
        self.first_bytes = self.first_bytes.wrapping_add(first);
    }
}
