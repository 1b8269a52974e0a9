//! The options for reading a capture.

ghost use Rattle.std.specs.Prelude.{◌≡◌, ◌+◌, ◌<◌, ◌^◌, ◌-◌};
ghost use Rattle.capture.specs.SoFar.{with_fault};

use crate::entry::Fault;

/// Options for reading a capture. By default, the first faulty record is refused, and there is no limit.
#[derive(Clone, Copy, Debug, Default, PartialEq, Eq)]
pub struct ReadOptions {
    /// Leave out faulty records, and count them.
    pub skip: bool,
    /// Stop after this number of frames. The bytes after them are not read.
    pub limit: Option<u32>,
}

/// The number of records left out, by fault.
#[derive(Clone, Copy, Debug, Default, PartialEq, Eq)]
pub struct Skipped {
    /// The capture ends within the record, or a pcapng block is too short for its packet.
    pub truncated: u64,
    /// Fewer bytes were captured than the frame had on the wire.
    pub snapped: u64,
    /// The frame is longer than [`MOST_FRAME`](limits::MOST_FRAME).
    pub long: u64,
    /// The frame is shorter than [`LEAST_FRAME`](limits::LEAST_FRAME).
    pub short: u64,
}

impl ReadOptions {
    ghost use Rattle.capture.specs.Choosing.{is_below};

    // Whether to read on after this number of frames.
    pub(crate) fn wants_more(self, frames: usize) -> bool
        ensures { result ≡ is_below self.limit frames }
    {
        match self.limit {
            Some(limit) => frames < limit as usize,
            None => true,
        }
    }
}

impl Skipped {
    // Counts one more record with this fault.
    pub(crate) fn with(self, fault: Fault) -> Self
        requires { self.truncated + self.snapped + self.long + self.short < 2 ^ 64 - 1 }
        ensures { result ≡ with_fault self fault }
    {
        let mut more = self;
        match fault {
            Fault::Truncated => more.truncated += 1,
            Fault::Snapped => more.snapped += 1,
            Fault::Long => more.long += 1,
            Fault::Short => more.short += 1,
        }
        more
    }
}
