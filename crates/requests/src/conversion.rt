//! The requests of `from-capture` and `to-capture`.
ghost use Rattle.std.specs.Prelude.{◌≡◌, ◌↔◌, true};
ghost use Rattle.requests.specs.Conversions.{IsPlaced, may_skip};

use capture::ReadOptions;
use limits::{MOST_PAIRS, PORTS};

/// A request to convert the input.
#[derive(Clone, Copy, Debug)]
pub enum CaptureRequest {
    /// Prints the frames of a capture, read with these options, as script lines, at this port, 0 or 1, and this queue,
    /// 0 to 7.
    FromCapture {
        port: u8,
        queue: u8,
        reading: ReadOptions,
    },
    /// Writes the frames of this port, 0 or 1, as a capture.
    ToCapture {
        port: u8,
    },
}

impl CaptureRequest {
    /// Whether records may be left out.
    pub fn may_skip(&self) -> bool
        ensures { result ≡ may_skip self.now }
    {
        match *self {
            CaptureRequest::FromCapture { reading, .. } => reading.skip,
            CaptureRequest::ToCapture { .. } => false,
        }
    }

    /// Whether the port and the queue exist.
    pub fn is_placed(&self) -> bool
        ensures { (result ≡ true) ↔ IsPlaced self.now }
    {
        match *self {
            CaptureRequest::FromCapture { port, queue, .. } => {
                usize::from(port) < PORTS && usize::from(queue) < MOST_PAIRS
            }
            CaptureRequest::ToCapture { port } => usize::from(port) < PORTS,
        }
    }
}
