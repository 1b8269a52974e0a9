//! The commands `from-capture` and `to-capture`: they convert a capture to script lines, and the lines of a wire to a
//! capture.
//!
//! [`perform`] reads the whole input, converts it as a [`CaptureRequest`] asks, and writes the resulting bytes.
//! [`answer`] also prints refusals and returns an exit status.

mod answering;
mod flow_lines;
mod page;

pub use answering::{answer, perform};
pub use page::{capture_in, lines_in};
