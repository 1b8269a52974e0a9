//! The cost of a frame through a transmit ring that two threads share.
//!
//! `words` parses the options. `posting` is the driver's thread, with `asking` for the reports. `fetching` is the
//! controller's thread. `sending` makes the ring, runs both and measures the time.
//!
//! All frames that it counts have passed: at the end the two ends meet, and the controller's record has that many
//! frames, each byte for byte the frame that the driver posted. All posted descriptors are cleaned.

mod asking;
mod fetching;
mod posting;
mod sending;
mod words;

pub use sending::send_frames;
pub use words::plan_of;
