//! The cost of a frame through both layers above the rings, controllers and drivers.
//!
//! `words` parses the options. `serving` is the device's side: the controllers of both rings. `layers` runs them in
//! their own thread, or in one thread with the drivers.
//!
//! All frames that it counts have passed: at the end the two ends of each ring meet, and all frames on the wire are
//! copies of the one frame.

mod layers;
mod serving;
mod words;

pub use layers::pass_layers;
pub use words::plan_of;
