//! The transmit driver beside a controller's end, by calls.

mod queue;
mod rows;
