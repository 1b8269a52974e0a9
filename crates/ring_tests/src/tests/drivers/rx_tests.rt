//! The receive driver beside a controller's end, by calls.

mod both;
mod rows;
