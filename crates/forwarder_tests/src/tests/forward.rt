//! The command `forward`, its captures, its progress, and its rate.

mod capture_streams;
mod forty;
mod live_tests;
mod port_tests;
mod rate_tests;
mod stream_tests;
