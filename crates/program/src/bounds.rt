//! A bound of what the program runs on.

use std::sync::Wait;
use std::thread::Threads;
use std::time::Clock;

/// A runtime with threads that may wait, and a clock.
pub trait Host: Threads + Wait + Clock {}

impl<T: Threads + Wait + Clock> Host for T {}
