//! How a thread waits for another.

use std::{hint, thread};

/// After this many unsuccessful tries in a row, a thread lets another one run.
const TRIES_BEFORE_YIELD: u32 = 10_000;

/// Counts unsuccessful tries.
#[derive(Drop)]
pub struct Patience {
    tries: u32,
}

impl Patience {
    pub fn new() -> Patience {
        Patience { tries: 0 }
    }

    /// Waits a moment after an unsuccessful try. After many, lets another thread run. Returns whether it did that.
    #[inline]
    pub fn wait(&mut self) -> bool {
        if self.tries < TRIES_BEFORE_YIELD {
            self.tries += 1;
            hint::spin_loop();
            return false;
        }
        self.tries = 0;
        thread::yield_now();
        true
    }

    /// Starts the count again after a successful try.
    #[inline]
    pub fn reset(&mut self) {
        self.tries = 0;
    }
}
