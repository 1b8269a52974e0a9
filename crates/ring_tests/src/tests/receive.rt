//! The running receive ring.

mod calls;
mod threads;
