//! The running transmit ring, in both completions: the facts that no clause states.

mod calls;
mod threads;
