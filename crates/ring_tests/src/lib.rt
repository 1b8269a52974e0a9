//! Tests of queues and of the layers above them: machines and their texts against worked rows, running rings on threads and by
//! calls, drivers, controllers, both in threads of their own, and teams.
//! Depends on these layers and the crates below them.
//! Guarantees what a test needs to call them, and nothing else.
//!
//! The tests have a crate of their own so that those below are proved without tests.
//!
//! Beside `tests` are the tools that several of them use: random numbers, frames with recognizable bytes, counted buffers, a
//! running ring beside its pure machine, rows of steps with expected results, and a controller's end that stores segments.
//! `proofs/Growing` shows how an unfinished frame grows.
#![tactic(auto)]

#[cfg(test)]
mod beside;
#[cfg(test)]
mod buffers;
#[cfg(test)]
mod frames;
#[cfg(test)]
mod random;
#[cfg(test)]
mod rows;
#[cfg(test)]
mod storer;
#[cfg(test)]
mod tests;

#[cfg(test)]
use beside::{Beside, Survey, Walk, disable, enable, makes, random_control};
#[cfg(test)]
use buffers::{BUFFERS, Closed, filled, full_stash, is_filled, put_back};
#[cfg(test)]
use frames::{frame, frame_len, is_frame};
#[cfg(test)]
use random::Random;
#[cfg(test)]
use rows::{Tells, YesOrNo, told_so};
#[cfg(test)]
use storer::Storer;
