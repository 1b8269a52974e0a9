//! Plain data for programs in C and plain Rust: descriptors as 16 bytes and as numbers, lists of moves on the machines
//! of queues, and one frame passed through a ring.
//! Depends on `descriptor`, `commands`, `requests`, `ffi_handle` and the crates of the rings.
//! Guarantees the bytes and numbers that each export writes; one that refuses leaves them unchanged.
//!
//! It is part of the static library of `poll82599_c`, whose header declares its exports.
//!
//! No export keeps anything between calls. An export that refuses leaves the bytes that it would write unchanged.
#![tactic(auto)]

mod descriptors;
mod moves;
mod once;
