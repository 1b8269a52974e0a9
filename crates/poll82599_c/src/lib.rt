//! Running receive and transmit rings for programs in C and plain Rust, as a static library: step by step (`rings`) or
//! in batches (`batches`, in the manner of the ixy driver).
//! Depends on the crates of the rings, of the drivers and controllers, `buffer_pool`, `counters` and `ffi_handle`.
//! Guarantees which step each export makes, which bytes it hands out, and, at closing, that the driver took a beginning
//! of what the controller stored, and that a beginning of what was posted was sent, byte for byte.
//!
//! Each end and each worker is behind a handle of one pointer. The two ends of a ring may run on two threads. Where an
//! export takes an operation's number, the header `poll82599.h` has a function for each operation. Duties of the caller
//! are `requires` clauses, or are listed in the header.
#![tactic(auto)]

mod batches;
mod call;
mod end;
mod exports;
mod half;
mod handle;
mod makings;
mod pair;
mod rings;
