//! Tests of the forwarder; and of the program on streams and screens that fail, of the lines of its refusals, and of what only it
//! uses. `checks/runs` tests the built program.
//! Depends on `program` and the crates below it.
//! Guarantees nothing.
//!
//! This crate is above all of those crates, so that each of them is proved without its tests.
#![tactic(auto)]

#[cfg(test)]
mod tests;
