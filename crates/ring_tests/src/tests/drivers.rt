//! The drivers over the running rings, by calls.

mod expected;
mod rx_tests;
mod stashes;
mod tx_tests;
