//! Controllers beside drivers that the tests play themselves, on one thread.

mod expected;
mod growing;
mod receive;
mod receive_tests;
mod transmit;
mod transmit_tests;
