//! Counters that others read while workers run.

mod registers;
mod rows;
mod threads;
