//! The parts of line formats: cutting a text into lines and a line into fields, and reading a number.
//! Depends on `memchr`.
//! Guarantees where each part begins and ends, and the number read; nothing is allocated or copied.
//!
//! [`cut`] returns the bytes before a separator and those after it. Cut by LF, a text is a sequence of lines; the last
//! may lack its LF, and CR is a byte like any other. [`says_something`] finds the lines with content, and [`number_in`]
//! reads a decimal field.
#![tactic(auto)]

mod cutting;
mod numbers;

pub use cutting::{cut, says_something};
pub use numbers::number_in;
