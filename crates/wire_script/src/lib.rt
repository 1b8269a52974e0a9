//! Wire scripts: the text format of frames that arrive and of frames that are sent.
//! Depends on `text_lines`, `limits`, `refusals` and `hex`.
//! Guarantees that every text has exactly one meaning, and that [`parse`] reads printed frames back as the same frames.
//!
//! A script consists of lines that end with LF; the last may lack it, and CR is a byte like any other. An empty line
//! and one that begins with `#` are ignored. Each other line is one frame, in fields separated by single spaces:
//!
//! ```text
//! <port> <queue> <hex>
//! <port> <queue> fill <len> <byte>
//! ```
//!
//! [`parse`] returns the frames of the text, or its first fault with the number of its line. [`print`] writes frames as
//! lines of the first form, in lower case.
#![tactic(auto)]

mod field;
mod frame;
mod line;
mod printing;
mod reading;
mod script;
mod split;

pub use frame::WireFrame;
pub use printing::{print, print_line};
pub use reading::parse;
pub use refusals::ScriptError;
pub use script::Script;
