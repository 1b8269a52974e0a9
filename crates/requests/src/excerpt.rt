//! A part of the input in an explanation.

use std::fmt;

/// The greatest number of bytes that are shown.
const SHOWN: usize = 60;

/// Bytes of the input between quotation marks. Prints printable ASCII as it is, and other bytes escaped, such as `\r`
/// or `\xff`. Prints the first 60 bytes only, followed by three dots if there are more.
#[derive(Clone, Copy, Debug)]
pub struct Excerpt<'a>(pub &'a [u8]);

impl fmt::Display for Excerpt<'_> {
    fn fmt<W: fmt::Write>(&self, f: &mut fmt::Formatter<W>) -> fmt::Result {
        match self.0.get(..SHOWN) {
            Some(shown) if shown.len() < self.0.len() => write!(
                f,
                "\"{}\"...",
                shown.escape_ascii()
            ),
            _ => write!(f, "\"{}\"", self.0.escape_ascii()),
        }
    }
}
