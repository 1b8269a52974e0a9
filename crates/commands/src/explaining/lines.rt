//! Explains a refused line.

use requests::Excerpt;
use std::alloc::AllocError;

/// Explains why a line is not a move.
pub(crate) fn explain_move(why: &mut String, line: &[u8]) -> Result<(), AllocError> {
    let shown = Excerpt(line);
    if line.ends_with(b"\r") {
        return write!(
            why,
            "{shown} ends with CR LF, but lines end with LF; tr -d '\\r' converts the list"
        );
    }
    write!(
        why,
        "{shown} is not a move: expected a queue (r0 to r7, t0 to t7), a step (A1 to A7, B1 to B8, C1 to C12) and its \
         arguments, such as \"r0 A1 5\""
    )
}
