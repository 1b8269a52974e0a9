//! Explains a refusal in a second line: the option or the input at fault, and the expected value.

mod asked;
mod fields;
mod lines;

pub(crate) use asked::explain_request;
pub(crate) use lines::explain_move;
