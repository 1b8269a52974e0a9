//! What the command `forward` reads and prints, apart from the run itself: captures and scripts come in, the text of a
//! report and captures go out. And the commands `from-capture` and `to-capture`, which convert between both.
//! Depends on `requests`, `settings`, `forwarding`, `controller`, `wire_script`, `capture`, `text_lines`, `limits` and
//! `refusals`.
//! Guarantees that each text and each capture is a function of the report or of the input, and that a refusal names its
//! cause.
//!
//! [`text_of`] returns the text of a report: the frames of the wires as script lines, then the counts of each flow as a
//! line or a JSON object. [`ProgressLine`] is the text of a run's progress. [`captured`] has the captures of `--capture`
//! and `--wire-capture`, and [`piped`] converts between captures and script lines.
#![tactic(auto)]

pub mod captured;
mod counts;
mod explaining;
mod objects;
mod outputs;
pub mod piped;
mod progress;
mod skips;
mod sums;
mod text;

pub use progress::{LiveTotals, ProgressLine};
pub use sums::WireTotals;
pub use text::text_of;
