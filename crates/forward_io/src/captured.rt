//! The captures of the options `--capture` and `--wire-capture`: frames come in from captures at a port and a queue, and
//! the frames that leave a port are written as a capture.
//!
//! [`add_capture`] appends the frames of one capture, [`gather`] reads the captures of all sources, and [`script_for`]
//! also reads the script after them. [`targets_of`] looks at the wire files before anything is forwarded.
//! [`wire_capture`] builds a port's capture from the reports of the flows, and [`page_for`] writes the wire files and
//! returns what is printed. [`tell`] prints a refusal. Parsing and conversion are exact by contract; no contract
//! describes the contents of a file.

mod files;
mod gathering;
mod identity;
mod intake;
mod refused;
mod running;
mod script;
mod skipping;
mod targets;
mod wires;
mod writing;

pub use gathering::{CapturedScript, add_capture, gather};
pub use intake::Intake;
pub use refused::{FileRefusal, RefusalSubject, tell};
pub use running::{page_for, script_for};
pub use targets::{Target, targets_of};
pub use wires::wire_capture;
