//! The program `poll82599` as a library: it connects the command line with the commands, and runs the command
//! `forward`.
//! Depends on `command_line`, on all crates of commands, and on `forwarder`.
//! Guarantees what each command line prints: the page of `forward` is that of a report of the given script, and a
//! refusal other than `Output` prints nothing.
//!
//! [`run`] runs the program on the words after its name. [`forward`] returns the page for an input and a configuration,
//! [`perform`] prints it, and [`answer`] also prints refusals and returns an exit status. [`forward_script`] forwards a
//! parsed script. [`captured`] is `forward` with captures, and [`progress`] shows the progress of a run.
//! [`RateLine`] is the line of `--rate`.
#![tactic(auto)]

mod answering;
mod bounds;
pub mod captured;
mod cuts;
mod page;
pub mod progress;
mod rate;
mod running;

pub use answering::{answer, perform};
pub use bounds::Host;
pub use page::{forward, forward_script};
pub use rate::RateLine;
pub use running::{EXIT_USAGE, run};
