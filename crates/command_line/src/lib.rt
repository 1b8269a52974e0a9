//! The command line of the program `poll82599`: it parses the words into what a command is asked to do.
//! Depends on `requests`, `settings`, `capture`, `ring_model`, `limits` and `clap`; it knows no command.
//! Guarantees over `clap`'s definitions, which words are which request; mistaken words are never taken for one.
//!
//! [`asked_of`] parses the words after the program's name: a request of `requests`, or a configuration of `settings` and
//! how its report is printed. [`files_of`] parses the files of a forwarding. The crate `program` serves what is asked.
#![tactic(auto)]

mod arguments;
mod building;
mod captures;
mod command;
mod covers;
mod drawings;
mod drivers;
mod expects;
mod files;
mod lists;
mod mistakes;
mod program;
mod reading;
mod showing;

pub use command::{Asked, asked_of};
pub use files::{ForwardFiles, files_of};
