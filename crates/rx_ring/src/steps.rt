//! The steps that only the receive ring has, each with the event that it adds to its end's record. All other steps are
//! shared by both directions. All use the seats of `shared_ring`, whose fields no code here can name.
mod controller;
mod driver;

pub(crate) use controller::{HeadStore, say_quiet, store, write_back};
pub(crate) use driver::{clear_quiet, load_quiet, take};
