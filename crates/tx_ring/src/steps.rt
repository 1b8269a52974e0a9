//! The steps that only the transmit ring has, each with the event that it adds to its end's record. All other steps are
//! shared by both directions. All use the seats of `shared_ring`, whose fields no code here can name.
mod controller;
mod driver;

pub(crate) use controller::{report_head, report_status, send, send_next};
pub(crate) use driver::{clean, find_report, go_over, post};
