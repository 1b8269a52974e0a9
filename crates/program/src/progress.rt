//! Shows the progress of a run once a second.
//!
//! [`forward`] forwards as [`forwarder::forward`] does. If a [`ProgressForm`] is given, a separate thread reads the counter
//! cells of all flows and writes a [`ProgressLine`] once a second and once at the end of the run. Each cell is read as of one
//! moment, and its counts never decrease; the cells of different flows are read at different moments. The thread ends
//! with the run. No contract says how often it writes, which depends on time alone.

mod calls;
mod reader;
mod reading;
mod showing;

pub use calls::forward;
pub use forward_io::{LiveTotals, ProgressLine};
pub use requests::ProgressForm;
