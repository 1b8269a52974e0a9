//! The common parts of the benchmarks.
//!
//! `words` parses the options, `supply` makes the frame and the buffers, `patience` lets a thread wait, and `tally`
//! sums up the frames that were read. `run` names what two threads need. `enabling` enables a queue of either direction.
//! `storing` and `fetching` are the device's steps at a receive ring and at a transmit ring. `timing` measures and prints
//! the time, and `outcome` combines results. `two_threads` runs two sides, each in its own thread.
//!
//! `track` makes a receive ring and a transmit ring, with drivers that forward (`forwarding`). `meeting` lets the ends
//! of both rings meet.

mod enabling;
mod fetching;
mod forwarding;
mod meeting;
mod outcome;
mod patience;
mod run;
mod storing;
mod supply;
mod tally;
mod timing;
mod track;
mod two_threads;
mod words;

pub use enabling::{answer_enabling, await_enabling};
pub use fetching::{send, send_next};
pub use forwarding::{Forwarder, Moved};
pub use meeting::{Ends, meet};
pub use outcome::both;
pub use patience::Patience;
pub use run::Run;
pub use storing::store_next;
pub use supply::{BYTE, frame_of, spare_for, stock_for};
pub use tally::Tally;
pub use timing::{Timed, measure, now, refuse, since};
pub use track::{Parts, Track, Way};
pub use two_threads::beside;
pub use words::{BatchPlan, Workload, batch_plan, load_of, number_of, value_of, words_of};
