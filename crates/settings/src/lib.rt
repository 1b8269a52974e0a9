//! The settings of a forwarder and of drawn lists of moves, and which of them are lawful.
//! Depends on `limits`, `refusals`, `ring_model`, `text_lines` and `wire_script`.
//! Guarantees that [`Config::check`] accepts exactly the lawful configurations that have all queues of a script, and
//! that [`Config::fault`] names a limit that is violated whenever it refuses.
//!
//! A [`Config`] has the numbers of a forwarder's queues, buffers and threads, and says what it does on full rings. A
//! [`SchedulePlan`] says which moves are drawn, and [`Thresholds`] are those of a poll-mode driver that makes them.
#![tactic(auto)]

mod config;
mod fault;
mod plan;
mod thresholds;

pub use config::{Config, LEAST_SHARE, MOST_REPEAT};
pub use fault::ConfigFault;
pub use plan::SchedulePlan;
pub use refusals::ForwardError;
pub use thresholds::Thresholds;
