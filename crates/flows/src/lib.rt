//! A flow: the frames that one queue receives and another sends, as served by a driver's and a controller's side.
//! Depends on `forwarding`, `buffer_accounting`, `teams`, `counters`, `controller`, `driver`, `pool`, `buffer_pool`, `wire_script`,
//! the ring crates and `arrayvec`.
//! Guarantees that the frames on a flow's wire are touched frames of its script, in order, and that its counts match
//! its rings' records.
//!
//! [`DriverFlow`] and [`ControllerFlow`] are the two sides; a worker gives each its turns. Once both are over,
//! [`conclude`] lets their rings' ends meet and returns the flow's [`FlowReport`].
//!
//! A side allocates only if its wire grows, and waits only for the pool. [`serve_flows`] starts a thread for each
//! worker.
#![tactic(auto)]

mod concluding;
mod controller_flow;
mod cut_rule;
mod disabling;
mod driver_flow;
mod flow_drivers;
mod flow_frames;
mod holding;
mod output;
mod phase;
mod queue_phase;
mod rx_source;
mod serving;
mod starting;
mod stepping;
mod tx_sink;

pub use concluding::{ControllerDone, DriverDone, conclude};
pub use controller_flow::ControllerFlow;
pub use counters::Driven;
pub use cut_rule::CutRule;
pub use driver_flow::{DriverFlow, DriverParts};
pub use flow_drivers::{FlowSpec, PoolPart};
pub use flow_frames::{FlowFrames, MOST_OFFERED};
pub use forwarding::{Ended, FlowReport};
pub use phase::{Phase, Undelivered};
pub use queue_phase::QueuePhase;
pub use serving::{Served, serve_flows};
