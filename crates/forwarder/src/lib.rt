//! The two-port forwarder.
//! Depends on `settings`, `flows`, `counters`, `buffer_accounting`, and the crates below them.
//! Guarantees that the report of each flow satisfies the flow's plan, and that after every call all buffers are back in
//! the pool.
//!
//! A [`Config`] says how it runs, and is checked before anything else. An [`Index`] lists the frames of a script flow
//! by flow. [`forward`] makes the rings and both sides of each flow, serves them, and lets both sides meet once they
//! are over. [`forward_watched`] also shows their counts while they run. [`forward_with`] does so over a pool of the
//! caller's, with cells that go on from earlier flows, and can be stopped.
//!
//! A [`LiveFlow`] is one side of a flow with the cell that shows its numbers. After each turn the worker writes the
//! numbers into the cell if one of them changed; holders of a pass of the cell read them from their own threads.
//! [`serve_watched`] serves both sides of all flows with their cells, and returns the pens with the flows. A write waits
//! for readers that found one in their way. A watched turn allocates no more than the flow's own turn.
//!
//! After a refusal the two sides of a flow come back in any state. [`close_flow`] closes both rings with their ends, and
//! returns all buffers, those in the rings, the stash, a chain and waiting packets, to the pool.
#![tactic(auto)]

mod abort;
mod calls;
mod concluding;
mod flow_rings;
mod giving;
mod index;
mod laws;
mod live_flow;
mod numbered;
mod report;
mod running;
mod serving;
mod sides;
mod starting;
mod stopping;
mod wrapping;

pub use abort::close_flow;
pub use calls::{forward, forward_in, forward_watched, forward_with};
pub use flow_rings::{FlowRingEnds, FlowRings, make_rings};
pub use index::Index;
pub use laws::plans_have_the_flows_frames;
pub use live_flow::LiveFlow;
pub use numbered::Numbered;
pub use report::Report;
pub use running::Watch;
pub use serving::{ServedWithPens, serve_watched};
pub use settings::{Config, LEAST_SHARE, MOST_REPEAT};
pub use starting::start_flow;
