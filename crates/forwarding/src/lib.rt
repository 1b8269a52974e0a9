//! Forwarding frames from one queue to another, in one thread.
//! Depends on `driver`, `controller`, `counters`, `rx_ring`, `tx_ring`, `buffer_pool`, `teams`, `limits`, `refusals` and
//! `arrayvec`.
//! Guarantees which packets a turn ([`drive`]) took, changed and posted.
//!
//! [`drive`] is a driver's turn for one flow: it takes a batch of packets, touches each of them, and posts the packets
//! that wait. It passes a [`Gate`] before each call that makes steps. A [`Relay`] keeps what the turns of a flow need.
//!
//! A [`FlowReport`] has the counts of a flow that ended, and the frames that it sent. [`peer`] says where the frames of a
//! flow leave.
//!
//! Nothing here allocates or starts a thread, and `drive` waits for nobody.
#![tactic(auto)]

mod packets;
mod ports;
mod relay;
mod report;
mod turning;

pub use packets::touch;
pub use ports::{PortQueue, peer};
pub use refusals::ForwardError;
pub use relay::{Relay, RelayParts};
pub use report::{Ended, FlowReport};
pub use teams::{Event, Flow, Gate, Open, Progress, Who, admit};
pub use turning::{Turned, drive};
