//! One queue as a machine, in either direction.

mod hindering;
mod queue;
mod receive;
mod transmit;
mod words;

pub use queue::QueueMachine;
pub use receive::RxMachine;
pub use transmit::TxMachine;
