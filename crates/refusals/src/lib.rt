//! The refusals of all libraries, each with its number, its words, and the place of its fault if it has one.
//! Depends on `thiserror`.
//! Guarantees the number of each refusal.
//!
//! Each library exports its own: `buffer_pool::PoolError` is the type of this crate. `docs/REFUSALS.md` lists which
//! call returns which refusal, and the state that it leaves.
#![tactic(auto)]

mod errors;

pub use errors::{
    CaptureError, CounterError, CtlError, DescError, DriverError, ForwardError, MachineError,
    PoolError, RingError, ScriptError,
};
