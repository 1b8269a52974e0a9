//! One pool of buffers for all threads.
//! Depends on `buffer_pool`, `limits`, `refusals`, `crossbeam_queue` and `atomic_table`.
//! Guarantees that at every moment and under every schedule, the pool and all passes together hold the numbers `0` to
//! `count - 1`, each once.
//!
//! A [`Pool`] has the buffers that no worker holds, and each worker takes and returns buffers by its [`PoolPass`]. The
//! guarantee is the rule of the pool's queue ([`Sharing`]), which each step keeps, so a pool always has room for a
//! returned buffer.
//!
//! A pass has a share of the pool. It can be split, so that each worker has its own pass, and joined again. A pass with
//! the whole share is the pool's only one, and knows the pool's content.
//!
//! Making a pool allocates; no other call does.
#![tactic(auto)]

mod bulk;
mod hand;
mod pool;
mod shares;

pub use hand::{Hand, Sharing, WHOLE_SHARE};
pub use pool::{Pool, PoolPass};
