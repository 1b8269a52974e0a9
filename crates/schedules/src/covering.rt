//! Move lists that meet every reachable pair of a queue of 8, found by a search over its states. Each list meets its
//! pair when the machine makes its moves.
//!
//! A [`Pair`] is a kind of move, the states of driver and controller in which it is tried, and its outcome ([`OutcomeKind`]).
//! A [`Search`] goes breadth first over the states that any schedule of moves can reach from a new queue, with at most
//! two frames in flight: stored and not taken, or posted and not cleaned. So it meets each pair first by the fewest
//! moves that any schedule needs. [`Search::lists`] returns lists of moves that together meet all pairs found. A
//! [`Scope`] selects the queue, and either all moves or only those that silicon and its driver make too.
//!
//! A state is all that determines the next steps of a queue ([`QueueSummary`]), with its places counted from where the
//! driver takes next. Whether a move happens, and its outcome, comes from the machine itself, which repeats the moves
//! from a new queue.

mod lists;
mod outcome;
mod pairs;
mod search;
mod summary;
mod tried;

pub use lists::CoverList;
pub use outcome::OutcomeKind;
pub use pairs::Pair;
pub use search::Search;
pub use tried::{MOVES_TRIED, Scope, SearchedQueue, is_data, moves_tried};
