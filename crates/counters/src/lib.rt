//! A few numbers that one thread writes and others read, and the counters of flows, which are such numbers.
//! Depends on `refusals`, `limits`, `crossbeam_utils` and `atomic_table`.
//! Guarantees that a read returns the lawful numbers of one moment, and that no number falls from one read of a pass to
//! the next.
//!
//! A [`SnapshotCell`] holds the numbers. One [`SnapshotPen`] writes them, all at one moment, and any number of
//! [`SnapshotPass`]es read them, each from its own thread. A read shows the numbers of one moment that was written, or of
//! the opening, in which all are 0. The relation of their kind ([`Snapshot`]) holds between them, and none is below those
//! that this pass has read, nor below those that the pen had written when it made the pass. `rule` has this rule, which
//! each step of any thread keeps, and `numbers` the words under it.
//!
//! [`StatCell`] has the frames offered to a queue, [`DriveCell`] a driver's counts of the frames that it took, and
//! [`ByteCell`] frames and bytes. A further kind of cell needs its numbers, their relation ([`Snapshot`]) and its names.
//! [`FlowCells`] has one cell for each side of a flow, and [`FlowPens`] their pens.
//!
//! Making a cell allocates; no other call does. A call that reads or writes may wait, and no bound is stated: a write
//! waits for other writes and for readers that found one in their way, and a read that finds a write in its way waits
//! likewise.
#![tactic(auto)]

mod bytes;
mod cell;
mod driven;
mod flow_counters;
mod flows;
mod kinds;
mod numbers;
mod registers;
mod rule;
mod snapshot;
mod tally;
mod totals;

pub use bytes::Bytes;
pub use cell::{SnapshotCell, SnapshotPass, SnapshotPen};
pub use driven::{DRIVEN_NUMBERS, Driven};
pub use flow_counters::{Counter, FLOW_COUNTERS, FlowCounters};
pub use flows::{FlowCells, FlowPens};
pub use kinds::{
    ByteCell, BytePass, BytePen, DriveCell, DrivePass, DrivePen, StatCell, StatPass, StatPen,
};
pub use numbers::{CellHolder, Numbers};
pub use refusals::CounterError;
pub use registers::{RegisterReader, RegisterWriter};
pub use snapshot::Snapshot;
pub use tally::{TALLY_NUMBERS, Tally};
pub use totals::Totals;
