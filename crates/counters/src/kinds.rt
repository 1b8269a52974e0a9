//! The names of the cells of each kind.

use crate::bytes::Bytes;
use crate::cell::{SnapshotCell, SnapshotPass, SnapshotPen};
use crate::driven::{DRIVEN_NUMBERS, Driven};
use crate::tally::{TALLY_NUMBERS, Tally};

/// The cell of a controller: the frames that it was offered.
pub type StatCell = SnapshotCell<Tally, TALLY_NUMBERS>;

/// The pen of a [`StatCell`].
pub type StatPen = SnapshotPen<Tally, TALLY_NUMBERS>;

/// A pass of a [`StatCell`].
pub type StatPass = SnapshotPass<Tally>;

/// The cell of a driver: its counts of the frames that it took.
pub type DriveCell = SnapshotCell<Driven, DRIVEN_NUMBERS>;

/// The pen of a [`DriveCell`].
pub type DrivePen = SnapshotPen<Driven, DRIVEN_NUMBERS>;

/// A pass of a [`DriveCell`].
pub type DrivePass = SnapshotPass<Driven>;

/// The frames and bytes of a queue.
pub type ByteCell = SnapshotCell<Bytes, 2>;

/// The pen of a [`ByteCell`].
pub type BytePen = SnapshotPen<Bytes, 2>;

/// A pass of a [`ByteCell`].
pub type BytePass = SnapshotPass<Bytes>;
