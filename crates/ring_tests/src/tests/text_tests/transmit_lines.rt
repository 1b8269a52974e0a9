//! The lines of a transmit queue's moves.

use crate::tests::steps::TxNamed;
use crate::tests::text_tests::LineRow;
use ring_machine::TxStep::{
    Clean, ClearHead, ClearReport, ClearTail, Fetch, LoadReport, Look, Post, Publish, Reclaim,
    Report, Send,
};

/// Each line, except those of the handshake, with its step.
pub const TRANSMIT: &[LineRow<TxNamed>] = &[
    ("B1 0 1 0 0 14", Post((0, 1, false, false, 14))),
    (
        "B1 65535 2048 1 1 15000",
        Post((65_535, 2_048, true, true, 15_000)),
    ),
    ("B2", Publish),
    ("B3", Look),
    ("B4", Fetch),
    ("B5", Send),
    ("B6", Report),
    ("B7", LoadReport),
    ("B8", Clean),
    ("C6", Reclaim),
    ("C9", ClearHead),
    ("C10", ClearTail),
    ("C12", ClearReport),
];
