//! The lines of a receive queue's moves.

use crate::tests::steps::RxNamed;
use crate::tests::text_tests::LineRow;
use ring_machine::RxStep::{
    ClearHead, ClearQuiet, ClearTail, Fetch, Head, LoadQuiet, Look, Post, Publish, Reclaim, Store,
    StoreQuiet, Take,
};

/// Each line, except those of the handshake, with its step.
pub const RECEIVE: &[LineRow<RxNamed>] = &[
    ("A1 0", Post(0)),
    ("A1 65535", Post(65_535)),
    ("A2", Publish),
    ("A3", Look),
    ("A4", Fetch),
    ("A5 1 0", Store(1, false)),
    ("A5 2048 1", Store(2_048, true)),
    ("A6", Take),
    ("A7", Head),
    ("C6", Reclaim),
    ("C7", StoreQuiet),
    ("C8", LoadQuiet),
    ("C9", ClearHead),
    ("C10", ClearTail),
    ("C11", ClearQuiet),
];
