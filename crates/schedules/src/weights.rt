//! The weight of each kind of move.

/// The tendency of a queue, which determines the weights of its moves.
#[derive(Clone, Copy, PartialEq, Eq)]
pub(crate) enum Mood {
    /// Both sides keep pace.
    Even,
    /// More is posted than taken or sent: rings fill.
    Filling,
    /// More is taken or sent than posted: rings drain.
    Draining,
    /// The driver asks to disable, and a receive queue's controller may store quiet.
    Turning,
    /// Each kind of move is equally likely.
    Any,
}

impl Mood {
    /// The mood with this number, 0 to 3.
    pub fn of(number: u32) -> Mood {
        match number {
            0 => Mood::Even,
            1 => Mood::Filling,
            2 => Mood::Draining,
            _ => Mood::Turning,
        }
    }
}

/// The number of kinds of moves of a receive queue.
const RECEIVE_KINDS: usize = 18;

/// The number of kinds of moves of a transmit queue.
const TRANSMIT_KINDS: usize = 17;

/// The number of kinds of a receive queue's moves, or only of those of data, which come first: none of the handshake,
/// the quiet word, reclaiming, or renewal.
pub(crate) fn receive_kinds(of_data: bool) -> usize {
    if of_data { 7 } else { RECEIVE_KINDS }
}

/// The number of kinds of a transmit queue's moves, or only of those of data, which come first.
pub(crate) fn transmit_kinds(of_data: bool) -> usize {
    if of_data { 8 } else { TRANSMIT_KINDS }
}

/// The weights of a receive queue's kinds of moves: post, publish, look, fetch, store, take, head; ask to enable, look
/// asked, answer, look answered, ask to disable; reclaim; store quiet, load quiet; clear head, clear tail, clear quiet.
pub(crate) fn receive_weights(mood: Mood) -> [u32; RECEIVE_KINDS] {
    match mood {
        Mood::Even => [
            32, 8, 8, 32, 32, 24, 4, 16, 2, 16, 2, 0, 32, 0, 1, 16, 16, 16,
        ],
        Mood::Filling => [
            48, 12, 12, 48, 48, 3, 4, 16, 2, 16, 2, 0, 32, 0, 1, 16, 16, 16,
        ],
        Mood::Draining => [
            3, 3, 8, 16, 24, 40, 4, 16, 2, 16, 2, 0, 32, 0, 1, 16, 16, 16,
        ],
        Mood::Turning => [
            16, 6, 6, 16, 32, 24, 8, 16, 6, 16, 6, 4, 32, 2, 2, 16, 16, 16,
        ],
        Mood::Any => [1; RECEIVE_KINDS],
    }
}

/// The weights of a transmit queue's kinds of moves: post, publish, look, fetch, send, report, load report, clean; ask
/// to enable, look asked, answer, look answered, ask to disable; reclaim; clear head, clear tail, clear report.
pub(crate) fn transmit_weights(mood: Mood) -> [u32; TRANSMIT_KINDS] {
    match mood {
        Mood::Even => [
            32, 10, 8, 32, 32, 32, 16, 32, 16, 2, 16, 2, 0, 32, 16, 16, 16,
        ],
        Mood::Filling => [48, 16, 8, 8, 8, 8, 3, 3, 16, 2, 16, 2, 0, 32, 16, 16, 16],
        Mood::Draining => [3, 6, 8, 48, 48, 48, 24, 48, 16, 2, 16, 2, 0, 32, 16, 16, 16],
        Mood::Turning => [
            24, 6, 6, 24, 24, 24, 12, 24, 16, 6, 16, 6, 4, 32, 16, 16, 16,
        ],
        Mood::Any => [1; TRANSMIT_KINDS],
    }
}
