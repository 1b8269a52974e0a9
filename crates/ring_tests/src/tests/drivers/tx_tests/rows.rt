//! Worked rows of a transmit driver.

use crate::tests::drivers::expected::{Call, Expected};
use crate::tests::drivers::tx_tests::queue::{Places, Queue, TxCall};
use crate::tests::wanted::same;
use crate::told_so;
use driver::DriverError;
use std::alloc::Global;
use std::process::Abort;
use tx_ring::Completion;

/// A call, and its expected result.
type Row = (Call<TxCall>, Expected);

/// Checks all rows, one part after another, on a ring of 8 that is not enabled, and returns the places of its buffers
/// afterwards. No other function here owns a queue, since each one that does is costly to prove.
fn each_tells<R: Abort>(rt: &R, alloc: Global, completion: Completion, parts: &[&[Row]]) -> Places {
    let mut queue = Queue::new(rt, alloc, completion);
    for rows in parts {
        same(rt, told_so(&mut queue, rows), rows.len());
    }
    queue.places()
}

/// The queue is enabled.
const ENABLED: &[Row] = &[
    (Call::Enable, Expected::False),
    (Call::Answer, Expected::True),
    (Call::Enable, Expected::True),
];

const BOTH_WAYS: &[Completion] = &[Completion::Status, Completion::Head];

const TEN: &[&[Row]] = &[
    &[(Call::Own(TxCall::Add(10, 1, 60)), Expected::True)],
    ENABLED,
    &[
        (Call::Batch, Expected::Count(7)),
        (Call::Listed, Expected::Count(3)),
        (Call::Room, Expected::Count(0)),
        (Call::Own(TxCall::Ready), Expected::Count(7)),
        (Call::Batch, Expected::Count(0)),
        (
            Call::Own(TxCall::Asks(&[false, false, false, true, false])),
            Expected::True,
        ),
        (Call::Batch, Expected::Count(3)),
        (Call::Listed, Expected::Count(0)),
        (Call::AtHand, Expected::Count(4)),
        (Call::Room, Expected::Count(1)),
        (Call::Own(TxCall::Ready), Expected::Count(5)),
        (
            Call::Own(TxCall::Asks(&[false, true, true, false, true])),
            Expected::True,
        ),
        (Call::Own(TxCall::Ready), Expected::Count(0)),
    ],
];

/// The places of the buffers after them.
const LYING: Places = [
    Some(8),
    Some(9),
    None,
    None,
    Some(4),
    Some(5),
    Some(6),
    Some(7),
];

#[test]
fn batches_of_ten_packets(rt: HostRuntime) {
    for completion in BOTH_WAYS {
        let lying = each_tells(&rt, rt.alloc(), *completion, TEN);
        same(&rt, lying, LYING);
    }
}

/// A packet that no ring of 8 has room for.
const TOO_LONG: &[&[Row]] = &[
    &[
        (Call::Own(TxCall::Add(1, 1, 60)), Expected::True),
        (Call::Batch, Expected::Refused(DriverError::QueueOff)),
        (Call::Listed, Expected::Count(1)),
    ],
    ENABLED,
    &[
        (Call::Own(TxCall::Add(1, 9, 1_000)), Expected::True),
        (Call::Own(TxCall::Add(1, 1, 60)), Expected::True),
        (Call::Batch, Expected::Count(1)),
        (Call::Own(TxCall::Asks(&[true])), Expected::True),
        (Call::Batch, Expected::Refused(DriverError::TooLong)),
        (Call::AtHand, Expected::Count(1)),
        (Call::Listed, Expected::Count(2)),
        (Call::Room, Expected::Count(7)),
    ],
];

/// The second words of the descriptors of six packets. The fourth and the sixth ask for a report.
const SIX_WORDS: &[u64] = &[
    0x000f_0000_2330_003c,
    0x000f_0000_2330_003c,
    0x000f_0000_2330_003c,
    0x000f_0000_2b30_003c,
    0x000f_0000_2330_003c,
    0x000f_0000_2b30_003c,
];

/// Six packets in one batch.
const SIX: &[&[Row]] = &[
    &[(Call::Own(TxCall::Add(6, 1, 60)), Expected::True)],
    ENABLED,
    &[
        (Call::Batch, Expected::Count(6)),
        (Call::Own(TxCall::Words(SIX_WORDS)), Expected::True),
        (Call::Own(TxCall::Clean), Expected::Count(6)),
        (Call::Own(TxCall::Clean), Expected::Count(0)),
    ],
];

#[test]
fn packets_that_are_too_long_or_go_in_one_batch(rt: HostRuntime) {
    for parts in [TOO_LONG, SIX] {
        each_tells(&rt, rt.alloc(), Completion::Status, parts);
    }
}

const RENEWED: &[&[Row]] = &[
    &[(Call::Own(TxCall::Add(11, 1, 60)), Expected::True)],
    ENABLED,
    &[
        (Call::Batch, Expected::Count(7)),
        (Call::Own(TxCall::Asks(&[false, false])), Expected::True),
        (Call::AskDisable, Expected::True),
        (Call::AskDisable, Expected::Refused(DriverError::QueueOff)),
        (Call::Batch, Expected::Count(0)),
        (Call::Enable, Expected::False),
        (Call::FinishDisable, Expected::False),
        (Call::Reclaim, Expected::Count(0)),
        (Call::Answer, Expected::False),
        (Call::FinishDisable, Expected::Count(5)),
        (Call::FinishDisable, Expected::False),
        (Call::Batch, Expected::Refused(DriverError::QueueOff)),
        (Call::Own(TxCall::Clean), Expected::Count(0)),
        (Call::Renew, Expected::Refused(DriverError::NotReclaimed)),
        (Call::Own(TxCall::Fill(2)), Expected::True),
        (Call::Reclaim, Expected::Refused(DriverError::StashFull)),
        (Call::Room, Expected::Count(2)),
        (Call::Renew, Expected::Refused(DriverError::NotReclaimed)),
        (Call::Own(TxCall::Drop), Expected::True),
        (Call::Reclaim, Expected::Count(5)),
        (Call::Enable, Expected::Refused(DriverError::NotReclaimed)),
        (Call::Renew, Expected::True),
        (Call::Renew, Expected::Refused(DriverError::NotReclaimed)),
    ],
    ENABLED,
    &[
        (Call::Own(TxCall::Add(1, 1, 60)), Expected::True),
        (Call::Batch, Expected::Count(5)),
        (
            Call::Own(TxCall::Asks(&[false, false, false, true, true])),
            Expected::True,
        ),
    ],
];

/// A disabled queue reports how many segments were not sent, returns its buffers as far as the stash has room, and
/// counts its frames from 1 once it is renewed.
#[test]
fn a_disabling_and_the_epoch_after_it(rt: HostRuntime) {
    for completion in BOTH_WAYS {
        each_tells(&rt, rt.alloc(), *completion, RENEWED);
    }
}
