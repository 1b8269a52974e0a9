//! Worked rows of a receive driver.
ghost use Rattle.std.specs.Prelude.{◌<◌, ◌≤◌};

use crate::tests::drivers::expected::{Call, Expected};
use crate::tests::drivers::rx_tests::both::{Both, RxCall};
use crate::tests::wanted::same;
use crate::told_so;
use driver::DriverError;
use std::alloc::Global;
use std::process::Abort;

/// A call, and its expected result.
type Row = (Call<RxCall>, Expected);

/// Checks all rows, one part after another, on a ring of 8 that is not enabled, in batches of `batch`, with `buffers`
/// buffers at hand. No other function here owns a driver, since each one that does is costly to prove.
fn each_tells<R: Abort>(rt: &R, alloc: Global, batch: usize, buffers: usize, parts: &[&[Row]])
    requires some { 0 < batch }
    requires few { batch ≤ 32 }
{
    let mut both = Both::new(rt, alloc, batch, buffers);
    for rows in parts {
        same(rt, told_so(&mut both, rows), rows.len());
    }
}

/// The queue is enabled.
const ENABLED: &[Row] = &[
    (Call::Enable, Expected::False),
    (Call::Answer, Expected::True),
    (Call::Enable, Expected::True),
];

/// Each refusal.
const REFUSALS: [DriverError; 4] = [
    DriverError::QueueOff,
    DriverError::StashFull,
    DriverError::TooLong,
    DriverError::NotReclaimed,
];

/// Their numbers and their words.
const WORDS: &str = "51 queue off\n52 stash full\n53 too long\n54 not reclaimed\n";

#[test]
fn refusals_have_a_number_and_a_text(rt: HostRuntime) {
    let mut text = String::new(rt.alloc());
    for refused in REFUSALS {
        writeln!(text, "{} {refused}", refused.number()).expect(&rt, "memory");
    }
    same(&rt, text.as_str(), WORDS);
}

/// A batch fills the ring and takes what is done.
const FILLED: &[&[Row]] = &[
    &[
        (Call::Batch, Expected::Refused(DriverError::QueueOff)),
        (Call::AtHand, Expected::Count(10)),
    ],
    ENABLED,
    &[
        // seven are posted and published
        (Call::Room, Expected::Count(7)),
        (Call::Batch, Expected::Count(0)),
        (Call::Room, Expected::Count(0)),
        (Call::AtHand, Expected::Count(3)),
        (Call::Own(RxCall::Frames(3, 0)), Expected::Count(3)),
        // two more are posted, after the first two segments
        (Call::Own(RxCall::Cut(2)), Expected::True),
        (Call::Batch, Expected::Count(3)),
        (Call::Listed, Expected::Count(3)),
        (Call::Room, Expected::Count(1)),
        (Call::AtHand, Expected::Count(0)),
        (Call::Own(RxCall::Packet(0, [60, 0, 0], 0)), Expected::True),
        (Call::Own(RxCall::Packet(1, [60, 0, 0], 1)), Expected::True),
        (Call::Own(RxCall::Packet(2, [60, 0, 0], 2)), Expected::True),
        // what was posted is published: six descriptors are free
        (Call::Own(RxCall::Frames(7, 0)), Expected::Count(6)),
    ],
];

/// A batch and a list have an end.
const ENDED: &[&[Row]] = &[
    ENABLED,
    &[
        (Call::Batch, Expected::Count(0)),
        (Call::Own(RxCall::Frames(6, 0)), Expected::Count(6)),
        (Call::Batch, Expected::Count(2)),
        (Call::Batch, Expected::Count(2)),
        (Call::Listed, Expected::Count(4)),
        (Call::Own(RxCall::Blanks(31)), Expected::True),
        (Call::Batch, Expected::Count(1)),
        (Call::Listed, Expected::Count(32)),
        (Call::Batch, Expected::Count(0)),
        (Call::Own(RxCall::Clear), Expected::True),
        (Call::Batch, Expected::Count(1)),
        (Call::Batch, Expected::Count(0)),
    ],
];

#[test]
fn a_batch_fills_the_ring_takes_what_is_done_and_has_an_end(rt: HostRuntime) {
    each_tells(&rt, rt.alloc(), 32, 10, FILLED);
    each_tells(&rt, rt.alloc(), 2, 7, ENDED);
}

/// A chain waits for its end.
const CHAINED: &[&[Row]] = &[
    ENABLED,
    &[
        (Call::Batch, Expected::Count(0)),
        (Call::Own(RxCall::Store(2_048, false, 0)), Expected::True),
        (Call::Own(RxCall::Store(1_000, false, 1)), Expected::True),
        (Call::Batch, Expected::Count(0)),
        (Call::Own(RxCall::HasChain), Expected::True),
        (Call::Own(RxCall::Frames(2, 2)), Expected::Count(2)),
        (Call::Batch, Expected::Count(2)),
        (Call::Own(RxCall::HasChain), Expected::False),
        (Call::Listed, Expected::Count(2)),
        (
            Call::Own(RxCall::Packet(0, [2_048, 1_000, 60], 0)),
            Expected::True,
        ),
        (Call::Own(RxCall::Packet(1, [60, 0, 0], 3)), Expected::True),
    ],
];

/// Disabled, reclaimed and renewed.
const RENEWED: &[&[Row]] = &[
    &[
        (Call::AskDisable, Expected::Refused(DriverError::QueueOff)),
        (Call::FinishDisable, Expected::False),
        (Call::Reclaim, Expected::Count(0)),
    ],
    ENABLED,
    &[
        (Call::Batch, Expected::Count(0)),
        (Call::Renew, Expected::Refused(DriverError::NotReclaimed)),
        // a chain of two, whose end is left
        (Call::Own(RxCall::Store(60, false, 0)), Expected::True),
        (Call::Own(RxCall::Store(60, false, 1)), Expected::True),
        (Call::Batch, Expected::Count(0)),
        (Call::Own(RxCall::Store(60, true, 2)), Expected::True),
        (Call::AskDisable, Expected::True),
        (Call::AskDisable, Expected::Refused(DriverError::QueueOff)),
        (Call::Enable, Expected::False),
        (Call::FinishDisable, Expected::False),
        (Call::Answer, Expected::False),
        (Call::FinishDisable, Expected::Count(1)),
        (Call::FinishDisable, Expected::False),
        (Call::Batch, Expected::Refused(DriverError::QueueOff)),
        (Call::Enable, Expected::Refused(DriverError::NotReclaimed)),
        // room for two of seven: those of the chain
        (Call::Own(RxCall::Exchange), Expected::True),
        (Call::Own(RxCall::Cut(254)), Expected::True),
        (Call::Reclaim, Expected::Refused(DriverError::StashFull)),
        (Call::AtHand, Expected::Count(256)),
        (Call::Own(RxCall::HasChain), Expected::False),
        (Call::Renew, Expected::Refused(DriverError::NotReclaimed)),
        (Call::Own(RxCall::Exchange), Expected::True),
        (Call::AtHand, Expected::Count(0)),
        (Call::Reclaim, Expected::Count(5)),
        (Call::Reclaim, Expected::Count(0)),
        (Call::Enable, Expected::Refused(DriverError::NotReclaimed)),
        (Call::Renew, Expected::True),
        (Call::Renew, Expected::Refused(DriverError::NotReclaimed)),
    ],
    ENABLED,
    &[
        (Call::Batch, Expected::Count(0)),
        (Call::Room, Expected::Count(2)),
        (Call::Own(RxCall::Store(60, true, 0)), Expected::True),
        (Call::Batch, Expected::Count(1)),
        (Call::AskDisable, Expected::True),
        (Call::Answer, Expected::False),
        (Call::FinishDisable, Expected::Count(0)),
    ],
];

/// The quiet word is seen.
const QUIET: &[&[Row]] = &[
    ENABLED,
    &[
        (Call::Batch, Expected::Count(0)),
        (Call::Own(RxCall::IsQuiet), Expected::False),
        (Call::Own(RxCall::Store(60, true, 0)), Expected::True),
        (Call::Own(RxCall::SayQuiet), Expected::True),
        (Call::Own(RxCall::IsQuiet), Expected::True),
        (Call::Own(RxCall::Store(60, true, 1)), Expected::False),
        (Call::Batch, Expected::Count(1)),
        (Call::Batch, Expected::Count(0)),
    ],
];

#[test]
fn chains_disablings_and_quiet(rt: HostRuntime) {
    for parts in [CHAINED, RENEWED, QUIET] {
        each_tells(&rt, rt.alloc(), 32, 7, parts);
    }
}
