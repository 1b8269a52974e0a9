//! The text of the line of `--rate`. `checks/runs` compares runs with and without it.

use crate::tests::wanted::same;
use program::RateLine;
use std::alloc::Global;
use std::process::Abort;

/// Whether a line is an object; its frames, bytes and nanoseconds; and its text. No time counts as a nanosecond, and
/// products that exceed a `u64` are its greatest number.
type RateRow = (bool, [u64; 3], &'static str);

const TEXTS: &[RateRow] = &[
    (
        false,
        [3, 42, 123_000],
        "rate frames 3 bytes 42 seconds 0.000123 mpps 0.024 gbps 0.002",
    ),
    (
        true,
        [1_000_000, 60_000_000, 2_500_000_999],
        "{\"frames\":1000000,\"bytes\":60000000,\"seconds\":2.500000,\"mpps\":0.399,\"gbps\":0.191}",
    ),
    (
        false,
        [1, 14, 0],
        "rate frames 1 bytes 14 seconds 0.000000 mpps 1000.000 gbps 112.000",
    ),
    (
        false,
        [u64::MAX; 3],
        "rate frames 18446744073709551615 bytes 18446744073709551615 seconds 18446744073.709551 mpps 0.001 gbps 0.001",
    ),
];

/// The line has this text.
fn has_text<R: Abort>(rt: &R, alloc: Global, (json, numbers, text): RateRow) {
    let [frames, bytes, nanos] = numbers;
    let line = RateLine {
        json,
        frames,
        bytes,
        nanos,
    };
    let written = format!(in alloc; "{line}").expect(rt, "memory");
    same(rt, written.as_str(), text);
}

#[test]
fn each_line_has_its_text(rt: HostRuntime) {
    for row in TEXTS {
        has_text(&rt, rt.alloc(), *row);
    }
}
