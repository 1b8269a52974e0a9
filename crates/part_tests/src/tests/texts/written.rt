//! Captures that are written.

use crate::tests::wanted::same;
use capture::{CaptureRecord, TimeUnit, read, write};
use std::alloc::Global;
use std::process::Abort;

/// Magic number; versions 2 and 4; zone and accuracy 0; snap length 65,535; Ethernet. Then seconds and microseconds,
/// twice the length of 14, and the frame.
const WRITTEN: &[u8] =
    b"\xd4\xc3\xb2\xa1\x02\0\x04\0\0\0\0\0\0\0\0\0\xff\xff\0\0\x01\0\0\0\0\xf1\x53\x65\x3f\x42\x0f\0\x0e\0\0\0\x0e\0\0\0\xab\xab\xab\xab\xab\xab\xab\xab\xab\xab\xab\xab\xab\xab";

#[test]
fn a_capture_is_written_as_the_format_says(rt: HostRuntime) {
    let frame = [0xabu8; 14];
    let records = [CaptureRecord::new(0x6553_f100, 999_999, &frame)];
    let written = write(rt.alloc(), &records).expect(&rt, "memory");
    same(&rt, written.as_slice(), WRITTEN);
}

// A written capture is read back, or memory is refused.
fn is_read<R: Abort>(rt: &R, alloc: Global, written: &[u8]) {
    match read(alloc, written) {
        Ok(capture) => {
            same(rt, capture.unit(), TimeUnit::Micros);
            same(rt, capture.records().len(), 2);
        }
        Err(refused) => same(rt, (refused.number(), refused.record()), (97, None)),
    }
}

// Also passes if any one allocation is refused, as by `rt try --test --fail-alloc 1..`.
#[test]
fn want_of_memory_is_97_and_changes_no_answer(rt: HostRuntime) {
    let frame = [7u8; 60];
    let records = [
        CaptureRecord::new(1, 2, &frame),
        CaptureRecord::new(3, 4, &frame[..14]),
    ];
    match write(rt.alloc(), &records) {
        Ok(written) => {
            same(&rt, written.len(), 24 + 16 + 60 + 16 + 14);
            is_read(&rt, rt.alloc(), written.as_slice());
        }
        Err(refused) => same(&rt, (refused.number(), refused.record()), (97, None)),
    }
}
