//! Frames that are offered more than once, and sent frames that are only counted.

use crate::tests::bursts::{FORTY, script_of};
use crate::tests::configs::SHORT;
use crate::tests::counted::{Counts, counts_of, is_touched};
use crate::tests::wanted::holds;
use flows::FlowReport;
use forwarder::{Config, Report, forward};
use forwarding::Open;
use wire_script::Script;

/// The 40 frames, three times.
const THRICE: Config = Config { repeat: 3, ..SHORT };

const THRICE_COUNTS: Counts = [120, 120, 0, 0, 120, 120, 0, 120, 0];

/// The 40 frames a thousand times, by two workers a side, which count the frames that they send.
const UNKEPT: Config = Config {
    repeat: 1_000,
    keep: false,
    workers: 2,
    ..SHORT
};

const UNKEPT_COUNTS: Counts = [40_000, 40_000, 0, 0, 40_000, 40_000, 0, 0, 0];

/// Whether the wire has the frames of the script, touched, again and again.
fn goes_in_rounds(flow: &FlowReport, script: &Script) -> bool {
    let mut frames = script.frames().iter();
    for sent in flow.wire.iter() {
        let frame = match frames.next() {
            Some(frame) => Some(frame),
            None => {
                frames = script.frames().iter();
                frames.next()
            }
        };
        if !frame.is_some_and(|frame| is_touched(frame.bytes(), sent)) {
            return false;
        }
    }
    true
}

/// The report of the 40 frames' flow has these counts, and numbers of frames and bytes sent; the frames on its wire are
/// those of the script, again and again.
fn has_sent(report: &Report, script: &Script, counts: Counts, sent: (u64, u64)) -> bool {
    let Some(flow) = report.flow(0, 1) else {
        return false;
    };
    counts_of(flow) == counts
        && (flow.sent, flow.sent_bytes) == sent
        && goes_in_rounds(flow, script)
}

#[test]
fn repeated_frames_go_out_in_rounds(rt: HostRuntime) {
    let script = script_of(&rt, rt.alloc(), FORTY);
    let report = forward(&rt, rt.alloc(), &script, &THRICE, &Open).expect(&rt, "a report");
    holds(&rt, has_sent(&report, &script, THRICE_COUNTS, (120, 7_200)));
}

#[test]
fn unkept_frames_are_counted(rt: HostRuntime) {
    let script = script_of(&rt, rt.alloc(), FORTY);
    let report = forward(&rt, rt.alloc(), &script, &UNKEPT, &Open).expect(&rt, "a report");
    holds(
        &rt,
        has_sent(&report, &script, UNKEPT_COUNTS, (40_000, 2_400_000)),
    );
}
