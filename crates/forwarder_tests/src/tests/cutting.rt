//! Flows that are cut after their turns, or by a flag.

use crate::tests::bursts::{Burst, FORTY, FORTY_COUNTS, script_of};
use crate::tests::configs::SHORT;
use crate::tests::counted::{carries, comes_to, counts_of, is_drained};
use crate::tests::gates::{Missed, Turns};
use crate::tests::wanted::{holds, same};
use flows::{Ended, FlowReport};
use forwarder::{Config, Report, forward, forward_with};
use forwarding::Open;
use pool::Pool;
use std::alloc::Global;
use std::process::Abort;
use std::rt::Clock;
use std::sync::Wait;
use std::sync::atomic::AtomicBool;
use std::thread::Threads;
use wire_script::Script;

/// Whether the counts of a flow of single segments add up, if nothing is dropped at the receive ring: all stored frames
/// were taken or are left, and all posted ones were sent or are left.
fn adds_up(flow: &FlowReport) -> bool {
    let came = flow.tally.stored.saturating_add(flow.driven.posted);
    let went = flow.driven.taken.saturating_add(flow.wire.len() as u64);
    flow.tally.offered == flow.tally.stored && came == went.saturating_add(flow.left)
}

/// Whether there are four flows, and each adds up.
fn all_add_up(flows: &[FlowReport]) -> bool {
    let mut good = flows.len() == 4;
    for flow in flows {
        good &= adds_up(flow);
    }
    good
}

/// Whether all taken packets were posted or dropped, or wait if packets are kept, and the wire has the expected frames.
fn is_relayed(flow: &FlowReport, script: &Script, retry: bool) -> bool {
    let gone = flow.driven.posted.saturating_add(flow.driven.tx_dropped);
    if retry {
        flow.driven.tx_dropped == 0
            && gone <= flow.driven.taken
            && carries(&flow.wire, script, 0, 1)
    } else {
        gone == flow.driven.taken
    }
}

/// Whether flow 1 was cut after the `made` turns that it made, with up to 7 frames taken a turn, and all flows add up.
fn was_cut(report: &Report, script: &Script, made: u64, retry: bool) -> bool {
    let Some(flow) = report.flow(0, 1) else {
        return false;
    };
    let few = flow.driven.taken <= made.saturating_mul(7);
    few && flow.ended == Ended::Cut && is_relayed(flow, script, retry) && all_add_up(&report.flows)
}

/// The script, the number of turns after which flow 1 is cut, and whether packets are kept.
#[derive(Clone, Copy)]
struct Cut<'a> {
    script: &'a Script,
    turns: u32,
    retry: bool,
}

/// Whether flow 1 is cut after exactly these turns.
fn is_cut<R: Threads + Wait + Clock + Sync + Abort>(rt: &R, alloc: Global, cut: Cut<'_>) -> bool {
    let config = Config {
        turns: cut.turns,
        retry: cut.retry,
        ..SHORT
    };
    let gate = Turns::new();
    let report = forward(rt, alloc, cut.script, &config, &gate).expect(rt, "a report");
    gate.made() == u64::from(cut.turns) && was_cut(&report, cut.script, gate.made(), cut.retry)
}

/// Whether flow 1 is cut at the turn in which a flag is set, with no limit on the turns.
fn is_cut_by_a_flag<R: Threads + Wait + Clock + Sync + Abort>(
    rt: &R,
    alloc: Global,
    cut: Cut<'_>,
) -> bool {
    let config = Config {
        retry: cut.retry,
        ..SHORT
    };
    config
        .check(cut.script)
        .expect(rt, "a lawful configuration");
    let (pool, mut pass) = Pool::new(rt, alloc, config.buffers).expect(rt, "a pool");
    let gate = Turns::with_flag_at(u64::from(cut.turns));
    let stop = Some(gate.flag());
    let (report, pens) = forward_with(
        rt, alloc, cut.script, &config, &gate, &pool, &mut pass, None, stop,
    )
    .expect(rt, "a report");
    let made = gate.made() == u64::from(cut.turns) && pens.is_empty();
    made && was_cut(&report, cut.script, gate.made(), cut.retry)
}

/// Whether that holds if packets are kept, and if they are dropped, by a limit and by a flag.
fn is_cut_either_way<R: Threads + Wait + Clock + Sync + Abort>(
    rt: &R,
    alloc: Global,
    script: &Script,
    turns: u32,
) -> bool {
    let mut good = true;
    for retry in [true, false] {
        let cut = Cut {
            script,
            turns,
            retry,
        };
        good &= is_cut(rt, alloc, cut) && is_cut_by_a_flag(rt, alloc, cut);
    }
    good
}

// A turn takes at most the 7 frames of a ring of 8, so 5 turns are too few for 40.
#[test]
fn a_flow_is_cut_after_its_turns(rt: HostRuntime) {
    let script = script_of(&rt, rt.alloc(), FORTY);
    for turns in [1, 2, 5] {
        let good = is_cut_either_way(&rt, rt.alloc(), &script, turns);
        same(&rt, (turns, good), (turns, true));
    }
}

/// Whether a flow that ends before the flag is set is drained.
fn none_is_cut_before_the_flag<R: Threads + Wait + Clock + Sync + Abort>(
    rt: &R,
    alloc: Global,
    script: &Script,
) -> bool {
    SHORT.check(script).expect(rt, "a lawful configuration");
    let (pool, mut pass) = Pool::new(rt, alloc, SHORT.buffers).expect(rt, "a pool");
    let stop = AtomicBool::new(false);
    let (report, _) = forward_with(
        rt,
        alloc,
        script,
        &SHORT,
        &Open,
        &pool,
        &mut pass,
        None,
        Some(&stop),
    )
    .expect(rt, "a report");
    is_drained(&report, script, 2, FORTY_COUNTS)
}

#[test]
fn while_no_flag_is_set_no_flow_is_cut(rt: HostRuntime) {
    let script = script_of(&rt, rt.alloc(), FORTY);
    holds(&rt, none_is_cut_before_the_flag(&rt, rt.alloc(), &script));
}

/// Whether all 40 frames are sent within `turns` turns.
fn none_is_cut<R: Threads + Wait + Clock + Sync + Abort>(
    rt: &R,
    alloc: Global,
    script: &Script,
    turns: u32,
) -> bool {
    let config = Config { turns, ..SHORT };
    comes_to(rt, alloc, script, &config, &Open, FORTY_COUNTS)
}

#[test]
fn with_turns_enough_no_flow_is_cut(rt: HostRuntime) {
    let script = script_of(&rt, rt.alloc(), FORTY);
    for turns in [0, 1_000_000_000] {
        holds(&rt, none_is_cut(&rt, rt.alloc(), &script, turns));
    }
}

/// Frames of 5,000 bytes, which need 5 buffers filled to 1,024 bytes.
const LONG: &[Burst] = &[Burst {
    port: 0,
    queue: 0,
    len: 5_000,
    first: 0,
    count: 10,
}];

// A ring of 8 has room for one of them. The driver's only turn finds nothing.
#[test]
fn what_is_left_is_counted_in_segments(rt: HostRuntime) {
    let script = script_of(&rt, rt.alloc(), LONG);
    let config = Config {
        ring: 8,
        bsize: 1_024,
        turns: 1,
        ..Config::DEFAULT
    };
    let gate = Missed::new();
    let report = forward(&rt, rt.alloc(), &script, &config, &gate).expect(&rt, "a report");
    let flow = report.flow(0, 0).expect(&rt, "a flow");
    same(&rt, counts_of(flow), [1, 1, 0, 0, 0, 0, 0, 0, 5]);
    same(&rt, (flow.stored_bytes, flow.ended), (5_000, Ended::Cut));
    holds(&rt, gate.was_in_time() && report.flow(1, 1).is_none());
}
