//! Configurations that are refused, and those at the edge of the lawful ones.

use crate::tests::bursts::{Burst, script_of};
use crate::tests::counted::{Counts, NONE, comes_to};
use crate::tests::gates::Shuts;
use crate::tests::wanted::{holds, same};
use forwarder::{Config, forward};
use forwarding::{ForwardError, Open};
use std::alloc::Global;
use std::process::Abort;
use std::rt::Clock;
use std::sync::Wait;
use std::thread::Threads;
use wire_script::Script;

/// The least lawful numbers.
const LEAST: Config = Config {
    ring: 8,
    batch: 1,
    buffers: 32,
    bsize: 1_024,
    rs_every: 1,
    ..Config::DEFAULT
};

/// The greatest lawful numbers.
const GREATEST: Config = Config {
    pairs: 8,
    ring: 4_096,
    buffers: 65_536,
    rs_every: 4_096,
    workers: 16,
    turns: 4_294_967_295,
    ..Config::DEFAULT
};

/// Configurations with one number beyond its limits.
const BROKEN: &[Config] = &[
    Config { pairs: 0, ..LEAST },
    Config {
        pairs: 9,
        ..GREATEST
    },
    Config { ring: 0, ..LEAST },
    Config { ring: 4, ..LEAST },
    Config { ring: 7, ..LEAST },
    Config { ring: 9, ..LEAST },
    Config {
        ring: 4_095,
        ..GREATEST
    },
    Config {
        ring: 4_097,
        ..GREATEST
    },
    Config {
        ring: 8_192,
        ..GREATEST
    },
    Config { batch: 0, ..LEAST },
    Config {
        batch: 33,
        ..GREATEST
    },
    Config {
        buffers: 31,
        ..LEAST
    },
    Config {
        buffers: 255,
        ..GREATEST
    },
    Config {
        buffers: 65_537,
        ..GREATEST
    },
    Config { bsize: 0, ..LEAST },
    Config {
        bsize: 1_023,
        ..LEAST
    },
    Config {
        bsize: 1_025,
        ..LEAST
    },
    Config {
        bsize: 2_047,
        ..GREATEST
    },
    Config {
        bsize: 2_049,
        ..GREATEST
    },
    Config {
        rs_every: 0,
        ..LEAST
    },
    Config {
        rs_every: 4_097,
        ..GREATEST
    },
    Config {
        workers: 0,
        ..LEAST
    },
    Config {
        workers: 3,
        ..LEAST
    },
    Config {
        workers: 17,
        ..GREATEST
    },
    Config { repeat: 0, ..LEAST },
    Config {
        repeat: 1_000_001,
        ..GREATEST
    },
];

/// How many of these are refused before anything is done, up to the first that is not.
fn refused<R: Threads + Wait + Clock + Sync + Abort>(
    rt: &R,
    alloc: Global,
    script: &Script,
    configs: &[Config],
) -> usize {
    let mut count = 0usize;
    for config in configs {
        let gate = Shuts::after(1);
        let refusal = forward(rt, alloc, script, config, &gate).err();
        if refusal != Some(ForwardError::Config) || gate.left() != 1 {
            return count;
        }
        count = count.saturating_add(1);
    }
    count
}

#[test]
fn a_broken_limit_is_refused_before_anything_is_done(rt: HostRuntime) {
    let script = script_of(&rt, rt.alloc(), &[]);
    same(&rt, refused(&rt, rt.alloc(), &script, BROKEN), BROKEN.len());
}

/// How many of these fit the script, up to the first that does not.
fn fitting(script: &Script, configs: &[Config]) -> usize {
    let mut count = 0usize;
    for config in configs {
        if config.check(script).is_err() {
            return count;
        }
        count = count.saturating_add(1);
    }
    count
}

/// The greatest lawful numbers, including `repeat`.
const REPEATED: Config = Config {
    repeat: 1_000_000,
    ..GREATEST
};

const EDGES: &[Config] = &[LEAST, Config::DEFAULT, GREATEST, REPEATED];

#[test]
fn the_edges_are_lawful(rt: HostRuntime) {
    let script = script_of(&rt, rt.alloc(), &[]);
    holds(&rt, Config::default() == Config::DEFAULT);
    same(&rt, fitting(&script, EDGES), 4);
}

/// Ten frames for port 1, queue 0.
const TEN: &[Burst] = &[Burst {
    port: 1,
    queue: 0,
    len: 1_500,
    first: 0,
    count: 10,
}];

const ALL_TEN: Counts = [10, 10, 0, 0, 10, 10, 0, 10, 0];

/// Their counts with 8 pairs.
const OF_SIXTEEN: &[Counts] = &[
    NONE, NONE, NONE, NONE, NONE, NONE, NONE, NONE, ALL_TEN, NONE, NONE, NONE, NONE, NONE, NONE,
    NONE,
];

#[test]
fn the_edges_are_run(rt: HostRuntime) {
    let script = script_of(&rt, rt.alloc(), TEN);
    let least = [NONE, ALL_TEN];
    holds(
        &rt,
        comes_to(&rt, rt.alloc(), &script, &LEAST, &Open, &least),
    );
    holds(
        &rt,
        comes_to(&rt, rt.alloc(), &script, &GREATEST, &Open, OF_SIXTEEN),
    );
}

/// Whether a frame of this port and queue is refused with `pairs` pairs, and accepted with one more.
fn has_just<R: Threads + Wait + Clock + Sync + Abort>(
    rt: &R,
    alloc: Global,
    port: u8,
    queue: u8,
    pairs: u32,
) -> bool {
    let burst = Burst {
        port,
        queue,
        len: 60,
        first: 0,
        count: 1,
    };
    let script = script_of(rt, alloc, &[burst]);
    let fewer = Config {
        pairs,
        ..Config::DEFAULT
    };
    let enough = Config {
        pairs: pairs.saturating_add(1),
        ..Config::DEFAULT
    };
    refused(rt, alloc, &script, &[fewer]) == 1 && enough.check(&script).is_ok()
}

#[test]
fn a_queue_that_is_not_there_is_refused(rt: HostRuntime) {
    for (port, queue, pairs) in [(0, 1, 1), (1, 1, 1), (1, 7, 7)] {
        let just = has_just(&rt, rt.alloc(), port, queue, pairs);
        same(&rt, (pairs, just), (pairs, true));
    }
}

const REFUSALS: &[(ForwardError, &str)] = &[
    (ForwardError::Memory, "61 memory"),
    (ForwardError::Gate, "62 gate"),
    (ForwardError::Thread, "63 thread"),
    (ForwardError::Config, "64 config"),
];

/// Checks the number and the text of a refusal.
fn reads<R: Abort>(rt: &R, alloc: Global, refusal: ForwardError, want: &str) {
    let text = format!(in alloc; "{} {refusal}", refusal.number()).expect(rt, "a text");
    same(rt, text.as_str(), want);
}

#[test]
fn refusals_have_a_number_and_a_text(rt: HostRuntime) {
    for row in REFUSALS {
        reads(&rt, rt.alloc(), row.0, row.1);
    }
}

/// A configuration in which no two numbers are the same.
const DISTINCT: Config = Config {
    pairs: 2,
    ring: 64,
    batch: 7,
    buffers: 4_000,
    bsize: 1_024,
    rs_every: 5,
    drop_en: true,
    retry: false,
    workers: 3,
    turns: 9,
    repeat: 6,
    keep: false,
    ..Config::DEFAULT
};

#[test]
fn debug_texts_name_each_number(rt: HostRuntime) {
    let text = format!(in rt.alloc(); "{DISTINCT:?}").expect(&rt, "a text");
    same(
        &rt,
        text.as_str(),
        "Config { pairs: 2, ring: 64, batch: 7, buffers: 4000, bsize: 1024, rs_every: 5, \
         drop_en: true, retry: false, workers: 3, turns: 9, repeat: 6, keep: false, \
         completion: Status }",
    );
    let script = script_of(&rt, rt.alloc(), TEN);
    let config = Config::DEFAULT;
    let report = forward(&rt, rt.alloc(), &script, &config, &Open).expect(&rt, "a report");
    let text = format!(in rt.alloc(); "{:?}", report.flow(1, 0)).expect(&rt, "a text");
    same(
        &rt,
        text.as_str(),
        "Some(FlowReport { tally: Tally { offered: 10, stored: 10, dropped: 0, oversize: 0 }, \
         stored_bytes: 15000, driven: Driven { taken: 10, posted: 10, tx_dropped: 0 }, \
         wire: 10, sent: 10, sent_bytes: 15000, left: 0, ended: Drained })",
    );
}
