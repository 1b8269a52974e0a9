//! Drivers and controllers run in threads of their own, over rings with limited room.

use crate::tests::bursts::{Burst, script_of};
use crate::tests::counted::{Counts, NONE, comes_to};
use crate::tests::gates::{After, Meeting};
use crate::tests::wanted::holds;
use forwarder::Config;
use std::alloc::Global;
use std::process::Abort;
use std::rt::Clock;
use std::sync::Wait;
use std::thread::Threads;
use wire_script::Script;

const ONE: &[Burst] = &[Burst {
    port: 0,
    queue: 0,
    len: 60,
    first: 1,
    count: 1,
}];

const ONE_COUNTS: &[Counts] = &[[1, 1, 0, 0, 1, 1, 0, 1, 0], NONE];

#[test]
fn a_driver_and_its_controller_wait_for_each_other(rt: HostRuntime) {
    let script = script_of(&rt, rt.alloc(), ONE);
    let gate = Meeting::new();
    holds(
        &rt,
        comes_to(
            &rt,
            rt.alloc(),
            &script,
            &Config::DEFAULT,
            &gate,
            ONE_COUNTS,
        ),
    );
    holds(&rt, gate.took_place());
}

const FORTY: &[Burst] = &[Burst {
    port: 0,
    queue: 0,
    len: 60,
    first: 0,
    count: 40,
}];

const SEVEN: &[Counts] = &[[40, 7, 33, 0, 7, 7, 0, 7, 0], NONE];

const FIFTEEN: &[Counts] = &[[40, 15, 25, 0, 15, 15, 0, 15, 0], NONE];

const SIXTEEN: &[Counts] = &[[40, 16, 24, 0, 16, 16, 0, 16, 0], NONE];

/// Whether 40 frames that are offered before the first is taken have these counts.
fn is_full<R: Threads + Wait + Clock + Sync + Abort>(
    rt: &R,
    alloc: Global,
    script: &Script,
    ring: u32,
    buffers: u32,
    wanted: &[Counts],
) -> bool {
    let config = Config {
        ring,
        buffers,
        drop_en: true,
        ..Config::DEFAULT
    };
    let gate = After::new(40);
    comes_to(rt, alloc, script, &config, &gate, wanted) && gate.was_in_time()
}

#[test]
fn a_full_ring_drops_what_comes(rt: HostRuntime) {
    let script = script_of(&rt, rt.alloc(), FORTY);
    holds(&rt, is_full(&rt, rt.alloc(), &script, 8, 4_096, SEVEN));
    holds(&rt, is_full(&rt, rt.alloc(), &script, 16, 4_096, FIFTEEN));
}

// Two flows share 32 buffers.
#[test]
fn a_flow_has_its_share_of_the_buffers(rt: HostRuntime) {
    let script = script_of(&rt, rt.alloc(), FORTY);
    holds(&rt, is_full(&rt, rt.alloc(), &script, 64, 32, SIXTEEN));
}
