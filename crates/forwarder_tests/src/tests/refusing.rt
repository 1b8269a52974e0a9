//! Gates that refuse.

use crate::tests::bursts::{FORTY, FRAME, script_of};
use crate::tests::configs::SHORT;
use crate::tests::gates::{LateStop, Leaving, Shuts};
use crate::tests::trials::{Asked, ONCE, Trial, each_is_so};
use crate::tests::wanted::{holds, same};
use forwarder::{Config, forward};
use forwarding::ForwardError;
use std::process::Abort;
use std::rt::Clock;
use std::sync::Wait;
use std::thread::Threads;

/// Whether forwarding is refused by a gate that refuses after this number of passes.
pub(crate) fn is_refused<R: Threads + Wait + Clock + Sync + Abort>(
    rt: &R,
    trial: Trial<'_>,
) -> bool {
    let config = Config {
        workers: trial.workers,
        ..SHORT
    };
    let gate = Shuts::after(u64::from(trial.number));
    let refusal = forward(rt, trial.alloc, trial.script, &config, &gate).err();
    refusal == Some(ForwardError::Gate) && gate.left() == 0
}

// There are at least 40 offers and 40 transmit turns, so each of these gates refuses.
#[test]
fn wherever_a_gate_refuses_that_is_answered(rt: HostRuntime) {
    let passes = [0, 1, 2, 3, 10, 40, 79];
    each_is_so(&rt, rt.alloc(), Asked::IsRefused, FORTY, &passes);
}

/// Whether each worker's driver was at its gate while an offer was refused, and left it before `forward` returned.
pub(crate) fn is_left<R: Threads + Wait + Clock + Sync + Abort>(rt: &R, trial: Trial<'_>) -> bool {
    let workers = u64::from(trial.workers);
    let config = Config {
        workers: trial.workers,
        ..SHORT
    };
    let gate = Leaving::new(workers);
    let refusal = forward(rt, trial.alloc, trial.script, &config, &gate).err();
    let (came, left) = gate.came_and_left();
    refusal == Some(ForwardError::Gate) && came >= workers && left == came
}

#[test]
fn all_workers_are_joined_before_a_refusal_is_answered(rt: HostRuntime) {
    each_is_so(&rt, rt.alloc(), Asked::IsLeft, &[FRAME], ONCE);
}

// The turn that was under way passes the gate of its transmit queue. No other of the worker's 16 flows has a turn.
#[test]
fn a_worker_stops_before_its_next_flow(rt: HostRuntime) {
    let script = script_of(&rt, rt.alloc(), &[FRAME]);
    let config = Config {
        pairs: 8,
        ..Config::DEFAULT
    };
    let gate = LateStop::new();
    let refusal = forward(&rt, rt.alloc(), &script, &config, &gate).err();
    same(&rt, refusal, Some(ForwardError::Gate));
    let passes = gate.passes().expect(&rt, "a stop");
    holds(&rt, passes <= 1);
}
