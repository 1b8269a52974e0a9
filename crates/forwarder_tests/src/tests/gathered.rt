//! After forwarding, the pool has all its buffers again.
ghost use Rattle.std.specs.Prelude.{◌≡◌};
ghost use Rattle.settings.specs.Configs.{FitsIn};
ghost use Rattle.pool.specs.Owned.{IsOf};
ghost use Rattle.pool.specs.declared.hand.TheConstants.{WHOLE_SHARE};

use crate::tests::bursts::{Burst, FORTY, FRAME, script_of};
use crate::tests::gates::{Midway, Shuts, Stops};
use crate::tests::trials::{Asked, Trial, each_is_so};
use crate::tests::wanted::{holds, same};
use buffer_pool::Stash;
use forwarder::{Config, forward_in};
use forwarding::{ForwardError, Gate, Open};
use pool::{Pool, PoolPass};
use std::alloc::Global;
use std::process::Abort;
use std::rt::Clock;
use std::sync::Wait;
use std::thread::Threads;
use wire_script::Script;

/// The number of buffers of a pool here.
pub(crate) const BUFFERS: u32 = 64;

/// How often each number came out of a pool.
#[derive(Drop)]
pub(crate) struct Numbers {
    times: [u8; 64],
    strange: bool,
}

impl Numbers {
    /// Whether each came once.
    pub(crate) fn came_once(&self) -> bool {
        !self.strange && self.times == [1; 64]
    }

    fn count(&mut self, number: u16) {
        match self.times.get_mut(usize::from(number)) {
            Some(times) => *times = times.saturating_add(1),
            None => self.strange = true,
        }
    }
}

/// Takes all buffers out of a pool, and returns their numbers. They stay out.
fn taken_out<R: Wait>(rt: &R, pool: &Pool, pass: &mut PoolPass) -> Numbers
    requires { IsOf pool.now pass.old }
{
    let mut numbers = Numbers {
        times: [0; 64],
        strange: false,
    };
    let mut stash = Stash::new();
    pool.refill(rt, pass, &mut stash, 256);
    for _ in 0..stash.len() {
        if let Some(buf) = stash.take() {
            numbers.count(buf.number());
        }
    }
    numbers
}

/// The script to forward, and the configuration.
#[derive(Clone, Copy)]
pub(crate) struct Forwarding<'a> {
    pub script: &'a Script,
    pub config: &'a Config,
}

/// Forwards over a new pool. Returns the refusal, and the pool's buffers afterwards.
fn ended<R: Threads + Wait + Clock + Sync + Abort, G: Gate + Sync>(
    rt: &R,
    alloc: Global,
    forwarding: Forwarding<'_>,
    gate: &G,
) -> (Option<ForwardError>, Numbers) {
    let Forwarding { script, config } = forwarding;
    config.check(script).expect(rt, "a lawful configuration");
    let (pool, pass) = Pool::new(rt, alloc, BUFFERS).expect(rt, "a pool");
    ended_over(rt, alloc, forwarding, gate, &pool, pass)
}

/// Forwards over this pool. Returns the refusal, and the pool's buffers afterwards.
pub(crate) fn ended_over<R: Threads + Wait + Clock + Sync + Abort, G: Gate + Sync>(
    rt: &R,
    alloc: Global,
    forwarding: Forwarding<'_>,
    gate: &G,
    pool: &Pool,
    mut pass: PoolPass,
) -> (Option<ForwardError>, Numbers)
    requires fits { FitsIn forwarding.script.now forwarding.config.now }
    requires pool { IsOf pool.now pass }
    requires share { pass.hand.share ≡ WHOLE_SHARE }
{
    let Forwarding { script, config } = forwarding;
    let mut spare = pass.split(pool, 1);
    let refusal = forward_in(rt, alloc, script, config, gate, pool, &mut pass).err();
    (refusal, taken_out(rt, pool, &mut spare))
}

/// 40 frames of five segments each.
const LONG: &[Burst] = &[Burst {
    port: 1,
    queue: 0,
    len: 5_000,
    first: 0,
    count: 40,
}];

/// Four flows with all of the pool's buffers.
const ALL: Config = Config {
    pairs: 2,
    ring: 16,
    batch: 2,
    buffers: BUFFERS,
    bsize: 1_024,
    ..Config::DEFAULT
};

/// Whether all buffers are back after a refusal at this number of passes.
pub(crate) fn are_back<R: Threads + Wait + Clock + Sync + Abort>(rt: &R, trial: Trial<'_>) -> bool {
    let config = Config {
        workers: trial.workers,
        ..ALL
    };
    let gate = Shuts::after(u64::from(trial.number));
    let forwarding = Forwarding {
        script: trial.script,
        config: &config,
    };
    let (refusal, numbers) = ended(rt, trial.alloc, forwarding, &gate);
    refusal == Some(ForwardError::Gate) && numbers.came_once()
}

#[test]
fn all_back_after_a_refusal(rt: HostRuntime) {
    for bursts in [FORTY, LONG] {
        let passes = [0, 1, 3, 10, 40, 79];
        each_is_so(&rt, rt.alloc(), Asked::AreBack, bursts, &passes);
    }
}

/// Whether all buffers are back after this number of turns.
pub(crate) fn are_back_at_the_end<R: Threads + Wait + Clock + Sync + Abort>(
    rt: &R,
    trial: Trial<'_>,
) -> bool {
    let config = Config {
        workers: trial.workers,
        turns: trial.number,
        retry: trial.workers % 2 == 0,
        ..ALL
    };
    let forwarding = Forwarding {
        script: trial.script,
        config: &config,
    };
    let (refusal, numbers) = ended(rt, trial.alloc, forwarding, &Open);
    refusal.is_none() && numbers.came_once()
}

#[test]
fn all_back_after_a_report(rt: HostRuntime) {
    for bursts in [FORTY, LONG] {
        each_is_so(&rt, rt.alloc(), Asked::AreBackAtTheEnd, bursts, &[0, 1, 5]);
    }
}

/// 40 frames for flow 0.
const ZERO: &[Burst] = &[Burst { count: 40, ..FRAME }];

/// 40 frames of 15 segments each.
const LONGEST: &[Burst] = &[Burst {
    len: 15_000,
    count: 40,
    ..FRAME
}];

/// Whether all buffers are back after this gate refused, or no one was refused.
fn are_back_after<R: Threads + Wait + Clock + Sync + Abort, G: Gate + Sync>(
    rt: &R,
    alloc: Global,
    script: &Script,
    gate: &G,
) -> bool {
    let config = &ALL;
    let (refusal, numbers) = ended(rt, alloc, Forwarding { script, config }, gate);
    matches!(refusal, None | Some(ForwardError::Gate)) && numbers.came_once()
}

// After one pass of the driver two packets wait, and after two they are in the transmit ring.
#[test]
fn packets_that_wait_come_back(rt: HostRuntime) {
    let script = script_of(&rt, rt.alloc(), ZERO);
    for passes in 0..8 {
        let gate = Stops::after(passes);
        let good = are_back_after(&rt, rt.alloc(), &script, &gate);
        same(&rt, (passes, good), (passes, true));
    }
}

#[test]
fn a_frame_that_is_taken_in_part_comes_back(rt: HostRuntime) {
    let script = script_of(&rt, rt.alloc(), LONGEST);
    for _ in 0..20 {
        let gate = Midway::new();
        holds(&rt, are_back_after(&rt, rt.alloc(), &script, &gate));
    }
}
