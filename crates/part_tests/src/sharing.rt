//! One pool for four threads.
ghost use Rattle.std.specs.Prelude.{◌+◌, ◌<◌};
ghost use Rattle.pool.specs.declared.hand.TheConstants.{WHOLE_SHARE};
ghost use Rattle.part_tests.specs.Idle.{HoldsNone};

use crate::{Job, work};
use pool::{Pool, PoolPass, WHOLE_SHARE};
use std::sync::Wait;
use std::thread;
use std::thread::Threads;

/// Half of the whole share, and a quarter.
const HALF: u32 = WHOLE_SHARE / 2;

const QUARTER: u32 = WHOLE_SHARE / 4;

/// Runs four workers on one pool, and joins them. The pass has the whole share and holds nothing, before and after.
pub fn share_out<R: Threads + Wait + Sync>(
    rt: &R,
    pool: &Pool,
    pass: PoolPass,
    job: Job,
) -> PoolPass
    requires { HoldsNone pool.now WHOLE_SHARE pass }
    ensures { HoldsNone pool.now WHOLE_SHARE result }
{
    halved(
        rt,
        pool,
        pass,
        HALF,
        |part|
            requires { HoldsNone pool.now HALF part }
        { in_two(rt, pool, part, job) },
    )
}

/// Runs two workers on one pool, and joins them. The pass has half of the whole share and holds nothing, before and
/// after.
pub fn in_two<R: Threads + Wait + Sync>(rt: &R, pool: &Pool, pass: PoolPass, job: Job) -> PoolPass
    requires { HoldsNone pool.now HALF pass }
    ensures { HoldsNone pool.now HALF result }
{
    halved(rt, pool, pass, QUARTER, |part| work(rt, pool, part, job))
}

/// Splits a share in two, runs two threads with half of it each, and joins them.
fn halved<R: Threads + Sync, W: Fn(PoolPass) -> PoolPass + Sync>(
    rt: &R,
    pool: &Pool,
    mut pass: PoolPass,
    half: u32,
    work: W,
) -> PoolPass
    requires some { 0 < half }
    requires idle { HoldsNone pool.now (half + half) pass }
    requires works { (one : _) → HoldsNone pool.now half one → W.pre work one }
    requires gives { (one back : _) → HoldsNone pool.now half one → W.post work one back → HoldsNone pool.now half back }
    ensures { HoldsNone pool.now (half + half) result }
{
    let other = pass.split(pool, half);
    let work = &work;
    let (mut pass, other) = thread::join(
        rt,
        move || -> PoolPass
            requires { W.pre work.now pass }
            ensures { W.post work.entry.now pass result }
        { work(pass) },
        move || -> PoolPass
            requires { W.pre work.now other }
            ensures { W.post work.entry.now other result }
        { work(other) },
    );
    pass.join(pool, other);
    pass
}
