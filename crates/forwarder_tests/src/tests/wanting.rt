//! Lack of memory and of threads. These tests also pass with any one allocation refused (`rt try --test --fail-alloc
//! 1..`), and if a thread cannot be started.

use crate::tests::configs::SHORT;
use crate::tests::counted::{Counts, NONE, is_drained};
use crate::tests::gathered::{BUFFERS, Forwarding, ended_over};
use crate::tests::wanted::holds;
use forwarder::{Config, forward};
use forwarding::{ForwardError, Open};
use pool::Pool;
use wire_script::parse;

const TWO: &[u8] = b"0 1 fill 60 00\n0 1 fill 60 01\n";

const TWO_COUNTS: &[Counts] = &[NONE, [2, 2, 0, 0, 2, 2, 0, 2, 0], NONE, NONE];

/// Two workers a side.
const TWO_WORKERS: Config = Config {
    buffers: BUFFERS,
    workers: 2,
    ..SHORT
};

/// Whether a refusal is for lack of memory or threads, or there is none.
fn is_want(refusal: Option<ForwardError>) -> bool {
    matches!(
        refusal,
        None | Some(ForwardError::Memory | ForwardError::Thread)
    )
}

#[test]
fn without_memory_or_threads_that_is_answered(rt: HostRuntime) {
    let Ok(script) = parse(rt.alloc(), TWO) else {
        return;
    };
    match forward(&rt, rt.alloc(), &script, &TWO_WORKERS, &Open) {
        Ok(report) => holds(&rt, is_drained(&report, &script, 2, TWO_COUNTS)),
        Err(refusal) => holds(&rt, is_want(Some(refusal))),
    }
}

#[test]
fn without_memory_or_threads_no_buffer_is_lost(rt: HostRuntime) {
    let Ok(script) = parse(rt.alloc(), TWO) else {
        return;
    };
    TWO_WORKERS
        .check(&script)
        .expect(&rt, "a lawful configuration");
    let Ok((pool, pass)) = Pool::new(&rt, rt.alloc(), BUFFERS) else {
        return;
    };
    let forwarding = Forwarding {
        script: &script,
        config: &TWO_WORKERS,
    };
    let (refusal, numbers) = ended_over(&rt, rt.alloc(), forwarding, &Open, &pool, pass);
    holds(&rt, is_want(refusal) && numbers.came_once());
}
