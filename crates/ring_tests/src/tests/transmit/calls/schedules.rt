//! Random schedules of a running ring by calls in one thread, beside the pure machine that makes the same moves.

use crate::tests::transmit::calls::both::Both;
use crate::tests::wanted::{holds, same};
use crate::{Random, Survey};
use std::alloc::Global;
use std::process::Abort;
use tx_ring::Completion;

// Runs a thousand schedules on rings of 8 and 16. Returns the first on which the ring and its machine differ.
fn first_differing<R: Abort>(
    rt: &R,
    alloc: Global,
    survey: &mut Survey,
    completion: Completion,
) -> Option<u32> {
    for schedule in 0..1_000u32 {
        let n = if schedule % 2 == 0 { 8 } else { 16 };
        if !survey.agrees(Both::new(rt, alloc, n, completion)) {
            return Some(schedule);
        }
    }
    None
}

// Checks that a thousand schedules agree and do enough.
fn all_agree<R: Abort>(rt: &R, alloc: Global, completion: Completion) {
    let mut survey = Survey::new(Random::new(15_000));
    same(
        rt,
        first_differing(rt, alloc, &mut survey, completion),
        None,
    );
    holds(rt, survey.is_rich(1_000));
}

#[test]
fn random_schedules(rt: HostRuntime) {
    all_agree(&rt, rt.alloc(), Completion::Status);
    all_agree(&rt, rt.alloc(), Completion::Head)
}
