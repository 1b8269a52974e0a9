//! Schedules of a running ring by calls in one thread, beside the pure machine that makes the same moves.

use crate::tests::receive::calls::both::{Both, Step};
use crate::tests::steps::{RxNamed, rx_step};
use crate::tests::wanted::{holds, same};
use crate::{Beside, Random, Survey, Walk};
use ring_model::{ControlStep, RxStep};
use std::alloc::Global;
use std::process::Abort;

// A frame of two segments, whose queue is disabled and reclaimed. The request for disabling is not in the list.
const LIST: &[RxNamed] = &[
    RxStep::Post(0),
    RxStep::Post(0),
    RxStep::Publish,
    RxStep::Look,
    RxStep::Fetch,
    RxStep::Store(1_024, false),
    RxStep::Head,
    RxStep::Control(ControlStep::LookAsked),
    RxStep::Control(ControlStep::Answer),
    RxStep::Fetch,
    RxStep::Store(10, true),
    RxStep::Control(ControlStep::Answer),
    RxStep::Head,
    RxStep::Control(ControlStep::Answer),
    RxStep::Control(ControlStep::LookAnswered),
    RxStep::Take,
    RxStep::Reclaim,
    RxStep::Reclaim,
    RxStep::Reclaim,
];

const ENABLING: &[RxNamed] = &[
    RxStep::Control(ControlStep::AskEnable),
    RxStep::Control(ControlStep::LookAsked),
    RxStep::Control(ControlStep::Answer),
    RxStep::Control(ControlStep::LookAnswered),
];

// Makes the steps. Returns whether the ring and its machine agreed at each.
fn walks<B: Beside<Step = Step> + Drop>(walk: &mut Walk<B>, steps: &[RxNamed]) -> bool {
    for step in steps {
        match rx_step(*step) {
            Some(step) if walk.make(step) => {}
            _ => return false,
        }
    }
    true
}

// Makes the list on an enabled queue, with the request for disabling before the move of this index. Returns the number
// of moves made, if the ring and its machine agreed.
fn made_with<B: Beside<Step = Step> + Drop>(both: B, index: usize) -> Option<usize> {
    let mut walk = Walk::new(both);
    let (before, after) = LIST.split_at(index.min(LIST.len()));
    let agree = walks(&mut walk, ENABLING)
        && walks(&mut walk, before)
        && walks(&mut walk, &[RxStep::Control(ControlStep::AskDisable)])
        && walks(&mut walk, after);
    let made = walk.made;
    if walk.closes() && agree {
        made.checked_sub(4)
    } else {
        None
    }
}

#[test]
fn at_every_step(rt: HostRuntime) {
    for index in 0..20 {
        let wanted = match index {
            0 => 6,
            1 => 8,
            2 => 10,
            3..=7 => 16,
            _ => 14,
        };
        let made = made_with(Both::new(&rt, rt.alloc(), 8), index);
        same(&rt, (index, made), (index, Some(wanted)));
    }
}

// Runs a thousand schedules on rings of 8 and 16. Returns the first on which the ring and its machine differ.
fn first_differing<R: Abort>(rt: &R, alloc: Global, survey: &mut Survey) -> Option<u32> {
    for schedule in 0..1_000u32 {
        let n = if schedule % 2 == 0 { 8 } else { 16 };
        if !survey.agrees(Both::new(rt, alloc, n)) {
            return Some(schedule);
        }
    }
    None
}

#[test]
fn random_schedules(rt: HostRuntime) {
    let mut survey = Survey::new(Random::new(82_599));
    same(&rt, first_differing(&rt, rt.alloc(), &mut survey), None);
    holds(&rt, survey.is_rich(1_000));
}
