//! Drawn lists and covering lists whose output fails, and the memory of drawn lists.

use crate::tests::failing::{has_beginning, is_refused};
use crate::tests::streams::{Input, Output};
use crate::tests::wanted::{holds, same};
use ring_machine::Completion;
use schedules::{SchedulePlan, Thresholds, draw};
use std::alloc::Global;

const DRAWN: &[&str] = &["schedules", "--seed", "1", "--moves", "4", "--count", "2"];

/// Its output.
const TWO_LISTS: &str = "r0 A1 50788\n\
     t0 B1 4685 14 0 0 31\n\
     t0 B1 44665 17 1 1 31\n\
     t0 B7\n\
     # end\n\
     t0 B1 13746 22 1 1 22\n\
     t0 B1 31314 1187 0 0 1243\n\
     r0 A1 16182\n\
     t0 B7\n\
     # end\n";

#[test]
fn drawn_lists_have_a_beginning_where_the_output_fails(rt: HostRuntime) {
    let whole = TWO_LISTS.as_bytes();
    for room in 0..whole.len() {
        has_beginning(&rt, rt.alloc(), (DRAWN, b""), whole, room);
    }
}

const COVERING: &[&str] = &["schedules", "--cover", "--device-only-real"];

/// The beginning of its output.
const FIRST: &str = "# r0 A4 driver On controller serving: not enabled\nr0 A4\n# end\n";

#[test]
fn covering_lists_have_a_beginning_where_the_output_fails(rt: HostRuntime) {
    let room = FIRST.len() + 3;
    let streams = (Input::of(b""), Output::narrow(rt.alloc(), room));
    let taken = is_refused(&rt, rt.alloc(), COVERING, streams, "refused 84 output\n");
    let begins = taken.as_slice().starts_with(FIRST.as_bytes());
    same(&rt, (begins, taken.len()), (true, room));
}

const PLAN: SchedulePlan = SchedulePlan {
    pairs: 1,
    ring: 8,
    enabled: false,
    completion: Completion::Status,
    moves: 1000,
    refused: 0,
    device_only: false,
    driver: None,
};

/// For a driver. No move is refused, whatever the plan says.
const DRIVEN: SchedulePlan = SchedulePlan {
    pairs: 2,
    ring: 32,
    enabled: true,
    refused: 10,
    device_only: true,
    driver: Some(Thresholds {
        refill: 8,
        report: 8,
        clean: 16,
    }),
    ..PLAN
};

/// The number of moves of a list, and the number of its refusal.
fn answer(alloc: Global, plan: &SchedulePlan) -> (usize, u8) {
    match draw(alloc, plan, 0, 0) {
        Ok(drawn) => (drawn.len(), 0),
        Err(error) => (0, error.number()),
    }
}

// This also passes when any one allocation fails, as with `rt try --test --fail-alloc N`.
#[test]
fn want_of_memory(rt: HostRuntime) {
    for plan in [PLAN, DRIVEN].as_slice() {
        let told = answer(rt.alloc(), plan);
        holds(&rt, told == (1000, 0) || told == (0, 13));
    }
}
