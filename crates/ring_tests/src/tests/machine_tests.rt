//! Rows of machines and queues: which can be made, how many moves of a list are made, and the owners of places after each.
//! `checks/runs` has what moves print.

use crate::tests::wanted::{holds, same};
use ring_machine::{
    Completion, MachineError, Move, Owner, QueueNumber, Queues, RxMachine, RxStep, TxMachine,
};
use std::alloc::Global;
use std::process::Abort;

// The refusal, if there is one.
fn refusal<T: Drop>(made: Result<T, MachineError>) -> Option<MachineError> {
    made.err()
}

// The refusals of a receive machine and of transmit machines with these arguments.
fn refusals(alloc: Global, n: usize, enabled: bool) -> [Option<MachineError>; 4] {
    [
        refusal(RxMachine::new(alloc, n, enabled)),
        refusal(TxMachine::new(alloc, n, enabled)),
        refusal(TxMachine::new_with(alloc, n, enabled, Completion::Status)),
        refusal(TxMachine::new_with(alloc, n, enabled, Completion::Head)),
    ]
}

const LAWFUL: &[usize] = &[8, 16, 32, 64, 128, 256, 512, 1_024, 2_048, 4_096];

// Checks that machines with these arguments are all refused so, or all made.
fn are_refused<R: Abort>(
    rt: &R,
    alloc: Global,
    n: usize,
    enabled: bool,
    wanted: Option<MachineError>,
) {
    let told = refusals(alloc, n, enabled);
    same(rt, (n, told), (n, [wanted; 4]));
}

#[test]
fn each_lawful_length_is_made(rt: HostRuntime) {
    for n in LAWFUL {
        are_refused(&rt, rt.alloc(), *n, true, None);
        are_refused(&rt, rt.alloc(), *n, false, None);
    }
}

const UNLAWFUL: &[usize] = &[0, 1, 4, 7, 9, 12, 4_095, 4_097, 8_192];

#[test]
fn other_lengths_are_refused(rt: HostRuntime) {
    for n in UNLAWFUL {
        are_refused(&rt, rt.alloc(), *n, true, Some(MachineError::RingLength));
    }
}

// Checks how many of these moves a pair of queues makes, and that it makes none of none.
fn makes<R: Abort>(rt: &R, alloc: Global, completion: Completion, moves: &[Move], wanted: usize) {
    let mut queues = Queues::new_with(alloc, 1, 8, true, completion).expect(rt, "queues");
    let made = queues.run(moves);
    same(rt, (made, queues.run(&[])), (wanted, 0));
}

// One frame each way. A move that cannot be made follows each way, and one move is of a missing queue.
const ONE_EACH_WAY: [&str; 17] = [
    "r0 A1 5",
    "r0 A2",
    "r0 A3",
    "r0 A4",
    "r0 A5 60 1",
    "r0 A6",
    "r0 A6",
    "r1 A2",
    "t0 B1 7 60 1 1 60",
    "t0 B2",
    "t0 B3",
    "t0 B4",
    "t0 B5",
    "t0 B6",
    "t0 B7",
    "t0 B8",
    "t0 B8",
];

// The moves of these lines, if each has one.
fn moves_of(lines: &[&str; 17]) -> Option<[Move; 17]> {
    let none = Move::Receive(QueueNumber::new(0)?, RxStep::Look);
    let mut moves = [none; 17];
    for k in 0..17 {
        match Move::parse(lines[k].as_bytes()) {
            Ok(action) => moves[k] = action,
            Err(_) => return None,
        }
    }
    Some(moves)
}

#[test]
fn run_answers_how_many_moves_it_made(rt: HostRuntime) {
    let moves = moves_of(&ONE_EACH_WAY).expect(&rt, "moves");
    makes(&rt, rt.alloc(), Completion::Status, &moves, 14);
    makes(&rt, rt.alloc(), Completion::Head, &moves, 14)
}

// Whether the move of a line is made.
fn is_made(queues: &mut Queues, line: &str) -> bool {
    match Move::parse(line.as_bytes()) {
        Ok(action) => queues.step(action).is_ok(),
        Err(_) => false,
    }
}

// Whether place 0 of the first receive queue and of the first transmit queue have these owners.
fn are_with<R: Abort>(rt: &R, queues: &Queues, sides: (Owner, Owner)) -> bool {
    let first = QueueNumber::new(0).expect(rt, "a number");
    let receive = queues.receive(first).expect(rt, "a queue");
    let transmit = queues.transmit(first).expect(rt, "a queue");
    if receive.size() < 8 || transmit.size() < 8 {
        return false;
    }
    receive.owner(0) == sides.0 && transmit.owner(0) == sides.1
}

// Whether there is no second pair of queues.
fn are_one_pair(queues: &Queues) -> bool {
    match QueueNumber::new(1) {
        Some(second) => queues.receive(second).is_none() && queues.transmit(second).is_none(),
        None => false,
    }
}

// A line, and the owners of both places after its move.
type Given = (&'static str, Owner, Owner);

// Checks that the line's move is made, and the owners after it.
fn is_given<R: Abort>(rt: &R, queues: &mut Queues, (line, receive, transmit): Given) {
    let is_given = is_made(queues, line) && are_with(rt, queues, (receive, transmit));
    same(rt, (line, is_given), (line, true));
}

// Both ways from the driver to the ring and the controller, and back.
const GIVEN: &[Given] = &[
    ("r0 A1 5", Owner::Ring, Owner::Driver),
    ("r0 A2", Owner::Ring, Owner::Driver),
    ("r0 A3", Owner::Ring, Owner::Driver),
    ("r0 A4", Owner::Controller, Owner::Driver),
    ("t0 B1 7 60 1 1 60", Owner::Controller, Owner::Ring),
    ("r0 A5 60 1", Owner::Ring, Owner::Ring),
    ("t0 B2", Owner::Ring, Owner::Ring),
    ("t0 B3", Owner::Ring, Owner::Ring),
    ("t0 B4", Owner::Ring, Owner::Controller),
    ("r0 A6", Owner::Driver, Owner::Controller),
    ("t0 B5", Owner::Driver, Owner::Ring),
    ("t0 B6", Owner::Driver, Owner::Ring),
    ("t0 B7", Owner::Driver, Owner::Ring),
    ("t0 B8", Owner::Driver, Owner::Driver),
];

// Checks the owners of a new pair of queues, and after each line.
fn are_given<R: Abort>(rt: &R, queues: &mut Queues, rows: &[Given]) {
    holds(rt, are_with(rt, queues, (Owner::Driver, Owner::Driver)));
    for row in rows {
        is_given(rt, queues, *row);
    }
}

#[test]
fn a_place_is_with_one_side(rt: HostRuntime) {
    let mut queues = Queues::new(rt.alloc(), 1, 8, true).expect(&rt, "queues");
    are_given(&rt, &mut queues, GIVEN);
    holds(&rt, are_one_pair(&queues));
    drop(queues)
}

// Checks that the move of each line is made.
fn are_made<R: Abort>(rt: &R, queues: &mut Queues, lines: &[&str]) {
    for line in lines {
        same(rt, (*line, is_made(queues, line)), (*line, true));
    }
}

const RECEIVES: &[&str] = &["r1 A1 5", "r1 A2", "r1 A3", "r1 A4", "r1 A5 60 1", "r1 A6"];

// Also passes with any one allocation refused, as in `rt try --test --fail-alloc N`.
#[test]
fn want_of_memory_is_13_and_changes_no_answer(rt: HostRuntime) {
    match Queues::new(rt.alloc(), 2, 8, true) {
        Ok(mut queues) => are_made(&rt, &mut queues, RECEIVES),
        Err(refused) => same(&rt, refused, MachineError::Memory),
    }
}
