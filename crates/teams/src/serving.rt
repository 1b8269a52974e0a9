//! A worker's rounds over its flows.
ghost use Rattle.std.specs.Prelude.{◌≡◌, ◌<◌, ◌⊎◌, true, All, map};
ghost use Rattle.teams.specs.declared.ending.Ending.TheVariants.{Done};
ghost use Rattle.teams.specs.declared.serving.Round.TheVariants.{Busy, Few, Idle, Ended};
ghost use Rattle.teams.specs.Endings.{IsSo};

use crate::flow::{Flow, Progress};
use crate::gate::Gate;
use crate::status::WorkerStatus;
use crate::word::StopWord;
use std::rt::Clock;
use std::sync::Wait;
use std::time::Duration;
use std::{hint, thread};

/// The number of rounds without work for which a worker spins before it yields. On a processor of its own, the other
/// side has mostly progressed by then.
const SPINS: u32 = 64;

/// The most nanoseconds for which a worker waits that finds little in one round after another, so that the other side gets
/// ahead, and both move the lines that they share less often. After the first of these rounds it doesn't wait; after each
/// further one it waits more than twice as long. A frame that comes during a wait is delayed until its end.
const LONGEST_WAIT: u32 = 1_000;

/// The shortest of these waits, in nanoseconds: about two reads of a clock.
const SHORTEST_WAIT: u32 = 50;

/// The most reads of the clock in a wait. A clock that stands still ends it by them.
const MOST_READS: u32 = 1_000;

/// The flows of a worker, and how its work ended.
#[derive(Drop)]
pub(crate) struct WorkerResult<F: Drop> {
    pub flows: Vec<F>,
    pub status: WorkerStatus,
}

/// The outcome of one round.
#[derive(Clone, Copy)]
enum Round {
    /// A flow found something to do.
    Busy,
    /// A flow found something to do, and none found much.
    Few,
    /// None did.
    Idle,
    /// The worker is at its end.
    Ended,
}

/// A turn of each flow that is not over. The stop word is loaded before each of them.
#[tactic(auto, using(crate::proofs::Together::met_halted))]
fn serve_round<F: Flow, R: Wait, G: Gate>(
    rt: &R,
    stop: &StopWord,
    gate: &G,
    flows: &mut [F],
    status: &mut WorkerStatus,
) -> Round
    requires own { status.old.word ≡ stop.now }
    requires share { 0 < status.old.share }
    requires going { status.old.ending ≡ Done }
    ensures keys { map F.key flows.new ≡ map F.key flows.old }
    ensures word { status.new.word ≡ status.old.word }
    ensures share { status.new.share ≡ status.old.share }
    ensures going { (result ≡ Busy) ⊎ ((result ≡ Few) ⊎ (result ≡ Idle)) → status.new.ending ≡ Done }
    ensures ending { result ≡ Ended → IsSo (All (λ f. F.over f ≡ true) flows.new) G.answers gate.now status.new.ending }
{
    let mut all_over = true;
    let mut busy = false;
    let mut few = false;
    for i in 0..flows.len() {
        if flows[i].is_over() {
            continue;
        }
        all_over = false;
        if status.is_stopped(rt, stop) {
            return Round::Ended;
        }
        match flows[i].turn(rt, gate) {
            Ok(Progress::Idle) => {}
            Ok(Progress::Few) => few = true,
            Ok(_) => busy = true,
            Err(refusal) => {
                status.refuse(rt, stop, refusal);
                return Round::Ended;
            }
        }
    }
    if all_over {
        Round::Ended
    } else if busy {
        Round::Busy
    } else if few {
        Round::Few
    } else {
        Round::Idle
    }
}

/// Serves the flows until all are over, or the stop word is set. While none finds anything to do, the worker spins for
/// a while, and then yields to other threads. While none finds much, it waits a little between two rounds.
pub(crate) fn serve<F: Flow, R: Wait + Clock, G: Gate>(
    rt: &R,
    stop: &StopWord,
    gate: &G,
    mut flows: Vec<F>,
    mut status: WorkerStatus,
) -> WorkerResult<F>
    requires own { status.word ≡ stop.now }
    requires share { 0 < status.share }
    requires going { status.ending ≡ Done }
    ensures keys { map F.key result.flows.items ≡ map F.key flows.items }
    ensures word { result.status.word ≡ status.word }
    ensures share { result.status.share ≡ status.share }
    ensures ending { IsSo (All (λ f. F.over f ≡ true) result.flows.items) G.answers gate.now result.status.ending }
{
    let mut idle = 0;
    let mut nanos = 0;
    for _ in rt.forever() {
        match serve_round(rt, stop, gate, flows.as_mut_slice(), &mut status) {
            Round::Busy => (idle, nanos) = (0, nanos / 2),
            Round::Few => (idle, nanos) = (0, wait(rt, nanos)),
            Round::Idle => (idle, nanos) = (rest(idle), 0),
            Round::Ended => return WorkerResult { flows, status },
        }
    }
    unreachable!()
}

/// Pauses after `idle` rounds without work, and counts this one.
fn rest(idle: u32) -> u32 {
    if idle < SPINS {
        hint::spin_loop();
        idle + 1
    } else {
        thread::yield_now();
        idle
    }
}

/// Waits for this many nanoseconds after a round with little work. Returns for how many to wait after the next one.
fn wait<R: Clock>(rt: &R, nanos: u32) -> u32 {
    if nanos > 0 {
        spin(rt, Duration::from_nanos(u64::from(nanos)));
    }
    nanos
        .saturating_mul(2)
        .saturating_add(SHORTEST_WAIT)
        .min(LONGEST_WAIT)
}

/// Spins until this time is over, or the clock cannot be read.
fn spin<R: Clock>(rt: &R, time: Duration) {
    let Ok(start) = rt.monotonic() else {
        return;
    };
    for _ in 0..MOST_READS {
        hint::spin_loop();
        match rt.monotonic() {
            Ok(now) if now.saturating_sub(start) < time => {}
            _ => return,
        }
    }
}
