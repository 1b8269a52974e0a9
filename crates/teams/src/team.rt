//! One side's workers: started in a scope, and joined.
ghost use Rattle.std.specs.Prelude.{◌≡◌, ◌<◌, ◌≤◌, ◌+◌, [], true, All, MatchResult, map, vec_len, vec_capacity};
ghost use Rattle.teams.specs.declared.ending.Ending.TheVariants.{Done};
ghost use Rattle.teams.specs.Hands.{given_by, hand_keys, AllOver};
ghost use Rattle.teams.specs.Endings.{IsEnded, IsSo};

use crate::flow::Flow;
use crate::gate::Gate;
use crate::serving::{WorkerResult, serve};
use crate::status::WorkerStatus;
use crate::word::StopWord;
use refusals::ForwardError;
use std::rt::Clock;
use std::snapshot::Snapshot;
use std::sync::Wait;
use std::thread::{Promise, PromisedHandle, Scope, Threads};

/// A worker's promise: its flows come back, and its ending is true of them.
#[derive(Drop)]
pub(crate) struct Serves<'g, F: Drop, G> {
    given: Snapshot<Vec<F>>,
    gate: &'g G,
    stop: &'g StopWord,
}

impl<'g, F: Flow, G: Gate> Promise<WorkerResult<F>> for Serves<'g, F, G> {
    ghost use Rattle.std.specs.Prelude.{◌≡◌, true, All, map};
    ghost use Rattle.teams.specs.Endings.{IsEnded};

    ghost kept_by = { λ p r. (map F.key r.flows.items ≡ map F.key p.given.value.items) × IsEnded (All (λ f. F.over f ≡ true) r.flows.items) G.answers p.gate.now p.stop.now r.status };
}

/// A worker that was started.
type Worker<'g, F, G> = PromisedHandle<WorkerResult<F>, Serves<'g, F, G>>;

/// The worker of a hand, or the hand itself if no worker was started for it.
pub(crate) type Begun<'g, F, G> = Result<Worker<'g, F, G>, WorkerResult<F>>;

/// Starts a worker for a hand. Returns the hand if none can be started, or work was stopped before.
fn begin<'s, 'e: 's, F: Flow + 's, R: Threads + Wait + Clock + Sync, G: Gate + Sync>(
    scope: &'s Scope<'s, &'e ()>,
    rt: &'e R,
    stop: &'e StopWord,
    gate: &'e G,
    hand: Vec<F>,
    starting: &mut WorkerStatus,
) -> Begun<'e, F, G>
    requires own { starting.old.word ≡ stop.now }
    requires share { 1 < starting.old.share }
    requires so { IsSo (Unit {0}) G.answers gate.now starting.old.ending }
    ensures given { given_by (λ w. map F.key w.promise.given.value.items) (λ s. map F.key s.flows.items) result ≡ map F.key hand.items }
    ensures so { MatchResult result (λ w. (w.promise.gate.now ≡ gate.now) × (w.promise.stop.now ≡ stop.now)) (λ s. IsEnded (All (λ f. F.over f ≡ true) s.flows.items) G.answers gate.now stop.now s.status) }
    ensures word { starting.new.word ≡ starting.old.word }
    ensures share { starting.new.share + 1 ≡ starting.old.share }
    ensures starting { IsSo (Unit {0}) G.answers gate.now starting.new.ending }
{
    let mut status = starting.split(stop);
    if status.is_stopped(rt, stop) {
        return Err(WorkerResult {
            flows: hand,
            status,
        });
    }
    let promise = Serves {
        given: Snapshot::of(&hand),
        gate,
        stop,
    };
    let work = move ||
        requires own { status.word ≡ stop.now }
        requires share { status.share ≡ 1 }
        requires going { status.ending ≡ Done }
    { serve(rt, stop, gate, hand, status) };
    match scope.spawn_with(promise, work) {
        Ok(worker) => Ok(worker),
        Err(refused) => {
            starting.refuse(rt, stop, ForwardError::Thread);
            // the stop word is set, so no flow has a turn
            Err((refused.value)())
        }
    }
}

/// Starts a worker for each hand, in room allocated before.
pub(crate) fn start<'s, 'e: 's, F: Flow + 's, R: Threads + Wait + Clock + Sync, G: Gate + Sync>(
    scope: &'s Scope<'s, &'e ()>,
    rt: &'e R,
    stop: &'e StopWord,
    gate: &'e G,
    hands: Vec<Vec<F>>,
    mut team: Vec<Begun<'e, F, G>>,
    starting: &mut WorkerStatus,
) -> Vec<Begun<'e, F, G>>
    requires none { team.items ≡ [] }
    requires room { vec_len hands ≤ vec_capacity team }
    requires own { starting.old.word ≡ stop.now }
    requires share { vec_len hands < starting.old.share }
    requires so { IsSo (Unit {0}) G.answers gate.now starting.old.ending }
    ensures given { map (given_by (λ w. map F.key w.promise.given.value.items) (λ s. map F.key s.flows.items)) result.items ≡ hand_keys F.key hands.items }
    ensures so { All (λ b. MatchResult b (λ w. (w.promise.gate.now ≡ gate.now) × (w.promise.stop.now ≡ stop.now)) (λ s. IsEnded (All (λ f. F.over f ≡ true) s.flows.items) G.answers gate.now stop.now s.status)) result.items }
    ensures count { vec_len result ≡ vec_len hands }
    ensures word { starting.new.word ≡ starting.old.word }
    ensures share { starting.new.share + vec_len result ≡ starting.old.share }
    ensures starting { IsSo (Unit {0}) G.answers gate.now starting.new.ending }
{
    for hand in hands {
        team.push_reserved(begin(scope, rt, stop, gate, hand, starting));
    }
    team
}

/// The hands that a team returned, and how its work ended.
#[derive(Drop)]
pub(crate) struct Joined<F: Drop> {
    pub hands: Vec<Vec<F>>,
    pub status: WorkerStatus,
}

/// Waits for a hand's worker to end, and returns its flows.
fn join_one<R: Threads, F: Flow, G: Gate>(
    rt: &R,
    stop: &StopWord,
    gate: &G,
    begun: Begun<'_, F, G>,
) -> WorkerResult<F>
    requires so { MatchResult begun (λ w. (w.promise.gate.now ≡ gate.now) × (w.promise.stop.now ≡ stop.now)) (λ s. IsEnded (All (λ f. F.over f ≡ true) s.flows.items) G.answers gate.now stop.now s.status) }
    ensures keys { map F.key result.flows.items ≡ given_by (λ w. map F.key w.promise.given.value.items) (λ s. map F.key s.flows.items) begun.entry }
    ensures ended { IsEnded (All (λ f. F.over f ≡ true) result.flows.items) G.answers gate.now stop.now result.status }
{
    let _stop = stop;
    match begun {
        Ok(worker) => worker.join(rt),
        Err(served) => served,
    }
}

/// Joins each worker. The room for the results was allocated before a thread was started, so nothing can be refused
/// now.
pub(crate) fn join_each<R: Threads, F: Flow, G: Gate>(
    rt: &R,
    stop: &StopWord,
    gate: &G,
    team: Vec<Begun<'_, F, G>>,
    mut hands: Vec<Vec<F>>,
    mut status: WorkerStatus,
) -> Joined<F>
    requires none { hands.items ≡ [] }
    requires room { vec_len team ≤ vec_capacity hands }
    requires so { All (λ b. MatchResult b (λ w. (w.promise.gate.now ≡ gate.now) × (w.promise.stop.now ≡ stop.now)) (λ s. IsEnded (All (λ f. F.over f ≡ true) s.flows.items) G.answers gate.now stop.now s.status)) team.items }
    requires own { status.word ≡ stop.now }
    requires done { status.ending ≡ Done }
    ensures keys { hand_keys F.key result.hands.items ≡ map (given_by (λ w. map F.key w.promise.given.value.items) (λ s. map F.key s.flows.items)) team.entry.items }
    ensures word { result.status.word ≡ stop.now }
    ensures share { result.status.share ≡ status.share + vec_len team.entry }
    ensures ending { IsSo (AllOver F.over result.hands.items) G.answers gate.now result.status.ending }
{
    for begun in team {
        let served = join_one(rt, stop, gate, begun);
        status.join(stop, served.status);
        hands.push_reserved(served.flows);
    }
    Joined { hands, status }
}
