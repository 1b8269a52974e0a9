//! Two sides of a measurement, each in its own thread.
ghost use Rattle.std.specs.Prelude.{IfOk};

use crate::kit::outcome::no_thread;
use anyhow::Result;
use std::sync::Wait;
use std::thread;
use std::thread::{Promise, Threads};

/// Runs `theirs` in its own thread and `ours` in this one, and returns both results. That of `theirs` keeps its promise.
/// Refuses if no thread could be made.
pub fn beside<'a, R, T, U, P, F, G>(rt: &R, promise: P, theirs: F, ours: G) -> Result<(T, U)>
where
    R: Threads + Wait,
    T: Send + Drop + 'a,
    U: Drop,
    P: Promise<T> + Drop,
    F: FnOnce() -> T + Send + Drop + 'a,
    G: FnOnce() -> U + Drop,
    requires theirs { F.pre theirs }
    requires keeps { (r : T) → F.post theirs r → P.kept_by promise r }
    requires ours { G.pre ours }
    ensures theirs { IfOk result (λ r. P.kept_by promise r.0) }
    ensures ours { IfOk result (λ r. G.post ours r.1) }
{
    thread::scope(
        thread::scope_env(),
        rt,
        move |scope| -> Result<(T, U)>
            requires theirs { F.pre theirs }
            requires keeps { (r : T) → F.post theirs r → P.kept_by promise r }
            requires ours { G.pre ours }
            ensures theirs { IfOk result (λ r. P.kept_by promise r.0) }
            ensures ours { IfOk result (λ r. G.post ours r.1) }
        {
            match scope.spawn_with(promise, theirs) {
                Ok(handle) => {
                    let own = ours();
                    Ok((handle.join(rt), own))
                }
                Err(unmade) => no_thread(unmade, ours),
            }
        },
    )
}
