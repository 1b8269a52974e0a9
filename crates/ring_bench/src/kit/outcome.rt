//! Results of functions that hold a ring's ends. A `?` that drops a value of a known type costs the proof a step for
//! each of its parts; in a generic function it costs one step. So such functions pass their values to these.
ghost use Rattle.std.specs.Prelude.{◌≡◌, IfOk, IsErr, Ok};

use anyhow::{Result, bail};

/// Returns both values, or the first error.
pub fn both<A: Drop, B: Drop>(first: Result<A>, second: Result<B>) -> Result<(A, B)>
    ensures { IfOk result (λ r. (first ≡ Ok r.0) × (second ≡ Ok r.1)) }
{
    let first = first?;
    let second = second?;
    Ok((first, second))
}

/// Drops the work for which no thread could be started and the work beside it, and refuses.
pub fn no_thread<F: Drop, A: Drop, T>(unmade: F, beside: A) -> Result<T>
    ensures { IsErr result }
{
    drop(unmade);
    drop(beside);
    bail!("no thread could be made")
}
