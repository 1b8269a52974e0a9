//! Two results as one. A `?` in a function that holds a ring's ends drops them, which costs its proof a step for each
//! part. In this generic function it costs one step.
ghost use Rattle.std.specs.Prelude.{◌≡◌, IfOk, Ok};

/// Returns both values, or the first error.
pub fn both<A: Drop, B: Drop, E: Drop>(
    first: Result<A, E>,
    second: Result<B, E>,
) -> Result<(A, B), E>
    ensures { IfOk result (λ r. (first ≡ Ok r.0) × (second ≡ Ok r.1)) }
{
    let first = first?;
    let second = second?;
    Ok((first, second))
}
