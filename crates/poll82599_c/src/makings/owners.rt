//! The owners of a ring, and boxed objects.
ghost use Rattle.std.specs.Prelude.{◌≡◌, ◌≢◌, IfErr, IfOk, IfSome, negsuc};
ghost use Rattle.std.specs.Arc.{arc_value};

use crate::makings::Unmade;
use buffer_pool::Buf;
use std::alloc::Global;
use std::sync::Arc;

/// Makes two owners of a ring, one for each end.
pub(crate) fn shared<T: Drop>(
    alloc: Global,
    ring: T,
) -> Result<(Arc<T, Global>, Arc<T, Global>), Unmade>
    ensures one { IfOk result (λ r. arc_value r.0 ≡ ring) }
    ensures other { IfOk result (λ r. arc_value r.1 ≡ ring) }
    ensures refusal { IfErr result (λ e. e ≡ Unmade.Memory) }
{
    let Ok(one) = Arc::new(alloc, ring) else {
        return Err(Unmade::Memory);
    };
    match Arc::try_clone(&one) {
        Ok(other) => Ok((one, other)),
        Err(_) => Err(Unmade::Memory),
    }
}

/// Returns the ring of two owners, if there is no other owner.
pub(crate) fn sole<T: Drop>(one: Arc<T, Global>, other: Arc<T, Global>) -> Option<T>
    ensures { IfSome result (λ ring. ring ≡ arc_value one) }
{
    drop(other);
    Arc::into_inner(one)
}

/// Drops two ends whose ring is not closed, and returns -1.
pub(crate) fn unclosed<T: Drop, U: Drop>(one: T, other: U) -> i64
    ensures { result ≢ negsuc 1 }
{
    drop(one);
    drop(other);
    -1
}

/// Counts the buffers in the places of a closed ring.
pub(crate) fn lying(places: Vec<Option<Buf>>) -> i64
    ensures { result ≢ negsuc 1 }
{
    let mut left = 0u32;
    for place in places {
        if place.is_some() {
            left = left.wrapping_add(1);
        }
    }
    i64::from(left)
}

/// Puts an object into a box. Refuses if memory is refused.
pub(crate) fn boxed<T: Drop>(alloc: Global, value: T) -> Result<Box<T>, Unmade>
    ensures made { IfOk result (λ b. b.value ≡ value) }
    ensures refusal { IfErr result (λ e. e ≡ Unmade.Memory) }
{
    match Box::new(alloc, value) {
        Ok(made) => Ok(made),
        Err(_) => Err(Unmade::Memory),
    }
}

/// Puts two objects into a box each. Refuses if memory is refused.
pub(crate) fn both_boxed<T: Drop>(
    alloc: Global,
    one: T,
    other: T,
) -> Result<(Box<T>, Box<T>), Unmade>
    ensures one { IfOk result (λ r. r.0.value ≡ one) }
    ensures other { IfOk result (λ r. r.1.value ≡ other) }
    ensures refusal { IfErr result (λ e. e ≡ Unmade.Memory) }
{
    let one = boxed(alloc, one)?;
    let other = boxed(alloc, other)?;
    Ok((one, other))
}
