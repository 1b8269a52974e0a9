//! The lawful lengths of a ring.
ghost use Rattle.std.specs.Prelude.{◌↔◌, IsTrue};
ghost use Rattle.limits.specs.RingLength.{IsRingLength};

use crate::{LEAST_RING, MOST_RING};

/// Whether a ring may have `n` descriptors: a power of two from `LEAST_RING` to `MOST_RING`.
pub fn is_ring_length(n: usize) -> bool
    ensures { IsTrue result ↔ IsRingLength n }
{
    LEAST_RING <= n && n <= MOST_RING && n.is_power_of_two()
}
