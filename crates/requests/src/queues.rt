//! Explains numbers of queues.
ghost use Rattle.std.specs.Prelude.{◌≡◌};
ghost use Rattle.ring_machine.specs.Queues.{AreQueues};

use limits::{LEAST_RING, MOST_PAIRS, MOST_RING, is_ring_length};
use std::alloc::AllocError;

/// Explains why queues of these numbers cannot exist: `--pairs` is not 1 to 8, or `--ring` is not a power of two from
/// 8 to 4,096. Writes nothing if both are in their range.
pub fn explain_queues(why: &mut String, pairs: u32, ring: u32) -> Result<(), AllocError>
    ensures { AreQueues pairs ring → why.new ≡ why.old }
{
    if pairs == 0 || MOST_PAIRS < pairs as usize {
        return write!(why, "--pairs is {pairs}, but must be 1 to {MOST_PAIRS}");
    }
    if !is_ring_length(ring as usize) {
        return write!(
            why,
            "--ring is {ring}, but must be a power of two from {LEAST_RING} to {MOST_RING}"
        );
    }
    Ok(())
}
