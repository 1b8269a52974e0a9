//! The exports that move empty buffers between a worker and a pool, and count them.
ghost use Rattle.std.specs.Prelude.{◌≡◌, ◌<◌, ◌⊎◌, None, length};
ghost use Rattle.poll82599_c.specs.Handles.{as_packets, as_pool};
ghost use Rattle.poll82599_c.specs.Held.{Among, Of};
ghost use Rattle.poll82599_c.specs.batches.Pools.{Supplied};

use crate::batches::Found;
use crate::call::{NO_OPERATION, Poll82599Call};
use crate::end::End;
use crate::handle::Handle;

/// Moves empty buffers between a worker and a pool, and counts them in `count`. One thread at a time uses the pool. The
/// operations:
/// - 0 takes buffers from the pool until the worker has 256 or the pool is empty. 0: the worker has 256, or the pool is
///   empty.
/// - 1 returns up to `count` buffers to the pool, which has room for 65,536. 0: `count` is 0, the worker has none, or the
///   pool is full.
#[unsafe(no_mangle)]
pub extern "C" fn poll82599_pool_move(
    packets: &mut Handle,
    pool: &mut Handle,
    call: &mut Poll82599Call,
)
    ensures other { (as_packets packets.old.held ≡ None) ⊎ (as_pool pool.old.held ≡ None) → (call.new.answer ≡ 4294967295) × (packets.new.held ≡ packets.old.held) × (pool.new.held ≡ pool.old.held) × (call.new.count ≡ 0) }
    ensures step { Among (Supplied call.old.operation call.new.answer call.old.count call.new.count) (as_packets packets.old.held) (as_pool pool.old.held) (as_packets packets.new.held) (as_pool pool.new.held) }
    ensures kept { (1 < call.old.operation) → (packets.new.held ≡ packets.old.held) × (pool.new.held ≡ pool.old.held) }
{
    let none = Found::nothing(NO_OPERATION);
    let found = step_both!(packets, pool, none, Packets(held), Pool(shared) => {
        match call.operation {
            0 => held.refill(shared),
            1 => held.give_back(shared, call.count),
            _ => none,
        }
    });
    call.answer = found.answer;
    call.count = found.count;
}

/// Counts the buffers in a pool. Returns `usize::MAX` if the handle is empty or of another kind.
#[unsafe(no_mangle)]
pub extern "C" fn poll82599_pool_count(pool: &mut Handle) -> usize
    ensures count { Of (λ numbers. result ≡ length numbers) (as_pool pool.old.held) }
    ensures other { as_pool pool.old.held ≡ None → result ≡ 18446744073709551615 }
    ensures kept { pool.new.held ≡ pool.old.held }
{
    match pool.lent() {
        None => usize::MAX,
        Some(end) => match end {
            End::Pool(held) => held.len(),
            _ => usize::MAX,
        },
    }
}
