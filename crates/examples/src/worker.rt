//! A worker of a pool. It uses the pool only to refill its stash and to give the buffers back.
ghost use Rattle.std.specs.Prelude.{◌≡◌};
ghost use Rattle.pool.specs.Owned.{IsOf};

use buffer_pool::Stash;
use pool::{Pool, PoolPass};
use std::sync::Wait;

/// The number of buffers that move between pool and stash at once.
const BATCH: usize = 32;

/// Takes `batches` batches of buffers and gives them back. Returns how many buffers it gave back.
pub fn work<R: Wait>(
    rt: &R,
    pool: &Pool,
    pass: &mut PoolPass,
    frame: &[u8; 60],
    batches: u32,
) -> usize
    requires { IsOf pool.now pass.old }
    ensures { IsOf pool.now pass.new }
{
    let mut given: usize = 0;
    for _ in 0..batches {
        given = given.saturating_add(batch(rt, pool, pass, frame));
    }
    given
}

/// Refills a stash, fills one of its buffers with the frame, and gives the buffers back. Returns how many.
fn batch<R: Wait>(rt: &R, pool: &Pool, pass: &mut PoolPass, frame: &[u8; 60]) -> usize
    requires { IsOf pool.now pass.old }
    ensures { IsOf pool.now pass.new }
{
    let mut stash = Stash::new(); // up to 256 empty buffers, the worker's own
    let taken = pool.refill(rt, pass, &mut stash, BATCH); // fewer where the pool runs dry
    fill_first(&mut stash, frame);
    pool.give_all(rt, pass, &mut stash, taken)
}

/// Fills the buffer that the stash hands out first, and puts it back, which clears it.
fn fill_first(stash: &mut Stash, frame: &[u8; 60])
    ensures { stash.new ≡ stash.old }
{
    if stash.is_full() {
        return;
    }
    if let Some(mut buf) = stash.take() {
        buf.fill(frame);
        let _full = stash.put(buf); // it has room, since the buffer was just taken out
    }
}
