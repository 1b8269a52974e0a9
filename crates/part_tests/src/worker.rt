//! One worker of a pool.
ghost use Rattle.std.specs.Prelude.{◌≡◌, []};
ghost use Rattle.pool.specs.Owned.{IsOf};

use buffer_pool::Stash;
use pool::{Pool, PoolPass};
use std::sync::Wait;

/// How many buffers a worker takes at once.
pub const BATCH: usize = 32;

/// How many buffers a worker takes in a turn, before it returns them.
#[derive(Clone, Copy)]
pub enum Manner {
    /// One.
    Single,
    /// `BATCH` at once, through a stash.
    Bulk,
    /// One and `BATCH`, alternately.
    Mixed,
}

/// A worker's job.
#[derive(Clone, Copy)]
pub struct Job {
    /// How many buffers it takes in a turn.
    pub manner: Manner,
    /// The number of turns.
    pub turns: u32,
}

/// Takes buffers in each turn of the job, and returns them. The worker holds none before and none after. If the pool is
/// empty, it skips the turn.
pub fn work<R: Wait>(rt: &R, pool: &Pool, mut pass: PoolPass, job: Job) -> PoolPass
    requires pool { IsOf pool.now pass }
    requires idle { pass.hand.held ≡ [] }
    ensures pool { IsOf pool.now result }
    ensures share { result.hand.share ≡ pass.hand.share }
    ensures idle { result.hand.held ≡ [] }
{
    let mut stash = Stash::new();
    for turn in 0..job.turns {
        let one = match job.manner {
            Manner::Single => true,
            Manner::Bulk => false,
            Manner::Mixed => turn % 2 == 0,
        };
        if one {
            single(rt, pool, &mut pass);
        } else {
            batch(rt, pool, &mut pass, &mut stash);
        }
    }
    pass
}

/// Takes one buffer and returns it.
fn single<R: Wait>(rt: &R, pool: &Pool, pass: &mut PoolPass)
    requires pool { IsOf pool.now pass.old }
    requires idle { pass.old.hand.held ≡ [] }
    ensures pool { IsOf pool.now pass.new }
    ensures share { pass.new.hand.share ≡ pass.old.hand.share }
    ensures idle { pass.new.hand.held ≡ [] }
{
    if let Ok(buf) = pool.take(rt, pass) {
        pool.give(rt, pass, buf);
    }
}

/// Refills a stash by up to `BATCH` buffers, and returns them all.
fn batch<R: Wait>(rt: &R, pool: &Pool, pass: &mut PoolPass, stash: &mut Stash)
    requires pool { IsOf pool.now pass.old }
    requires idle { pass.old.hand.held ≡ [] }
    requires empty { stash.old ≡ [] }
    ensures pool { IsOf pool.now pass.new }
    ensures share { pass.new.hand.share ≡ pass.old.hand.share }
    ensures idle { pass.new.hand.held ≡ [] }
    ensures empty { stash.new ≡ [] }
{
    let taken = pool.refill(rt, pass, stash, BATCH);
    pool.give_all(rt, pass, stash, taken);
}
