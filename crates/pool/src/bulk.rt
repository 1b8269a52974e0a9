//! Moving many buffers at once between a pool and a worker's stash.
ghost use Rattle.std.specs.Prelude.{◌≡◌, ◌≤◌, ◌⊎◌, ℕ, List, ◌++◌, length, take, drop, min, IsPermutation};
ghost use Rattle.buffer_pool.specs.declared.stash.TheConstants.{STASH_BUFFERS};
ghost use Rattle.pool.specs.Bulk.{Refilled};
ghost use Rattle.pool.specs.Hands.{Gave, Accounts, WasDry, HoldsAll};
ghost use Rattle.pool.specs.Owned.{IsOf};

use crate::{Pool, PoolPass};
use buffer_pool::Stash;
use std::sync::Wait;

impl Pool {
    /// Moves up to `k` buffers from the pool into a stash, in the pool's order, and returns their number. It stops at
    /// `k`, at a full stash, or if the pool was empty at a moment of the call.
    pub fn refill<R: Wait>(&self, rt: &R, pass: &mut PoolPass, stash: &mut Stash, k: usize) -> usize
        requires { IsOf self.now pass.old }
        ensures at_most { result ≤ k }
        ensures moved { Refilled pass.old.hand stash.old result pass.new.hand stash.new }
        ensures stops { (result ≡ k) ⊎ (length stash.new ≡ STASH_BUFFERS) ⊎ WasDry pass.new.hand }
        ensures pool { IsOf self.now pass.new }
        ensures accounts { Accounts pass.new.hand }
    {
        let mut moved = 0;
        while moved < k && !stash.is_full() {
            let Ok(buf) = self.take(rt, pass) else {
                break;
            };
            stash.push(buf);
            moved += 1;
        }
        pass.accounts();
        moved
    }

    /// Returns up to `k` buffers of a stash to the pool, those first that the stash would hand out first. Returns their
    /// number: `k`, or all if the stash has fewer.
    pub fn give_all<R: Wait>(
        &self,
        rt: &R,
        pass: &mut PoolPass,
        stash: &mut Stash,
        k: usize,
    ) -> usize
        requires pool { IsOf self.now pass.old }
        requires held { HoldsAll pass.old.hand.held (take k stash.old) }
        ensures how_many { result ≡ min k (length stash.old) }
        ensures stash { stash.new ≡ drop result stash.old }
        ensures gave { Gave pass.old.hand (take result stash.old) pass.new.hand }
        ensures left { (rest : List ℕ) → IsPermutation pass.old.hand.held (take result stash.old ++ rest) → IsPermutation pass.new.hand.held rest }
        ensures pool { IsOf self.now pass.new }
        ensures accounts { Accounts pass.new.hand }
    {
        let mut moved = 0;
        while moved < k {
            let Some(buf) = stash.take() else {
                break;
            };
            self.give(rt, pass, buf);
            moved += 1;
        }
        pass.accounts();
        moved
    }
}
