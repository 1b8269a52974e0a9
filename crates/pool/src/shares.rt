//! Splitting and joining passes.
ghost use Rattle.std.specs.Prelude.{◌≡◌, ◌<◌};
ghost use Rattle.pool.specs.Hands.{kept_hand, new_hand, joined_hand, Accounts, HoldsWhole};
ghost use Rattle.pool.specs.Owned.{IsOf};

use crate::hand::{Amount, JoinsHands, PartsHand, TakesBuffer};
use crate::{Pool, PoolPass};
use std::marker::Brand;

impl PoolPass {
    /// Splits off a pass that has the share `k` and holds nothing. This one keeps the rest of its share and all that it
    /// holds. Either may move to another thread.
    pub fn split(&mut self, pool: &Pool, k: u32) -> PoolPass
        requires pool { IsOf pool.now self.old }
        requires some { 0 < k }
        requires less { k < self.old.hand.share }
        ensures kept { self.new ≡ record self.old { hand = kept_hand k self.old.hand } }
        ensures made { result ≡ record self.old { hand = new_hand k self.old.hand } }
    {
        part::<Brand>(self, pool, k)
    }

    /// Joins another pass of the same pool into this one, with its share and all that it holds.
    pub fn join(&mut self, pool: &Pool, other: PoolPass)
        requires pool { IsOf pool.now self.old }
        requires other { IsOf pool.now other }
        ensures joined { self.new ≡ record self.old { hand = joined_hand self.old.hand other.hand } }
        ensures accounts { Accounts self.new.hand }
        ensures whole { HoldsWhole self.new.hand }
    {
        pool.queue.absorb::<JoinsHands>(&mut self.pass, other.pass);
        pool.queue.learn_as::<TakesBuffer>(&mut self.pass);
    }
}

/// `split`, with the amount as a type parameter that the step's type can name.
fn part<K: Amount>(pass: &mut PoolPass, pool: &Pool, k: u32) -> PoolPass
    requires pool { IsOf pool.now pass.old }
    requires amount { k ≡ K.amount }
    requires some { 0 < k }
    requires less { k < pass.old.hand.share }
    ensures kept { pass.new ≡ record pass.old { hand = kept_hand k pass.old.hand } }
    ensures made { result ≡ record pass.old { hand = new_hand k pass.old.hand } }
{
    PoolPass {
        pass: pool.queue.another::<PartsHand<K>>(&mut pass.pass),
    }
}
