//! Returning the buffers of a closed ring.
ghost use Rattle.std.specs.Prelude.{◌≡◌, IfSome};
ghost use Rattle.buffer_accounting.specs.Lent.{GivenBack};
ghost use Rattle.pool.specs.Hands.{HoldsAll};
ghost use Rattle.pool.specs.Owned.{IsOf};
ghost use Rattle.shared_ring.specs.Meeting.{AllReal, IsReal, number_at, numbers_at};

use buffer_pool::Buf;
use pool::{Pool, PoolPass};
use std::sync::Wait;

/// Returns the buffers of these places to the pool.
pub(crate) fn give_places<R: Wait>(
    rt: &R,
    pool: &Pool,
    pass: &mut PoolPass,
    places: Vec<Option<Buf>>,
)
    requires pool { IsOf pool.now pass.old }
    requires held { HoldsAll pass.old.hand.held (numbers_at places.items) }
    requires real { AllReal places.items }
    ensures pool { IsOf pool.now pass.new }
    ensures share { pass.new.hand.share ≡ pass.old.hand.share }
    ensures given { GivenBack pass.old.hand.held (numbers_at places.items) pass.new.hand.held }
{
    for place in places {
        give_place(rt, pool, pass, place);
    }
}

/// Returns the buffer of a place to the pool, if it has one.
fn give_place<R: Wait>(rt: &R, pool: &Pool, pass: &mut PoolPass, place: Option<Buf>)
    requires pool { IsOf pool.now pass.old }
    requires held { HoldsAll pass.old.hand.held (number_at place) }
    requires real { IfSome place IsReal }
    ensures pool { IsOf pool.now pass.new }
    ensures share { pass.new.hand.share ≡ pass.old.hand.share }
    ensures given { GivenBack pass.old.hand.held (number_at place) pass.new.hand.held }
{
    if let Some(buf) = place {
        pool.give(rt, pass, buf);
    }
}
