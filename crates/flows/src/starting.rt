//! Starting a driver's side: it takes its buffers and posts those that fit.
ghost use Rattle.std.specs.Prelude.{◌≡◌, ◌+◌, ◌≤◌, true, [], ◌++◌, length};
ghost use Rattle.ring_model.specs.shared.Handshakes.{is_open};
ghost use Rattle.rx_ring.specs.Ends.{driver_state, posted, published};
ghost use Rattle.pool.specs.Owned.{IsOf};
ghost use Rattle.flows.specs.Holding.{Keeps};
ghost use Rattle.flows.specs.Driven.{OnlyPosted};

use buffer_pool::Stash;
use pool::{Pool, PoolPass};
use rx_ring::{DriverEnd, RxDriverEnd, RxRing};
use std::sync::Wait;

/// Takes up to `most` buffers from the pool, posts as many as fit into the ring, and publishes them; the others are in
/// the stash. Returns how many more may be taken.
pub(crate) fn stock_up<R: Wait>(
    rt: &R,
    pool: &Pool,
    pass: &mut PoolPass,
    ring: &RxRing,
    end: &mut RxDriverEnd,
    stash: &mut Stash,
    most: usize,
) -> usize
    requires pool { IsOf pool.now pass.old }
    requires own { end.old.table ≡ ring.now }
    requires open { is_open (driver_state end.old) ≡ true }
    ensures pool { IsOf pool.now pass.new }
    ensures share { pass.new.hand.share ≡ pass.old.hand.share }
    ensures posted { OnlyPosted end.old end.new }
    ensures exact { length pass.new.hand.held + result ≡ length pass.old.hand.held + most }
    ensures published { published end.new ≡ length (posted end.new) }
    ensures kept { Keeps pass.old.hand.held (stash.old ++ posted end.old) pass.new.hand.held (stash.new ++ posted end.new) }
{
    let mut taken = 0;
    while taken < most {
        let moved = pool.refill(rt, pass, stash, most - taken);
        if moved == 0 {
            break;
        }
        taken += moved;
        post_fitting(ring, end, stash);
    }
    end.publish(ring);
    most - taken
}

/// Posts buffers of the stash until it is empty or the ring is full.
fn post_fitting(ring: &RxRing, end: &mut RxDriverEnd, stash: &mut Stash)
    requires own { end.old.table ≡ ring.now }
    requires open { is_open (driver_state end.old) ≡ true }
    ensures posted { OnlyPosted end.old end.new }
    ensures kept { Keeps [] (stash.old ++ posted end.old) [] (stash.new ++ posted end.new) }
{
    while end.room() > 0 {
        let Some(buf) = stash.take() else {
            return;
        };
        end.post(ring, buf);
    }
}
