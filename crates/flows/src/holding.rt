//! Moving a flow's buffers between its stash and the pool.
ghost use Rattle.std.specs.Prelude.{◌≡◌, ◌+◌, ◌≤◌, [], ◌++◌, length};
ghost use Rattle.limits.specs.declared.profile.TheConstants.{MOST_BATCH};
ghost use Rattle.controller.specs.Tallying.{most_count};
ghost use Rattle.driver.specs.receive.Returns.{numbers_of};
ghost use Rattle.driver.specs.transmit.Frames.{numbers_in};
ghost use Rattle.pool.specs.Owned.{IsOf};
ghost use Rattle.flows.specs.Holding.{Holds, Keeps};

use arrayvec::ArrayVec;
use buffer_pool::{Packet, Stash};
use driver::MOST_BATCH;
use pool::{Pool, PoolPass};
use std::sync::Wait;

/// Drops the packets that wait, and returns their number. Their buffers go to the stash, and to the pool once it is
/// full; `short` grows by the number that went to the pool.
pub(crate) fn drop_packets<R: Wait>(
    rt: &R,
    pool: &Pool,
    pass: &mut PoolPass,
    stash: &mut Stash,
    packets: &mut ArrayVec<Packet, MOST_BATCH>,
    short: &mut usize,
) -> usize
    requires pool { IsOf pool.now pass.old }
    requires held { Holds pass.old.hand.held (stash.old ++ numbers_in packets.old.items) }
    requires few { length pass.old.hand.held + short.old ≤ most_count }
    ensures pool { IsOf pool.now pass.new }
    ensures share { pass.new.hand.share ≡ pass.old.hand.share }
    ensures count { result ≡ length packets.old.items }
    ensures few { result ≤ MOST_BATCH }
    ensures none { packets.new.items ≡ [] }
    ensures held { length pass.new.hand.held + short.new ≡ length pass.old.hand.held + short.old }
    ensures kept { Keeps pass.old.hand.held (stash.old ++ numbers_in packets.old.items) pass.new.hand.held stash.new }
{
    let count = packets.len();
    while let Some(packet) = packets.pop() {
        drop_packet(rt, pool, pass, stash, packet, short);
    }
    count
}

/// Drops a packet, as [`drop_packets`] does.
fn drop_packet<R: Wait>(
    rt: &R,
    pool: &Pool,
    pass: &mut PoolPass,
    stash: &mut Stash,
    mut packet: Packet,
    short: &mut usize,
)
    requires pool { IsOf pool.now pass.old }
    requires held { Holds pass.old.hand.held (stash.old ++ numbers_of packet) }
    requires few { length pass.old.hand.held + short.old ≤ most_count }
    ensures pool { IsOf pool.now pass.new }
    ensures share { pass.new.hand.share ≡ pass.old.hand.share }
    ensures held { length pass.new.hand.held + short.new ≡ length pass.old.hand.held + short.old }
    ensures kept { Keeps pass.old.hand.held (stash.old ++ numbers_of packet) pass.new.hand.held stash.new }
{
    while let Some(buf) = packet.pop_front() {
        if stash.is_full() {
            pool.give(rt, pass, buf);
            *short += 1;
        } else {
            stash.push(buf);
        }
    }
}

/// Returns the whole stash to the pool.
pub(crate) fn give_stash<R: Wait>(rt: &R, pool: &Pool, pass: &mut PoolPass, stash: &mut Stash)
    requires pool { IsOf pool.now pass.old }
    requires held { Holds pass.old.hand.held stash.old }
    ensures pool { IsOf pool.now pass.new }
    ensures share { pass.new.hand.share ≡ pass.old.hand.share }
    ensures none { stash.new ≡ [] }
    ensures fewer { length pass.new.hand.held ≤ length pass.old.hand.held }
    ensures kept { Keeps pass.old.hand.held stash.old pass.new.hand.held [] }
{
    while let Some(buf) = stash.take() {
        pool.give(rt, pass, buf);
    }
}
