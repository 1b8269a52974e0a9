//! Returning all buffers of disabled queues to the pool.
ghost use Rattle.std.specs.Prelude.{◌≡◌, true, [], ◌++◌};
ghost use Rattle.ring_model.specs.shared.Handshakes.{is_stopped};
ghost use Rattle.shared_ring.specs.Ends.{driver_of, driver_state};
ghost use Rattle.driver.specs.receive.Returns.{numbers_of};
ghost use Rattle.driver.specs.transmit.Frames.{numbers_in};
ghost use Rattle.pool.specs.Hands.{HoldsAll};
ghost use Rattle.pool.specs.Owned.{IsOf};
ghost use Rattle.buffer_accounting.specs.Lent.{GivenBack};

use crate::lent::LentDriver;
use arrayvec::ArrayVec;
use buffer_pool::{Packet, Stash};
use driver::MOST_BATCH;
use pool::{Pool, PoolPass};
use shared_ring::Direction;
use std::sync::Wait;

/// Returns all buffers of a stash to the pool.
fn give_stash<R: Wait>(rt: &R, pool: &Pool, pass: &mut PoolPass, stash: &mut Stash)
    requires pool { IsOf pool.now pass.old }
    requires held { HoldsAll pass.old.hand.held stash.old }
    ensures pool { IsOf pool.now pass.new }
    ensures share { pass.new.hand.share ≡ pass.old.hand.share }
    ensures empty { stash.new ≡ [] }
    ensures given { GivenBack pass.old.hand.held stash.old pass.new.hand.held }
{
    let count = stash.len();
    pool.give_all(rt, pass, stash, count);
}

/// Returns the buffers of all packets to the pool, and empties the list.
pub fn give_packets<R: Wait>(
    rt: &R,
    pool: &Pool,
    pass: &mut PoolPass,
    packets: &mut ArrayVec<Packet, MOST_BATCH>,
)
    requires pool { IsOf pool.now pass.old }
    requires held { HoldsAll pass.old.hand.held (numbers_in packets.old.items) }
    ensures pool { IsOf pool.now pass.new }
    ensures share { pass.new.hand.share ≡ pass.old.hand.share }
    ensures empty { packets.new.items ≡ [] }
    ensures given { GivenBack pass.old.hand.held (numbers_in packets.old.items) pass.new.hand.held }
{
    while let Some(packet) = packets.pop() {
        give_packet(rt, pool, pass, packet);
    }
}

fn give_packet<R: Wait>(rt: &R, pool: &Pool, pass: &mut PoolPass, mut packet: Packet)
    requires pool { IsOf pool.now pass.old }
    requires held { HoldsAll pass.old.hand.held (numbers_of packet) }
    ensures pool { IsOf pool.now pass.new }
    ensures share { pass.new.hand.share ≡ pass.old.hand.share }
    ensures given { GivenBack pass.old.hand.held (numbers_of packet) pass.new.hand.held }
{
    while let Some(buf) = packet.pop_front() {
        pool.give(rt, pass, buf);
    }
}

/// Returns the buffers of a stash and of a disabled queue to the pool.
pub fn give_disabled<W: Wait, D, C, R: Direction<D, C>, Q: LentDriver<D, C, R>>(
    rt: &W,
    pool: &Pool,
    pass: &mut PoolPass,
    driver: &mut Q,
    ring: &Q::Ring,
    stash: &mut Stash,
)
    requires own { (Q.side driver.old).table ≡ Q.Ring.table ring.now }
    requires pool { IsOf pool.now pass.old }
    requires stopped { is_stopped (driver_state (driver_of R.form (Q.side driver.old))) ≡ true }
    requires held { HoldsAll pass.old.hand.held (stash.old ++ Q.with driver.old) }
    ensures ring { (Q.side driver.new).table ≡ (Q.side driver.old).table }
    ensures pool { IsOf pool.now pass.new }
    ensures share { pass.new.hand.share ≡ pass.old.hand.share }
    ensures emptied { Q.is_emptied driver.new }
    ensures stash { stash.new ≡ [] }
    ensures given { GivenBack pass.old.hand.held (stash.old ++ Q.with driver.old) pass.new.hand.held }
{
    give_stash(rt, pool, pass, stash);
    while !driver.give_into(ring, stash) {
        give_stash(rt, pool, pass, stash);
    }
    give_stash(rt, pool, pass, stash);
}
