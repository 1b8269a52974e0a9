//! Returning all buffers of a stopped flow to the pool.
ghost use Rattle.std.specs.Prelude.{◌≡◌, [], ◌++◌, None};
ghost use Rattle.driver.specs.receive.Returns.{numbers_of};
ghost use Rattle.driver.specs.transmit.Frames.{numbers_in};
ghost use Rattle.flows.specs.Holding.{HoldsJust};
ghost use Rattle.flows.specs.Parts.{parts_of};
ghost use Rattle.buffer_accounting.specs.Lent.{GivenBack};
ghost use Rattle.pool.specs.Hands.{HoldsAll};
ghost use Rattle.pool.specs.Owned.{IsOf};
ghost use Rattle.rx_ring.specs.Ends as receive;
ghost use Rattle.tx_ring.specs.Ends as transmit;

use crate::giving::give_places;
use arrayvec::ArrayVec;
use buffer_accounting::give_packets;
use buffer_pool::{Packet, Stash};
use driver::MOST_BATCH;
use flows::{ControllerDone, DriverParts};
use pool::{Pool, PoolPass};
use rx_ring::RxRing;
use std::sync::Wait;
use tx_ring::TxRing;

/// Returns the buffers at hand of a driver's side to the pool: its stash, the packets that wait, and the chain of an
/// unfinished frame.
fn give_at_hand<R: Wait>(
    rt: &R,
    pool: &Pool,
    pass: &mut PoolPass,
    mut stash: Stash,
    mut packets: ArrayVec<Packet, MOST_BATCH>,
    chain: Packet,
)
    requires pool { IsOf pool.now pass.old }
    requires held { HoldsAll pass.old.hand.held (stash ++ (numbers_in packets.items ++ numbers_of chain)) }
    ensures pool { IsOf pool.now pass.new }
    ensures share { pass.new.hand.share ≡ pass.old.hand.share }
    ensures given { GivenBack pass.old.hand.held (stash ++ (numbers_in packets.items ++ numbers_of chain)) pass.new.hand.held }
{
    let count = stash.len();
    pool.give_all(rt, pass, &mut stash, count);
    give_packets(rt, pool, pass, &mut packets);
    let mut last = ArrayVec::new();
    last.push(chain);
    give_packets(rt, pool, pass, &mut last);
}

/// Closes both rings of a flow, in any state of its two sides, and returns all buffers that the driver's side holds to
/// the pool. The returned pass holds nothing.
pub fn close_flow<R: Wait>(
    rt: &R,
    pool: &Pool,
    from: RxRing,
    to: TxRing,
    driver: DriverParts,
    controller: ControllerDone,
) -> PoolPass
    requires from { (driver.rx.table ≡ from) × (controller.rx.table ≡ from) }
    requires to { (driver.tx.table ≡ to) × (controller.tx.table ≡ to) }
    requires unheld { (receive.held controller.rx ≡ None) × (transmit.held controller.tx ≡ None) }
    requires pool { IsOf pool.now driver.pass }
    requires held { HoldsJust driver.pass.hand.held (parts_of driver) }
    ensures pool { IsOf pool.now result }
    ensures share { result.hand.share ≡ driver.pass.hand.share }
    ensures none { result.hand.held ≡ [] }
{
    let DriverParts {
        rx,
        chain,
        tx,
        stash,
        packets,
        mut pass,
    } = driver;
    give_at_hand(rt, pool, &mut pass, stash, packets, chain);
    let received = rx_ring::close(from, rx, controller.rx);
    give_places(rt, pool, &mut pass, received);
    let posted = tx_ring::close(to, tx, controller.tx);
    give_places(rt, pool, &mut pass, posted);
    pass
}
