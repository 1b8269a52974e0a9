//! The loops of a receive batch.
ghost use Rattle.std.specs.Prelude.{◌≡◌, ◌+◌, ◌<◌, ◌≤◌, ◌∷◌, ◌++◌, [], true, length};
ghost use Rattle.limits.specs.declared.profile.TheConstants.{MOST_SEGMENTS};
ghost use Rattle.ring_model.specs.shared.Handshakes.{is_live, is_open};
ghost use Rattle.rx_ring.specs.Ends.{driver_size, driver_state, posted, returned};
ghost use Rattle.driver.specs.receive.Chains.{IsRest};
ghost use Rattle.driver.specs.receive.Exchanges.{posting, in_place, PolledAll, IsFilled};
ghost use Rattle.driver.specs.receive.Batches.{at, Polled, Stopped, batch_of, Filled};

use arrayvec::ArrayVec;
use buffer_pool::{Buf, Packet, Stash};
use limits::MOST_BATCH;
use rx_ring::{DriverEnd, Poll, RxDriverEnd, RxRing};
use std::mem;

/// Polls until `batch` packets are appended, the list is full, or nothing more is done. Posts a buffer after each
/// segment.
#[inline]
pub(super) fn take(
    driver: &mut RxDriverEnd,
    chain: &mut Packet,
    ring: &RxRing,
    stash: &mut Stash,
    packets: &mut ArrayVec<Packet, MOST_BATCH>,
    batch: usize,
) -> usize
    requires own { driver.old.table ≡ ring.now }
    requires live { is_live (driver_state driver.old) ≡ true }
    requires rest { IsRest driver.old chain.old }
    ensures polled { Polled (at driver.old chain.old stash.old packets.old.items) result (at driver.new chain.new stash.new packets.new.items) }
    ensures few { result ≤ batch }
    ensures stopped { Stopped batch MOST_BATCH result packets.new.items driver.old driver.new }
    ensures all { PolledAll (batch_of batch MOST_BATCH packets.old.items) driver.old stash.old driver.new stash.new }
{
    let mut count = 0;
    while count < batch && !packets.is_full() {
        let Poll::Segment { buf, eop } = driver.poll(ring) else {
            break;
        };
        post_one(driver, ring, stash);
        if eop {
            packets.push(ended(chain, buf));
            count += 1;
        } else {
            chain.push_back(buf);
        }
    }
    count
}

/// Returns the packet whose last segment is in this buffer. Most packets have no other, and do not touch the chain.
#[inline]
fn ended(chain: &mut Packet, buf: Buf) -> Packet
    requires some_bytes { 0 < length buf.bytes }
    requires few { length chain.old < MOST_SEGMENTS }
    ensures packet { result ≡ chain.old ++ buf ∷ [] }
    ensures left { chain.new ≡ [] }
{
    if chain.segments() > 0 {
        chain.push_back(buf);
        return mem::take(chain);
    }
    let mut packet = Packet::default();
    packet.push_back(buf);
    packet
}

/// Posts a buffer of the stash, if it has one and no disabling was asked.
#[inline]
fn post_one(driver: &mut RxDriverEnd, ring: &RxRing, stash: &mut Stash)
    requires own { driver.old.table ≡ ring.now }
    requires room { length (posted driver.old) + 1 < returned driver.old + driver_size driver.old }
    requires within { returned driver.old ≤ length (posted driver.old) }
    ensures posted { Filled driver.old stash.old driver.new stash.new }
    ensures step { driver.new ≡ posting (in_place (is_open (driver_state driver.old)) stash.old) driver.old }
    ensures left { stash.old ≡ in_place (is_open (driver_state driver.old)) stash.old ++ stash.new }
{
    if driver.is_open()
        && let Some(buf) = stash.take()
    {
        driver.post(ring, buf);
    }
}

/// Posts buffers of the stash until it is empty or the ring is full.
#[inline]
pub(super) fn fill(driver: &mut RxDriverEnd, ring: &RxRing, stash: &mut Stash)
    requires own { driver.old.table ≡ ring.now }
    requires open { is_open (driver_state driver.old) ≡ true }
    ensures posted { Filled driver.old stash.old driver.new stash.new }
    ensures filled { IsFilled driver.new stash.new }
{
    for _ in 0..driver.room() {
        let Some(buf) = stash.take() else {
            return;
        };
        driver.post(ring, buf);
    }
}
