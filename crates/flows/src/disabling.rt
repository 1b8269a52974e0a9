//! Waiting for the answer to a disabling.
ghost use Rattle.std.specs.Prelude.{◌≡◌};
ghost use Rattle.flows.specs.Driven.{RxStands, TxStands, RxAsBefore, TxAsBefore, KnowsAsBefore};

use driver::{QueueDriver, RxDriver, TxDriver};
use rx_ring::RxRing;
use tx_ring::TxRing;

/// Returns `left` if it is known. Otherwise loads the control word, and returns how many segments are left in the
/// receive queue once its disabling is answered.
pub(crate) fn finish_rx(driver: &mut RxDriver, ring: &RxRing, left: Option<u32>) -> Option<u32>
    requires own { driver.old.end.table ≡ ring.now }
    requires stands { RxStands left driver.old.end }
    ensures stands { RxStands result driver.new.end }
    ensures same { RxAsBefore driver.old driver.new }
    ensures known { KnowsAsBefore driver.old driver.new }
{
    if left.is_some() {
        return left;
    }
    driver.finish_disable(ring)
}

/// The same for a transmit queue.
pub(crate) fn finish_tx(driver: &mut TxDriver, ring: &TxRing, left: Option<u32>) -> Option<u32>
    requires own { driver.old.end.table ≡ ring.now }
    requires stands { TxStands left driver.old.end }
    ensures stands { TxStands result driver.new.end }
    ensures same { TxAsBefore driver.old driver.new }
{
    if left.is_some() {
        return left;
    }
    driver.finish_disable(ring)
}
