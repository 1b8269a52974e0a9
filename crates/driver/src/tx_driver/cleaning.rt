//! Cleaning: the buffers of reported frames come back.
ghost use Rattle.std.specs.Prelude.{◌≡◌, ◌⊎◌, true, length};
ghost use Rattle.ring_model.specs.shared.Handshakes.{is_live};
ghost use Rattle.tx_ring.specs.Ends.{cleaned, reclaimed, seen_reported, driver_state, known_of};
ghost use Rattle.driver.specs.transmit.Going.{is_clean};
ghost use Rattle.driver.specs.transmit.Cleaning.{CleanedBy, CleanedOff};
ghost use Rattle.driver.specs.transmit.Batches.{CleanedAll};

use buffer_pool::{STASH_BUFFERS, Stash};
use tx_ring::{TxDriverEnd, TxRing};

/// Moves the buffers that are seen reported into the stash, as many as fit.
fn clean_reported(driver: &mut TxDriverEnd, ring: &TxRing, stash: &mut Stash)
    requires own { driver.old.table ≡ ring.now }
    requires live { is_live (driver_state driver.old) ≡ true }
    requires none_back { reclaimed driver.old ≡ 0 }
    ensures off { CleanedOff driver.old driver.new }
    ensures into { CleanedBy is_clean driver.old stash.old driver.new stash.new }
    ensures known { known_of driver.new ≡ known_of driver.old }
    ensures all { (length stash.new ≡ STASH_BUFFERS) ⊎ (length (cleaned driver.new) ≡ seen_reported driver.new) }
{
    let count = (driver.reported() as usize).min(STASH_BUFFERS - stash.len());
    for _ in 0..count {
        let buf = driver.clean(ring);
        stash.push(buf);
    }
}

/// Cleans until the stash is full, or no report is outstanding or made.
pub(super) fn clean_all(driver: &mut TxDriverEnd, ring: &TxRing, stash: &mut Stash)
    requires own { driver.old.table ≡ ring.now }
    requires live { is_live (driver_state driver.old) ≡ true }
    requires none_back { reclaimed driver.old ≡ 0 }
    ensures { CleanedAll driver.old stash.old driver.new stash.new }
{
    loop {
        clean_reported(driver, ring, stash);
        if stash.is_full() || !driver.poll_report(ring) {
            return;
        }
    }
}
