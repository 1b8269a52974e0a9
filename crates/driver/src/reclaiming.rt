//! Reclaiming the buffers of a disabled queue, in either direction.
ghost use Rattle.std.specs.Prelude.{◌≡◌, ℕ, ◌↔◌, ◌⊎◌, true, length, IsTrue};
ghost use Rattle.buffer_pool.specs.Buffer.{Buffer};
ghost use Rattle.ring_model.specs.shared.Handshakes.{is_stopped};
ghost use Rattle.shared_ring.specs.Ends.{driver_of, driver_state, known_of, posted, returned};
ghost use Rattle.driver.specs.Reclaiming.{CameBack, ReclaimedNext};

use crate::handshake;
use buffer_pool::{Buf, STASH_BUFFERS, Stash};
use rx_ring::{RxControllerOwn, RxDriverEnd, RxDriverOwn, RxRing, RxRule};
use shared_ring::{Direction, DriverEnd};
use tx_ring::{TxControllerOwn, TxDriverEnd, TxDriverOwn, TxRing, TxRule};

/// An end that takes back the buffers of a disabled queue.
pub(crate) trait Reclaims<D, C, R: Direction<D, C>>: DriverEnd<D, C, R> {
    /// Takes back the oldest buffer that is out. Returns `None` if all came back.
    fn take_back(&mut self, ring: &Self::Ring) -> Option<Buf>
        requires own { (Self.side self.old).table ≡ Self.Ring.table ring.now }
        requires stopped { is_stopped (driver_state (driver_of R.form (Self.side self.old))) ≡ true }
        ensures { ReclaimedNext (driver_of R.form (Self.side self.old)) result (driver_of R.form (Self.side self.new)) };
}

impl Reclaims<RxDriverOwn, RxControllerOwn, RxRule> for RxDriverEnd {
    #[inline]
    fn take_back(&mut self, ring: &RxRing) -> Option<Buf> {
        self.reclaim(ring)
    }
}

impl Reclaims<TxDriverOwn, TxControllerOwn, TxRule> for TxDriverEnd {
    #[inline]
    fn take_back(&mut self, ring: &TxRing) -> Option<Buf> {
        self.reclaim(ring)
    }
}

/// Moves the buffers that are out into the stash, the oldest first, and returns whether all found room. `number` maps a
/// posting to its buffer's number.
pub(crate) fn empty_ring<D, C, R: Direction<D, C>, E: Reclaims<D, C, R>>(
    end: &mut E,
    ring: &E::Ring,
    stash: &mut Stash,
) -> bool
    ghost number: { R.Posted → ℕ }
    requires numbers { (item : R.Posted) (buf : Buffer) → R.form.IsOf item buf → number item ≡ buf.number }
    requires own { (E.side end.old).table ≡ E.Ring.table ring.now }
    requires stopped { is_stopped (driver_state (driver_of R.form (E.side end.old))) ≡ true }
    ensures back { CameBack number (driver_of R.form (E.side end.old)) stash.old (driver_of R.form (E.side end.new)) stash.new }
    ensures known { known_of (driver_of R.form (E.side end.new)) ≡ known_of (driver_of R.form (E.side end.old)) }
    ensures all { IsTrue result ↔ (returned (driver_of R.form (E.side end.new)) ≡ length (posted (driver_of R.form (E.side end.new)))) }
    ensures full { (result ≡ true) ⊎ (length stash.new ≡ STASH_BUFFERS) }
{
    while !stash.is_full() {
        let Some(buf) = end.take_back(ring) else {
            return true;
        };
        stash.push(buf);
    }
    handshake::is_back(end)
}
