//! Drivers that use buffers of a pool.
ghost use Rattle.std.specs.Prelude.{◌≡◌, ◌<◌, true, false, [], ◌++◌, length, IsPermutation};
ghost use Rattle.ring_model.specs.shared.Handshakes.{is_stopped};
ghost use Rattle.shared_ring.specs.Ends.{driver_of, driver_state};

use buffer_pool::Stash;
use driver::{QueueDriver, RxDriver, TxDriver};
use rx_ring::{RxControllerOwn, RxDriverOwn, RxRing, RxRule};
use shared_ring::Direction;
use tx_ring::{TxControllerOwn, TxDriverOwn, TxRing, TxRule};

/// A driver of either direction, with the buffers of a pool that it uses.
pub trait LentDriver<D, C, R: Direction<D, C>>: QueueDriver<D, C, R> {
    ghost use Rattle.std.specs.Prelude.{ℕ, List};

    /// The numbers of its buffers: those in its ring, and those of an unfinished frame.
    ghost with: { Self → List ℕ };

    /// Moves buffers of a disabled queue into the stash, as `reclaim_into` does, and returns whether none is left.
    fn give_into(&mut self, ring: &Self::Ring, stash: &mut Stash) -> bool
        requires own { (Self.side self.old).table ≡ Self.Ring.table ring.now }
        requires stopped { is_stopped (driver_state (driver_of R.form (Self.side self.old))) ≡ true }
        ensures ring { (Self.side self.new).table ≡ (Self.side self.old).table }
        ensures stopped { is_stopped (driver_state (driver_of R.form (Self.side self.new))) ≡ true }
        ensures moved { IsPermutation (stash.old ++ with self.old) (stash.new ++ with self.new) }
        ensures emptied { result ≡ true → Self.is_emptied self.new }
        ensures none { result ≡ true → with self.new ≡ [] }
        ensures full { result ≡ false → 0 < length stash.new };
}

impl LentDriver<RxDriverOwn, RxControllerOwn, RxRule> for RxDriver {
    ghost use Rattle.buffer_accounting.specs.Lent.{with_receiver};

    ghost with = { λ d. with_receiver d };

    fn give_into(&mut self, ring: &RxRing, stash: &mut Stash) -> bool {
        self.reclaim_into(ring, stash).is_ok()
    }
}

impl LentDriver<TxDriverOwn, TxControllerOwn, TxRule> for TxDriver {
    ghost use Rattle.buffer_accounting.specs.Lent.{with_transmitter};

    ghost with = { λ d. with_transmitter d };

    fn give_into(&mut self, ring: &TxRing, stash: &mut Stash) -> bool {
        self.reclaim_into(ring, stash).is_ok()
    }
}
