//! The transmit driver's handshake, and reclaiming its buffers after a disabling.

use super::TxDriver;
use crate::queue_driver::QueueDriver;
use crate::{handshake, reclaiming};
use buffer_pool::Stash;
use refusals::DriverError;
use shared_ring::DriverPlaces;
use tx_ring::{DriverEnd, TxControllerOwn, TxDriverOwn, TxRing, TxRule};

impl QueueDriver<TxDriverOwn, TxControllerOwn, TxRule> for TxDriver {
    ghost use Rattle.std.specs.Prelude.{◌≡◌};
    ghost use Rattle.shared_ring.specs.Ends.{driver_of, driver_side};
    ghost use Rattle.tx_ring.specs.Form.{tx};
    ghost use Rattle.tx_ring.specs.Calls.{GoneOver};
    ghost use Rattle.tx_ring.specs.Ends.{seen_reported};
    ghost use Rattle.tx_ring.specs.Meeting.{told_left};
    ghost use Rattle.driver.specs.transmit.Returns.{IsEmptied, GaveBack};

    type Ring = TxRing;

    ghost side = { λ d. driver_side tx d.end };

    ghost with_side = { λ d s. record d { end = driver_of tx s } };

    ghost anew = { λ d s. record d { end = driver_of tx s; frames = 0 } };

    ghost told = { λ s. told_left (driver_of tx s) };

    ghost learnt_head = { λ old new. seen_reported (driver_of tx new) ≡ seen_reported (driver_of tx old) };

    ghost gave_back = { λ old had new has. GaveBack old had new has };

    ghost is_emptied = { λ d. IsEmptied d };

    ghost gone_over = { λ old new. GoneOver (driver_of tx old) (driver_of tx new) };

    fn at(&self) -> DriverPlaces {
        self.end.at()
    }

    fn enable(&mut self, ring: &TxRing) -> Result<bool, DriverError> {
        handshake::enable(&mut self.end, ring)
    }

    fn ask_disable(&mut self, ring: &TxRing) -> Result<(), DriverError> {
        handshake::ask_disable(&mut self.end, ring)
    }

    fn finish_disable(&mut self, ring: &TxRing) -> Option<u32> {
        if self.end.is_stopped() {
            return None;
        }
        self.end.state(ring);
        if !self.end.is_stopped() {
            return None;
        }
        Some(self.end.left(ring))
    }

    fn reclaim_into(&mut self, ring: &TxRing, stash: &mut Stash) -> Result<usize, DriverError> {
        if !self.end.is_stopped() {
            return Ok(0);
        }
        let had = stash.len();
        if !reclaiming::empty_ring(&mut self.end, ring, stash) {
            return Err(DriverError::StashFull);
        }
        Ok(stash.len() - had)
    }

    fn renew(&mut self, ring: &TxRing) -> Result<(), DriverError> {
        if !self.end.is_stopped() || !handshake::is_back(&self.end) {
            return Err(DriverError::NotReclaimed);
        }
        self.end.renew(ring);
        self.frames = 0;
        Ok(())
    }
}
