//! The receive driver's handshake, and reclaiming its buffers after a disabling.

use super::RxDriver;
use super::reclaiming::empty_chain;
use crate::queue_driver::QueueDriver;
use crate::{handshake, reclaiming};
use buffer_pool::Stash;
use refusals::DriverError;
use rx_ring::{DriverEnd, RxControllerOwn, RxDriverOwn, RxRing, RxRule};
use shared_ring::DriverPlaces;

impl QueueDriver<RxDriverOwn, RxControllerOwn, RxRule> for RxDriver {
    ghost use Rattle.std.specs.Prelude.{◌≡◌};
    ghost use Rattle.shared_ring.specs.Ends.{driver_of, driver_side};
    ghost use Rattle.rx_ring.specs.Form.{rx};
    ghost use Rattle.rx_ring.specs.Calls.{told_left, GoneOver};
    ghost use Rattle.rx_ring.specs.Ends.{known_of};
    ghost use Rattle.driver.specs.receive.Returns.{IsEmptied, GaveBack};

    type Ring = RxRing;

    ghost side = { λ d. driver_side rx d.end };

    ghost with_side = { λ d s. record d { end = driver_of rx s } };

    ghost anew = { λ d s. record d { end = driver_of rx s } };

    ghost told = { λ s. told_left (driver_of rx s) };

    ghost learnt_head = { λ old new. known_of (driver_of rx new) ≡ record (known_of (driver_of rx old)) { head = (known_of (driver_of rx new)).head } };

    ghost gave_back = { λ old had new has. GaveBack old had new has };

    ghost is_emptied = { λ d. IsEmptied d };

    ghost gone_over = { λ old new. GoneOver (driver_of rx old) (driver_of rx new) };

    fn at(&self) -> DriverPlaces {
        self.end.at()
    }

    fn enable(&mut self, ring: &RxRing) -> Result<bool, DriverError> {
        handshake::enable(&mut self.end, ring)
    }

    fn ask_disable(&mut self, ring: &RxRing) -> Result<(), DriverError> {
        handshake::ask_disable(&mut self.end, ring)
    }

    fn finish_disable(&mut self, ring: &RxRing) -> Option<u32> {
        if self.end.is_stopped() {
            return None;
        }
        self.end.state(ring);
        if !self.end.is_stopped() {
            return None;
        }
        Some(self.end.left(ring))
    }

    fn reclaim_into(&mut self, ring: &RxRing, stash: &mut Stash) -> Result<usize, DriverError> {
        if !self.end.is_stopped() {
            return Ok(0);
        }
        let had = stash.len();
        if !empty_chain(&mut self.chain, stash) {
            return Err(DriverError::StashFull);
        }
        if !reclaiming::empty_ring(&mut self.end, ring, stash) {
            return Err(DriverError::StashFull);
        }
        Ok(stash.len() - had)
    }

    fn renew(&mut self, ring: &RxRing) -> Result<(), DriverError> {
        if !self.end.is_stopped() || self.has_chain() || !handshake::is_back(&self.end) {
            return Err(DriverError::NotReclaimed);
        }
        self.end.renew(ring);
        Ok(())
    }
}
