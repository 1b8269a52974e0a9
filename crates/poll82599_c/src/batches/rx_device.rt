//! The device of a receive queue: its controller, and the ring that it shares.
ghost use Rattle.std.specs.Prelude.{◌≡◌, ◌≢◌, true, false};
ghost use Rattle.counters.specs.Kinds.{AddsUp};
ghost use Rattle.poll82599_c.specs.batches.Receiving.{TriedOffer, TriedQuiet, Turned};

use crate::half::Half;
use controller::{Offer, RxController, Tally};
use rx_ring::RxRing;

/// The device of a receive queue, which one thread owns.
pub(crate) type RxDevice = Half<RxRing, RxController>;

impl Half<RxRing, RxController> {
    /// Offers a frame that came in. Returns 1: stored, cut into segments; 0: too few descriptors are free, offer it
    /// again; 2: its length is not 14 to 15,000 bytes; 3: the queue is off or quiet; 4: it needs at least as many
    /// descriptors as the ring has; 5: too few descriptors are free, and it is dropped.
    pub(crate) fn offer(&mut self, frame: &[u8]) -> u32
        ensures own { self.new.end.table ≡ self.old.end.table }
        ensures step { TriedOffer result frame.now self.old self.new }
    {
        match self.end.offer(&self.ring, frame) {
            Ok(Offer::Stored) => 1,
            Ok(Offer::Held) => 0,
            Ok(Offer::Off) => 3,
            Ok(Offer::Oversize) => 4,
            Ok(Offer::Dropped) => 5,
            Err(_) => 2,
        }
    }

    /// Loads the control word, and answers a request if it can. Returns the word that it stored, otherwise the one that
    /// it loaded: 0 off, 1 enabling asked for, 2 on, 3 disabling asked for.
    #[inline(never)]
    pub(crate) fn turn_control(&mut self) -> u32
        ensures own { self.new.end.table ≡ self.old.end.table }
        ensures step { Turned result self.old self.new }
    {
        u32::from(self.end.turn_control(&self.ring).word())
    }

    /// Says that no more is stored in this epoch. Returns 1, or 0 if the queue is off or this was said before.
    pub(crate) fn finish(&mut self) -> u32
        ensures own { self.new.end.table ≡ self.old.end.table }
        ensures step { (result ≡ 1) → TriedQuiet true self.old self.new }
        ensures kept { (result ≢ 1) → TriedQuiet false self.old self.new }
    {
        u32::from(self.end.finish(&self.ring))
    }

    /// Counts the frames that were offered: stored, dropped and oversize.
    pub(crate) fn tally(&self) -> Tally
        ensures value { result ≡ self.now.tally }
        ensures adds { AddsUp result }
    {
        self.end.tally()
    }
}
