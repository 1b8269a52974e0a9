//! The device's side with controllers: frames are offered, and sent frames go onto a wire.
ghost use Rattle.std.specs.Prelude.{◌≡◌};

use crate::tests::threads::frames::Frames;
use crate::tests::threads::side::{Epochs, Shared, ThreadSide};
use controller::{Offer, RxController, Tally, Turn, TxController, Wire};
use rx_ring::{Control, RxRing};
use std::alloc::Global;
use tx_ring::TxRing;

/// The number of turns without an offer after a dropped frame, so that not all are dropped.
const PAUSE: u32 = 100;

/// The receive queue's controller.
#[derive(Drop)]
pub(crate) struct DeviceSource {
    pub controller: RxController,
    epochs: Epochs,
    /// How many frames are offered in an epoch at least, and how many were.
    least: u32,
    offered: u32,
    /// The next frame, and for how many turns it is not offered.
    next: u32,
    pause: u32,
    /// The counted outcomes.
    pub seen: Tally,
    /// The numbers of the stored frames, in order.
    pub stored: Vec<u32>,
    /// Whether a call was refused.
    pub refused: bool,
}

impl DeviceSource {
    /// Nothing was offered yet.
    pub(crate) fn new(alloc: Global, controller: RxController, least: u32) -> DeviceSource
        ensures { result.controller ≡ controller }
    {
        DeviceSource {
            controller,
            epochs: Epochs::new(),
            least,
            offered: 0,
            next: 0,
            pause: 0,
            seen: Tally::default(),
            stored: Vec::new(alloc),
            refused: false,
        }
    }

    /// Answers the driver's request, and offers the next frame. Once `least` frames were offered, and the last one was
    /// stored, announces that no more is stored in this epoch.
    fn turn(&mut self, ring: &RxRing, frames: &Frames) -> bool
        requires { self.old.controller.end.table ≡ ring.now }
        ensures { self.new.controller.end.table ≡ ring.now }
    {
        let told = self.controller.turn_control(ring);
        if self.epochs.see(told == Control::Enabled) {
            self.offered = 0;
        }
        if self.pause > 0 {
            self.pause -= 1;
            return false;
        }
        let Ok(offer) = self.controller.offer(ring, frames.frame(self.next)) else {
            self.refused = true;
            return false;
        };
        self.count(offer);
        if offer == Offer::Stored && self.offered >= self.least {
            self.controller.finish(ring);
        }
        offer == Offer::Stored || offer == Offer::Oversize
    }

    /// Counts an outcome.
    fn count(&mut self, offer: Offer)
        ensures { self.new.controller ≡ self.old.controller }
    {
        let seen = &mut self.seen;
        match offer {
            Offer::Stored => {
                seen.stored = seen.stored.saturating_add(1);
                self.refused = self.stored.push(self.next).is_err() || self.refused;
            }
            Offer::Dropped => {
                seen.dropped = seen.dropped.saturating_add(1);
                self.pause = PAUSE;
            }
            Offer::Oversize => seen.oversize = seen.oversize.saturating_add(1),
            Offer::Off | Offer::Held => return,
        }
        seen.offered = seen.offered.saturating_add(1);
        self.offered = self.offered.saturating_add(1);
        self.next = self.next.wrapping_add(1);
    }
}

/// The transmit queue's controller, and its wire.
#[derive(Drop)]
pub(crate) struct DeviceSink {
    pub controller: TxController,
    pub wire: Wire,
    epochs: Epochs,
    pub refused: bool,
}

impl DeviceSink {
    /// Nothing was sent yet.
    pub(crate) fn new(alloc: Global, controller: TxController) -> DeviceSink
        ensures { result.controller ≡ controller }
    {
        DeviceSink {
            controller,
            wire: Wire::new(alloc),
            epochs: Epochs::new(),
            refused: false,
        }
    }

    /// Answers the driver's request, and sends the next frame.
    fn turn(&mut self, ring: &TxRing) -> bool
        requires { self.old.controller.table ≡ ring.now }
        ensures { self.new.controller.table ≡ ring.now }
    {
        let told = self.controller.turn_control(ring);
        self.epochs.see(told == Control::Enabled);
        let turned = self.controller.turn(ring, &mut self.wire);
        if turned.is_err() {
            self.refused = true;
        }
        turned == Ok(Turn::Sent)
    }
}

/// Both in one thread.
#[derive(Drop)]
pub(crate) struct Device {
    pub source: DeviceSource,
    pub sink: DeviceSink,
    /// The number of epochs to serve.
    pub most: u32,
}

impl ThreadSide for Device {
    ghost is_of = { λ shared d. (d.source.controller.end.table ≡ shared.from) × (d.sink.controller.table ≡ shared.to) };

    fn turn(&mut self, shared: &Shared) -> bool {
        let stored = self.source.turn(&shared.from, &shared.frames);
        let sent = self.sink.turn(&shared.to);
        stored || sent
    }

    fn is_over(&self) -> bool {
        self.source.epochs.ended == self.most && self.sink.epochs.ended == self.most
    }
}
