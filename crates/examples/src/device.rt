//! A device on one thread: the controllers of a receive queue and of a transmit queue take turns.
ghost use Rattle.std.specs.Prelude.{◌≡◌};
ghost use Rattle.ring_model.specs.shared.Frames.{frames};
ghost use Rattle.ring_model.specs.shared.Segments.{piece_of};
ghost use Rattle.ring_model.specs.transmit.Ring.{carried};
ghost use Rattle.rx_ring.specs.Ends.{stored};
ghost use Rattle.tx_ring.specs.Ends.{sent};

use crate::outcome::both;
use anyhow::Result;
use buffer_pool::Stock;
use controller::{CtlError, Offer, RxController, TxController, Wire};
use limits::BUFFER_BYTES;
use rx_ring::{DriverEnd, RxRing};
use std::alloc::Global;
use tx_ring::TxRing;

/// A frame that comes in.
pub type Frame = [u8; 60];

/// A receive queue's controller, and the frames of this epoch whose offer returned `Stored`.
#[derive(Drop)]
pub struct Incoming {
    controller: RxController,
    pub listed: Vec<Frame>,
    ghost kept: { frames piece_of (stored controller.end) ≡ listed.items },
}

impl Incoming {
    /// Answers the driver's requests. When the controller answers an enabling, a new epoch begins and the list is
    /// cleared.
    fn answer(&mut self, ring: &RxRing)
        requires own { self.old.controller.end.table ≡ ring.now }
        ensures own { self.new.controller.end.table ≡ ring.now }
    {
        let served = self.controller.is_serving();
        self.controller.turn_control(ring); // RXDCTL.ENABLE
        if !served && self.controller.is_serving() {
            self.listed.clear();
        }
    }

    /// Offers a frame that came in. Returns whether to offer it again.
    fn offer(&mut self, ring: &RxRing, frame: &Frame) -> Result<bool, CtlError>
        requires own { self.old.controller.end.table ≡ ring.now }
        ensures own { self.new.controller.end.table ≡ ring.now }
    {
        self.listed.reserve(1)?; // so that a frame that is stored is listed too
        let offer = self.controller.offer(ring, frame)?;
        if offer == Offer::Stored {
            self.listed.push_reserved(*frame);
        }
        Ok(offer == Offer::Held || offer == Offer::Off)
    }
}

/// A transmit queue's controller, and the frames that it sent in this epoch.
#[derive(Drop)]
pub struct Outgoing {
    controller: TxController,
    pub wire: Wire,
    alloc: Global,
    ghost kept: { wire ≡ frames carried (sent controller) },
}

impl Outgoing {
    /// Answers the driver's requests. When the controller answers an enabling, a new epoch begins with an empty wire.
    fn answer(&mut self, ring: &TxRing)
        requires own { self.old.controller.table ≡ ring.now }
        ensures own { self.new.controller.table ≡ ring.now }
    {
        let served = self.controller.is_serving();
        self.controller.turn_control(ring); // TXDCTL.ENABLE
        if !served && self.controller.is_serving() {
            self.wire = Wire::new(self.alloc);
        }
    }

    /// Sends a frame, if one is ready.
    fn send(&mut self, ring: &TxRing) -> Result<(), CtlError>
        requires own { self.old.controller.table ≡ ring.now }
        ensures own { self.new.controller.table ≡ ring.now }
    {
        self.controller.turn(ring, &mut self.wire)?;
        Ok(())
    }
}

/// Serves both queues in turn. Returns how many of these frames were offered and need not be offered again. The receive
/// queue's frames of this epoch are those whose offer returned `Stored`. The wire has the frames that the transmit
/// queue sent in its epoch.
pub fn serve(
    from: &RxRing,
    incoming: &mut Incoming,
    to: &TxRing,
    outgoing: &mut Outgoing,
    arrivals: &[Frame],
    turns: u32,
) -> Result<usize, CtlError>
    requires receives { incoming.old.controller.end.table ≡ from.now }
    requires sends { outgoing.old.controller.table ≡ to.now }
    ensures receives { incoming.new.controller.end.table ≡ from.now }
    ensures sends { outgoing.new.controller.table ≡ to.now }
    ensures stored { frames piece_of (stored incoming.new.controller.end) ≡ incoming.new.listed.items }
    ensures wire { outgoing.new.wire ≡ frames carried (sent outgoing.new.controller) }
{
    let mut next = 0;
    for _ in 0..turns {
        incoming.answer(from);
        outgoing.answer(to);
        if next < arrivals.len() && !incoming.offer(from, &arrivals[next])? {
            next += 1;
        }
        outgoing.send(to)?;
    }
    Ok(next)
}

/// A receive queue with one buffer posted and an enabling asked for, and its device.
#[derive(Drop)]
struct Receiving {
    ring: RxRing,
    device: Incoming,
    ghost own: { device.controller.end.table ≡ ring },
}

/// Makes a receive queue, with a buffer of the stock.
fn begin_receiving(alloc: Global, stock: &mut Stock) -> Result<Receiving> {
    let (ring, mut driver, controller) = RxRing::new(alloc, 8)?;
    if let Some(buf) = stock.take() {
        driver.post(&ring, buf);
        driver.publish(&ring);
    }
    driver.ask_enable(&ring);
    let device = Incoming {
        controller: RxController::new(controller, BUFFER_BYTES, true),
        listed: Vec::new(alloc),
    };
    Ok(Receiving { ring, device })
}

/// A transmit queue with one frame posted and an enabling asked for, and its device.
#[derive(Drop)]
struct Sending {
    ring: TxRing,
    device: Outgoing,
    ghost own: { device.controller.table ≡ ring },
}

/// Makes a transmit queue, with a buffer of the stock.
fn begin_sending(alloc: Global, stock: &mut Stock, frame: &Frame) -> Result<Sending> {
    let (ring, mut driver, controller) = TxRing::new(alloc, 8)?;
    if let Some(mut buf) = stock.take() {
        buf.fill(frame);
        driver.post(&ring, buf, true, true, 60);
        driver.publish(&ring);
    }
    driver.ask_enable(&ring);
    let device = Outgoing {
        controller: TxController::new(controller),
        wire: Wire::new(alloc),
        alloc,
    };
    Ok(Sending { ring, device })
}

/// Offers two frames to a queue with one buffer posted, and sends one frame. Returns how many were stored, and how many
/// sent.
pub fn served(alloc: Global, frame: &Frame) -> Result<(usize, usize)> {
    let mut stock = Stock::new(alloc, 0, 16)?;
    let receiving = begin_receiving(alloc, &mut stock);
    let sending = begin_sending(alloc, &mut stock, frame);
    drop(stock);
    let (mut receiving, mut sending) = both(receiving, sending)?;
    let counts = serve_twice(&mut receiving, &mut sending, frame);
    drop((receiving, sending));
    Ok(counts?)
}

/// Serves both queues in two turns, while this frame comes in twice. Returns how many frames were stored, and how many
/// sent.
fn serve_twice(
    receiving: &mut Receiving,
    sending: &mut Sending,
    frame: &Frame,
) -> Result<(usize, usize), CtlError> {
    serve(
        &receiving.ring,
        &mut receiving.device,
        &sending.ring,
        &mut sending.device,
        &[*frame, *frame],
        2,
    )?;
    Ok((receiving.device.listed.len(), sending.device.wire.len()))
}
