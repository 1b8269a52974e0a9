//! The device's side of both layers: offers incoming frames, and puts outgoing frames onto a wire.
ghost use Rattle.std.specs.Prelude.{◌≤◌, OnOk, IfOk};
ghost use Rattle.rx_ring.specs.Calls as receive;
ghost use Rattle.tx_ring.specs.Calls as transmit;
ghost use Rattle.ring_bench.specs.Serving.{HasNothing, PutsOn, Serves, StoresCopies};

use crate::kit::{BatchPlan, Way};
use controller::{CtlError, Offer, RxController, Turn, TxController, Wire};
use rx_ring::{ControllerEnd, RxControllerEnd, RxRing};
use std::alloc::Global;
use tx_ring::{TxControllerEnd, TxRing};

/// The number of bytes to which buffers are filled.
const FILL: usize = 2_048;

/// How many frames were stored, and how many put onto the wire.
#[derive(Clone, Copy)]
pub struct Served {
    pub stored: u32,
    pub sent: u32,
}

/// The controllers of both directions, and the wire.
#[derive(Drop)]
pub struct Device {
    pub rx: RxController,
    pub tx: TxController,
    pub wire: Wire,
}

impl Device {
    /// Makes controllers of two fresh ends. A frame is held while descriptors are scarce.
    pub fn new(alloc: Global, rx: RxControllerEnd, tx: TxControllerEnd) -> Device
        requires stores { receive.IsFreshController rx }
        requires sends { transmit.IsFreshController tx }
        ensures { HasNothing rx.table tx.table result }
    {
        let (_rx_size, _tx_size) = (rx.size(), tx.size());
        Device {
            rx: RxController::new(rx, FILL, false),
            tx: TxController::new(tx),
            wire: Wire::new(alloc),
        }
    }

    /// Answers the requests of both queues.
    pub fn answer(&mut self, from: &RxRing, to: &TxRing)
        requires { HasNothing from.now to.now self.old }
        ensures { HasNothing from.now to.now self.new }
    {
        self.rx.turn_control(from);
        self.tx.turn_control(to);
    }

    /// Offers a batch of the remaining frames, until one is not stored. Then puts a batch onto the wire.
    #[inline]
    pub fn serve(&mut self, way: &Way, plan: BatchPlan, left: u32) -> Result<Served, CtlError>
        requires serves { Serves way.now.from way.now.to way.now.frame.items self.old }
        ensures serves { OnOk result (Serves way.now.from way.now.to way.now.frame.items self.new) }
        ensures few { IfOk result (λ s. s.stored ≤ left) }
    {
        let most = plan.batch.min(left);
        let stored = offer(&way.from, &mut self.rx, way.frame.as_slice(), most)?;
        let sent = turn(&way.to, &mut self.tx, &mut self.wire, plan.batch)?;
        Ok(Served { stored, sent })
    }
}

/// Offers the frame up to `most` times, until it is not stored. Returns how often it was stored.
#[inline]
fn offer(
    ring: &RxRing,
    controller: &mut RxController,
    frame: &[u8],
    most: u32,
) -> Result<u32, CtlError>
    requires stores { StoresCopies ring.now frame.now controller.old }
    ensures stores { OnOk result (StoresCopies ring.now frame.now controller.new) }
    ensures few { IfOk result (λ stored. stored ≤ most) }
{
    for stored in 0..most {
        if controller.offer(ring, frame)? != Offer::Stored {
            return Ok(stored);
        }
    }
    Ok(most)
}

/// Puts up to `most` frames onto the wire, until none is ready. Returns how many.
#[inline]
fn turn(
    ring: &TxRing,
    controller: &mut TxController,
    wire: &mut Wire,
    most: u32,
) -> Result<u32, CtlError>
    requires sends { PutsOn ring.now controller.old wire.old }
    ensures sends { OnOk result (PutsOn ring.now controller.new wire.new) }
{
    for sent in 0..most {
        if controller.turn(ring, wire)? != Turn::Sent {
            return Ok(sent);
        }
    }
    Ok(most)
}
