//! Two ports on one thread: a receive queue at one and a transmit queue at the other, with the drivers of both.
//! Controllers play the device's side.
ghost use Rattle.std.specs.Prelude.{◌≡◌};

use crate::outcome::both;
use crate::rings::{new_rx, new_tx};
use crate::stash::filled;
use anyhow::Result;
use buffer_pool::Stash;
use controller::{CtlError, RxController, TxController, Wire};
use driver::{DriverError, QueueDriver, RxDriver, TxDriver};
use limits::BUFFER_BYTES;
use rx_ring::RxRing;
use std::alloc::Global;
use tx_ring::TxRing;

/// The receive queue of one port, the transmit queue of another, and the spare buffers.
#[derive(Drop)]
pub struct Ports {
    pub from: RxRing,
    pub port_in: RxController,
    pub rx: RxDriver,
    pub to: TxRing,
    pub port_out: TxController,
    pub tx: TxDriver,
    pub stash: Stash,
    pub wire: Wire,
    ghost stores: { port_in.end.table ≡ from },
    ghost receives: { rx.end.table ≡ from },
    ghost transmits: { port_out.table ≡ to },
    ghost sends: { tx.end.table ≡ to },
    ghost one_length: { to.slots ≡ from.slots },
}

impl Ports {
    /// Makes two rings of 8 descriptors, whose queues are not enabled yet, and 32 buffers.
    pub fn new(alloc: Global) -> Result<Ports> {
        let (rings, stash) = both(both(new_rx(alloc), new_tx(alloc)), filled(alloc, 32))?;
        let ((from, receiving, storing), (to, sending, transmitting)) = rings;
        Ok(Ports {
            from,
            port_in: RxController::new(storing, BUFFER_BYTES, false),
            rx: RxDriver::new(receiving, 32),
            to,
            port_out: TxController::new(transmitting),
            tx: TxDriver::new(sending, 32),
            stash,
            wire: Wire::new(alloc),
        })
    }

    /// Asks for both queues to be enabled, and lets the device answer. A second call sees the answers. Returns whether
    /// both queues were seen enabled.
    pub fn enable(&mut self) -> Result<bool, DriverError>
        ensures { self.new.from ≡ self.old.from }
    {
        let receives = self.rx.enable(&self.from)?;
        let sends = self.tx.enable(&self.to)?;
        self.port_in.turn_control(&self.from); // RXDCTL.ENABLE
        self.port_out.turn_control(&self.to); // TXDCTL.ENABLE
        Ok(receives && sends)
    }

    /// Makes the device's turn: lets a frame come in, and sends one if one is ready.
    pub fn serve(&mut self, frame: &[u8]) -> Result<(), CtlError>
        ensures { self.new.from ≡ self.old.from }
    {
        self.port_in.offer(&self.from, frame)?;
        self.port_out.turn(&self.to, &mut self.wire)?;
        Ok(())
    }
}
