//! A custom forwarder on one thread. A relay makes the drivers' turns, and a gate counts their batches.
ghost use Rattle.std.specs.Prelude.{◌≡◌};

use crate::ports::Ports;
use anyhow::Result;
use controller::{CtlError, RxController, TxController, Wire};
use driver::DriverError;
use forwarding::{Event, ForwardError, Gate, Relay, Turned, Who};
use rx_ring::RxRing;
use std::alloc::Global;
use std::sync::atomic::{AtomicU64, Ordering};
use tx_ring::TxRing;

/// Counts the batches that are taken. Workers in several threads could pass it.
#[derive(Drop)]
pub struct Batches {
    count: AtomicU64,
}

impl Batches {
    pub fn new() -> Batches {
        Batches {
            count: AtomicU64::new(0),
        }
    }

    /// How many batches were taken so far.
    pub fn count(&self) -> u64 {
        self.count.load(Ordering::Relaxed)
    }
}

impl Gate for Batches {
    ghost use Rattle.std.specs.Prelude.{◌≡◌, true};

    ghost answers = { λ _ _ _ b. b ≡ true };

    fn pass(&self, _who: Who, event: Event) -> bool {
        if event == Event::RxBatch {
            self.count.fetch_add(1, Ordering::Relaxed);
        }
        true
    }
}

/// Two rings, the device's side of each, and the relay between them.
#[derive(Drop)]
pub struct Flow {
    from: RxRing,
    port_in: RxController,
    to: TxRing,
    port_out: TxController,
    relay: Relay,
    wire: Wire,
    ghost stores: { port_in.end.table ≡ from },
    ghost receives: { relay.rx.end.table ≡ from },
    ghost transmits: { port_out.table ≡ to },
    ghost sends: { relay.tx.end.table ≡ to },
}

impl Flow {
    /// Makes a flow between two ports, whose queues are not enabled yet.
    pub fn new(alloc: Global) -> Result<Flow> {
        let Ports {
            from,
            port_in,
            rx,
            to,
            port_out,
            tx,
            stash,
            wire,
        } = Ports::new(alloc)?;
        Ok(Flow {
            from,
            port_in,
            to,
            port_out,
            relay: Relay::new(rx, tx, stash),
            wire,
        })
    }

    /// Asks for both queues to be enabled, and lets the device answer.
    pub fn enable(&mut self) -> Result<bool, DriverError> {
        let enabled = self.relay.enable(&self.from, &self.to)?;
        self.port_in.turn_control(&self.from);
        self.port_out.turn_control(&self.to);
        Ok(enabled)
    }

    /// Makes the drivers' turn: touches the packets that came in and sends them on. Does nothing until both queues are
    /// enabled.
    pub fn turn<G: Gate>(&mut self, gate: &G) -> Result<Turned, ForwardError> {
        if !self.relay.is_live() {
            return Ok(Turned {
                taken: 0,
                posted: 0,
            });
        }
        self.relay.turn(&self.from, &self.to, 0, gate)
    }

    /// Makes the device's turn: lets a frame come in, and sends one if one is ready.
    fn serve(&mut self, frame: &[u8]) -> Result<(), CtlError> {
        self.port_in.offer(&self.from, frame)?;
        self.port_out.turn(&self.to, &mut self.wire)?;
        Ok(())
    }
}

/// Lets a frame come in ten times. Returns how many frames went out.
pub fn forwarded<G: Gate>(alloc: Global, frame: &[u8], gate: &G) -> Result<usize> {
    let mut flow = Flow::new(alloc)?;
    let went = forward_ten(&mut flow, frame, gate);
    let count = flow.wire.len();
    drop(flow);
    went?;
    Ok(count)
}

/// Lets a frame come in ten times.
fn forward_ten<G: Gate>(flow: &mut Flow, frame: &[u8], gate: &G) -> Result<()> {
    for _ in 0..3 {
        flow.enable()?; // the transmit queue is asked for, then the receive queue, and then both are seen enabled
    }
    for _ in 0..11 {
        flow.turn(gate)?; // empty buffers are posted, and what came in is sent on
        flow.serve(frame)?;
    }
    Ok(())
}
