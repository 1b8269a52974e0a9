//! A worker that forwards in buffers of a pool: they circulate in both of its rings, and all of them return.
ghost use Rattle.std.specs.Prelude.{◌≡◌, true, [], All};
ghost use Rattle.buffer_pool.specs.Packed.{IsPacket};
ghost use Rattle.ring_model.specs.shared.Handshakes.{is_stopped};
ghost use Rattle.rx_ring.specs.Ends as receive;
ghost use Rattle.tx_ring.specs.Ends as transmit;
ghost use Rattle.pool.specs.Owned.{IsOf};
ghost use Rattle.buffer_accounting.specs.Lent.{lent, SameNumbers};

use crate::outcome::both;
use crate::rings::{new_rx, new_tx};
use crate::rounds::forward;
use anyhow::Result as Answer;
use arrayvec::ArrayVec;
use buffer_accounting::{give_disabled, give_packets};
use buffer_pool::{Packet, Stash};
use controller::{CtlError, RxController, TxController, Wire};
use driver::{DriverError, MOST_BATCH, QueueDriver, RxDriver, TxDriver};
use limits::BUFFER_BYTES;
use pool::{Pool, PoolPass};
use rx_ring::RxRing;
use std::alloc::Global;
use std::sync::Wait;
use tx_ring::TxRing;

/// The most buffers that a turn takes from the pool.
const REFILL: usize = 32;

/// A driver of either direction, and the buffers of a pool that circulate between them. The pass holds exactly the
/// buffers of the stash, of both rings, of the unfinished frame and of the waiting packets.
#[derive(Drop)]
pub struct Worker<'a> {
    pool: &'a Pool,
    pass: PoolPass,
    from: &'a RxRing,
    rx: RxDriver,
    to: &'a TxRing,
    tx: TxDriver,
    stash: Stash,
    packets: ArrayVec<Packet, MOST_BATCH>,
    ghost shares: { IsOf pool.now pass },
    ghost receives: { rx.end.table ≡ from.now },
    ghost sends: { tx.end.table ≡ to.now },
    ghost whole: { All IsPacket packets.items },
    ghost lent: { SameNumbers pass.hand.held (lent rx tx stash packets.items) },
}

impl<'a> Worker<'a> {
    /// Makes one turn: refills the stash, receives what came in, and sends what waits.
    pub fn turn<R: Wait>(&mut self, rt: &R) -> Result<usize, DriverError> {
        self.pool
            .refill(rt, &mut self.pass, &mut self.stash, REFILL);
        forward(
            self.from,
            &mut self.rx,
            self.to,
            &mut self.tx,
            &mut self.stash,
            &mut self.packets,
        )
    }

    /// Asks for the receive queue to be enabled. A later call sees the answer.
    pub fn enable_receive(&mut self) -> Result<bool, DriverError> {
        self.rx.enable(self.from)
    }

    /// Asks for the transmit queue to be enabled. A later call sees the answer.
    pub fn enable_send(&mut self) -> Result<bool, DriverError> {
        self.tx.enable(self.to)
    }

    /// Asks for both queues to be disabled, if they are enabled. A later call sees the answers. Returns whether both
    /// were seen disabled.
    pub fn disable(&mut self) -> bool
        ensures received { result ≡ true → is_stopped (receive.driver_state self.new.rx.end) ≡ true }
        ensures sent { result ≡ true → is_stopped (transmit.driver_state self.new.tx.end) ≡ true }
    {
        if self.rx.is_on() {
            let _ = self.rx.ask_disable(self.from);
        }
        if self.tx.is_on() {
            let _ = self.tx.ask_disable(self.to);
        }
        self.rx.finish_disable(self.from);
        self.tx.finish_disable(self.to);
        self.rx.is_stopped() && self.tx.is_stopped()
    }

    /// Returns all buffers to the pool once both queues were seen disabled. The pass then holds none.
    pub fn give_back<R: Wait>(self, rt: &R) -> PoolPass
        requires received { is_stopped (receive.driver_state self.rx.end) ≡ true }
        requires sent { is_stopped (transmit.driver_state self.tx.end) ≡ true }
        ensures pool { IsOf self.entry.pool.now result }
        ensures none { result.hand.held ≡ [] }
    {
        let Worker {
            pool,
            mut pass,
            from,
            mut rx,
            to,
            mut tx,
            mut stash,
            mut packets,
        } = self;
        give_disabled(rt, pool, &mut pass, &mut rx, from, &mut stash);
        give_disabled(rt, pool, &mut pass, &mut tx, to, &mut stash);
        give_packets(rt, pool, &mut pass, &mut packets);
        drop((rx, tx, stash, packets));
        pass
    }
}

/// The device's side of both queues.
#[derive(Drop)]
struct Device<'a> {
    from: &'a RxRing,
    port_in: RxController,
    to: &'a TxRing,
    port_out: TxController,
    wire: Wire,
    ghost stores: { port_in.end.table ≡ from.now },
    ghost transmits: { port_out.table ≡ to.now },
}

impl<'a> Device<'a> {
    /// Answers the drivers' requests.
    fn answer(&mut self) {
        self.port_in.turn_control(self.from);
        self.port_out.turn_control(self.to);
    }

    /// Lets a frame come in, and sends one if one is ready.
    fn turn(&mut self, frame: &[u8]) -> Result<(), CtlError> {
        self.port_in.offer(self.from, frame)?;
        self.port_out.turn(self.to, &mut self.wire)?;
        Ok(())
    }
}

/// Lets a frame come in ten times.
fn forward_ten<R: Wait>(
    rt: &R,
    worker: &mut Worker<'_>,
    device: &mut Device<'_>,
    frame: &[u8],
) -> Answer<()> {
    for _ in 0..2 {
        begin(worker, device)?; // asked, and then seen
    }
    for _ in 0..11 {
        worker.turn(rt)?;
        device.turn(frame)?;
    }
    Ok(())
}

/// Asks for both queues to be enabled, and lets the device answer.
fn begin(worker: &mut Worker<'_>, device: &mut Device<'_>) -> Result<(), DriverError> {
    worker.enable_receive()?;
    worker.enable_send()?;
    device.answer();
    Ok(())
}

/// Disables both queues. Returns whether both were seen disabled.
fn stop(worker: &mut Worker<'_>, device: &mut Device<'_>) -> bool
    ensures received { result ≡ true → is_stopped (receive.driver_state worker.new.rx.end) ≡ true }
    ensures sent { result ≡ true → is_stopped (transmit.driver_state worker.new.tx.end) ≡ true }
{
    worker.disable(); // asked
    device.answer();
    worker.disable() // and then seen
}

/// Lets a frame come in ten times to a worker with buffers of the pool. Returns how many frames went out. The worker's
/// pass has no buffer before and after.
pub fn lent_and_returned<R: Wait>(
    rt: &R,
    alloc: Global,
    pool: &Pool,
    pass: PoolPass,
    frame: &[u8],
) -> Answer<usize>
    requires shares { IsOf pool.now pass }
    requires none { pass.hand.held ≡ [] }
{
    let (receives, sends) = both(new_rx(alloc), new_tx(alloc))?;
    let (from, receiving, storing) = receives;
    let (to, sending, transmitting) = sends;
    let worker = Worker {
        pool,
        pass,
        from: &from,
        rx: RxDriver::new(receiving, 32),
        to: &to,
        tx: TxDriver::new(sending, 32),
        stash: Stash::new(),
        packets: ArrayVec::new(),
    };
    let device = Device {
        from: &from,
        port_in: RxController::new(storing, BUFFER_BYTES, false),
        to: &to,
        port_out: TxController::new(transmitting),
        wire: Wire::new(alloc),
    };
    let count = forwarded(rt, worker, device, frame);
    drop((from, to));
    count
}

/// Does the same with a given worker and device.
fn forwarded<R: Wait>(
    rt: &R,
    mut worker: Worker<'_>,
    mut device: Device<'_>,
    frame: &[u8],
) -> Answer<usize> {
    let went = forward_ten(rt, &mut worker, &mut device, frame);
    let (_, (worker, device)) = both(went, Ok((worker, device)))?;
    Ok(returned(rt, worker, device))
}

/// Disables both queues and returns the worker's buffers to the pool. Returns how many frames went out.
fn returned<R: Wait>(rt: &R, mut worker: Worker<'_>, mut device: Device<'_>) -> usize {
    let stopped = stop(&mut worker, &mut device);
    let count = device.wire.len();
    drop(device);
    if stopped {
        let pass = worker.give_back(rt); // it holds no buffer
        pass.accounts();
    } else {
        drop(worker);
    }
    count
}
