//! The driver's side: a transmit driver sends the packets that a receive driver takes.
ghost use Rattle.std.specs.Prelude.{◌≡◌, ◌<◌, ◌≤◌, All};
ghost use Rattle.buffer_pool.specs.Packed.{IsPacket};
ghost use Rattle.driver.specs.receive.Receiver.{IsReady as IsReadyRx};
ghost use Rattle.driver.specs.transmit.Transmitter.{IsReady as IsReadyTx};

use crate::tests::threads::side::{Shared, ThreadSide};
use arrayvec::ArrayVec;
use buffer_pool::{Packet, Stash};
use driver::{MOST_BATCH, QueueDriver, RxDriver, TxDriver};
use rx_ring::{RxDriverEnd, RxRing};
use tx_ring::{TxDriverEnd, TxRing};

/// The buffers at hand, and the packets that were taken and not posted.
#[derive(Drop)]
pub(crate) struct DriverBuffers {
    pub stash: Stash,
    pub packets: ArrayVec<Packet, MOST_BATCH>,
    ghost whole: { All IsPacket packets.items },
}

/// When a driver asks for its queue to be disabled.
#[derive(Clone, Copy, Drop)]
pub(crate) enum Ends {
    /// Once it took this number of frames in the epoch, whatever the device does.
    After(usize),
    /// Once the device announced that it stores no more, and all is taken.
    WhenQuiet,
}

/// The receive driver.
#[derive(Drop)]
pub(crate) struct Taking {
    pub driver: RxDriver,
    ends: Ends,
    /// How many frames it took in this epoch.
    count: usize,
    /// Whether its queue is disabled, and all buffers are back.
    over: bool,
}

impl Taking {
    /// A driver that takes up to `batch` packets at once.
    fn new(end: RxDriverEnd, batch: usize, ends: Ends) -> Taking
        requires ready { IsReadyRx end }
        requires some { 0 < batch }
        requires few { batch ≤ MOST_BATCH }
        ensures { result.driver.end ≡ end }
    {
        Taking {
            driver: RxDriver::new(end, batch),
            ends,
            count: 0,
            over: false,
        }
    }

    /// Whether it took enough in this epoch. `is_drained`: the device announced that it stores no more, and all is
    /// taken.
    fn has_enough(&self, is_drained: bool) -> bool {
        match self.ends {
            Ends::After(most) => self.count >= most,
            Ends::WhenQuiet => is_drained,
        }
    }

    /// Takes one batch. Returns the number of frames, unless it was refused.
    fn take(&mut self, ring: &RxRing, driver_buffers: &mut DriverBuffers) -> Option<usize>
        requires { self.old.driver.end.table ≡ ring.now }
        ensures { self.new.driver.end.table ≡ ring.now }
    {
        let quiet = self.driver.is_quiet(ring);
        let has_room = driver_buffers.packets.len() < MOST_BATCH;
        let taken = self.driver.rx_batch(
            ring,
            &mut driver_buffers.stash,
            &mut driver_buffers.packets,
        );
        let count = taken.ok()?;
        self.count = self.count.saturating_add(count);
        if self.has_enough(quiet && count == 0 && has_room) {
            let _ = self.driver.ask_disable(ring);
        }
        Some(count)
    }

    /// Takes back the buffers of a disabled queue.
    fn end(&mut self, ring: &RxRing, stash: &mut Stash)
        requires { self.old.driver.end.table ≡ ring.now }
        ensures { self.new.driver.end.table ≡ ring.now }
    {
        if self.driver.finish_disable(ring).is_some() {
            self.over = self.driver.reclaim_into(ring, stash).is_ok();
        }
    }

    /// Takes one batch, asks for the disabling when it is due, and takes back the buffers of a disabled queue.
    fn turn(&mut self, ring: &RxRing, driver_buffers: &mut DriverBuffers) -> usize
        requires { self.old.driver.end.table ≡ ring.now }
        ensures { self.new.driver.end.table ≡ ring.now }
    {
        let _ = self.driver.enable(ring);
        let Some(count) = self.take(ring, driver_buffers) else {
            return 0;
        };
        self.end(ring, &mut driver_buffers.stash);
        count
    }

    /// Renews the queue, and returns whether that was possible.
    fn renew(&mut self, ring: &RxRing) -> bool
        requires { self.old.driver.end.table ≡ ring.now }
        ensures { self.new.driver.end.table ≡ ring.now }
    {
        self.count = 0;
        self.over = false;
        self.driver.renew(ring).is_ok()
    }
}

/// The transmit driver.
#[derive(Drop)]
pub(crate) struct Sending {
    pub driver: TxDriver,
    /// The number of descriptors that its ring has room for.
    room: u32,
    /// Whether its queue is disabled, and all buffers are back.
    over: bool,
}

impl Sending {
    /// A driver that asks for a report at each third frame.
    fn new(end: TxDriverEnd) -> Sending
        requires { IsReadyTx end }
        ensures { result.driver.end ≡ end }
    {
        let driver = TxDriver::new(end, 3);
        Sending {
            room: driver.room(),
            driver,
            over: false,
        }
    }

    /// Posts one batch. If no more comes and all is cleaned, asks for the disabling, and takes back the buffers of a
    /// disabled queue.
    fn turn(&mut self, ring: &TxRing, driver_buffers: &mut DriverBuffers, last: bool) -> usize
        requires { self.old.driver.end.table ≡ ring.now }
        ensures { self.new.driver.end.table ≡ ring.now }
    {
        let driver = &mut self.driver;
        let _ = driver.enable(ring);
        let Ok(count) = driver.tx_batch(
            ring,
            &mut driver_buffers.stash,
            &mut driver_buffers.packets,
        ) else {
            return 0;
        };
        if last && driver_buffers.packets.is_empty() && driver.room() == self.room {
            let _ = driver.ask_disable(ring);
        }
        if driver.finish_disable(ring) == Some(0) {
            self.over = driver.reclaim_into(ring, &mut driver_buffers.stash).is_ok();
        }
        count
    }

    /// Renews the queue, and returns whether that was possible.
    fn renew(&mut self, ring: &TxRing) -> bool
        requires { self.old.driver.end.table ≡ ring.now }
        ensures { self.new.driver.end.table ≡ ring.now }
    {
        self.over = false;
        self.driver.renew(ring).is_ok()
    }
}

/// Both drivers in one thread, with their counts.
#[derive(Drop)]
pub(crate) struct Forwarder {
    pub taking: Taking,
    pub sending: Sending,
    pub driver_buffers: DriverBuffers,
    /// The number of epochs to serve, and how many ended with the renewal of both queues.
    epochs: u32,
    ended: u32,
    /// How many frames were taken, and how many posted.
    pub taken: usize,
    pub sent: usize,
}

/// The parameters of the drivers.
#[derive(Clone, Copy, Drop)]
pub(crate) struct Plan {
    /// The maximum number of packets of a batch.
    pub batch: usize,
    pub ends: Ends,
    pub epochs: u32,
}

impl Forwarder {
    pub(crate) fn new(from: RxDriverEnd, to: TxDriverEnd, stash: Stash, plan: Plan) -> Forwarder
        requires receives { IsReadyRx from }
        requires sends { IsReadyTx to }
        requires some { 0 < plan.batch }
        requires few { plan.batch ≤ MOST_BATCH }
        ensures { (result.taking.driver.end ≡ from) × (result.sending.driver.end ≡ to) }
    {
        Forwarder {
            taking: Taking::new(from, plan.batch, plan.ends),
            sending: Sending::new(to),
            driver_buffers: DriverBuffers {
                stash,
                packets: ArrayVec::new(),
            },
            epochs: plan.epochs,
            ended: 0,
            taken: 0,
            sent: 0,
        }
    }
}

impl ThreadSide for Forwarder {
    ghost is_of = { λ shared f. (f.taking.driver.end.table ≡ shared.from) × (f.sending.driver.end.table ≡ shared.to) };

    fn turn(&mut self, shared: &Shared) -> bool {
        let taken = self.taking.turn(&shared.from, &mut self.driver_buffers);
        let sent = self
            .sending
            .turn(&shared.to, &mut self.driver_buffers, self.taking.over);
        self.taken = self.taken.saturating_add(taken);
        self.sent = self.sent.saturating_add(sent);
        if self.taking.over
            && self.sending.over
            && self.taking.renew(&shared.from)
            && self.sending.renew(&shared.to)
        {
            self.ended = self.ended.saturating_add(1);
        }
        taken > 0 || sent > 0
    }

    fn is_over(&self) -> bool {
        self.ended == self.epochs
    }
}
