//! The transmit driver on a ring of 8, beside a controller end in the same thread.
ghost use Rattle.std.specs.Prelude.{◌≡◌, All};
ghost use Rattle.buffer_pool.specs.Packed.{IsPacket};

use crate::tests::drivers::expected::{Call, Expected};
use crate::tests::drivers::stashes::cut;
use crate::{Tells, YesOrNo, made, put_back};
use arrayvec::ArrayVec;
use buffer_pool::{Buf, Packet, STASH_BUFFERS, Stash, Stock};
use descriptor::TxRead;
use driver::{DriverError, MOST_BATCH, QueueDriver, TxDriver};
use std::alloc::Global;
use std::process::Abort;
use tx_ring::{Completion, ControllerEnd, TxControllerEnd, TxRing, close};

/// The greatest length of a segment.
const MOST: usize = 1_000;

/// A queue, with the waiting packets and the buffers that came back.
#[derive(Drop)]
pub(crate) struct Queue {
    ring: TxRing,
    driver: TxDriver,
    controller: TxControllerEnd,
    stock: Stock,
    stash: Stash,
    packets: ArrayVec<Packet, MOST_BATCH>,
    ghost drives: { driver.end.table ≡ ring },
    ghost serves: { controller.table ≡ ring },
    ghost whole: { All IsPacket packets.items },
}

/// The number of the buffer at each place of a ring.
pub(crate) type Places = [Option<u16>; 8];

/// A call that only transmitting has.
#[derive(Clone, Copy, Drop)]
pub(crate) enum TxCall {
    /// Adds this number of packets, each with this number of segments of this length.
    Add(usize, usize, usize),
    /// How many descriptors the controller sees published and not sent.
    Ready,
    /// Sends descriptors: whether there are as many as given, and each asks for a report as given.
    Asks(&'static [bool]),
    /// Sends descriptors: whether there are as many as given, each with the second word given.
    Words(&'static [u64]),
    Clean,
    /// Leaves room for this number of buffers in the stash.
    Fill(usize),
    /// Drops the buffers of the stash.
    Drop,
}

impl Queue {
    /// A queue of 8 that is not enabled, with a report interval of four frames.
    pub(crate) fn new<R: Abort>(rt: &R, alloc: Global, completion: Completion) -> Queue {
        let stock = Stock::new(alloc, 0, 300).expect(rt, "buffers");
        let (ring, end, controller) = TxRing::new_with(alloc, 8, completion).expect(rt, "a ring");
        Queue {
            ring,
            driver: TxDriver::new(end, 4),
            controller,
            stock,
            stash: Stash::new(),
            packets: ArrayVec::new(),
        }
    }

    fn add(&mut self, count: usize, segments: usize, len: usize) {
        for _ in 0..count {
            let packet = packet(&mut self.stock, segments, len);
            if packet.is_whole() && !self.packets.is_full() {
                self.packets.push(packet);
            }
        }
    }

    fn fill_stash(&mut self, room: usize) {
        for _ in 0..STASH_BUFFERS {
            if self.stash.len().saturating_add(room) >= STASH_BUFFERS {
                return;
            }
            if let Some(buf) = self.stock.take() {
                put_back(&mut self.stash, buf);
            }
        }
    }

    fn ready(&mut self) -> u32 {
        if !self.controller.is_serving() {
            return 0;
        }
        self.controller.look(&self.ring)
    }

    /// The descriptor that the controller sends next, and reports if it asks for that.
    fn send(&mut self) -> Option<TxRead> {
        let controller = &mut self.controller;
        if !controller.is_serving() || controller.is_holding() || controller.owes_report() {
            return None;
        }
        if controller.look(&self.ring) == 0 {
            return None;
        }
        let (buf, read) = controller.fetch(&self.ring);
        controller.give_back(&self.ring, buf);
        if controller.owes_report() {
            controller.report(&self.ring);
        }
        Some(read)
    }

    /// Sends a descriptor for each of these. Returns whether there was one each time, for which `has` holds.
    fn send_each<T: Copy, F: Fn(TxRead, T) -> bool + Drop>(&mut self, wanted: &[T], has: F) -> bool
        requires { F.IsAlwaysCallable has }
    {
        for one in wanted {
            match self.send() {
                Some(read) if has(read, *one) => {}
                _ => return false,
            }
        }
        true
    }

    /// The number of the buffer at each place.
    pub(crate) fn places(self) -> Places {
        let Queue {
            ring,
            driver,
            controller,
            ..
        } = self;
        let slots = close(ring, driver.into_end(), controller);
        numbers(&slots)
    }

    fn answer(&mut self) -> bool {
        self.controller.asked(&self.ring);
        if self.controller.can_answer() {
            self.controller.answer(&self.ring);
        }
        self.controller.is_serving()
    }

    fn own(&mut self, call: TxCall) -> Expected {
        match call {
            TxCall::Ready => return Expected::Count(self.ready() as usize),
            TxCall::Asks(reports) => {
                return Expected::whether(self.send_each(reports, |read, rs| read.rs == rs));
            }
            TxCall::Words(words) => {
                return Expected::whether(self.send_each(
                    words,
                    |read, word| read.second_word() == word,
                ));
            }
            TxCall::Clean => return Expected::Count(self.driver.clean(&self.ring, &mut self.stash)),
            TxCall::Add(count, segments, len) => self.add(count, segments, len),
            TxCall::Fill(room) => self.fill_stash(room),
            TxCall::Drop => cut(&mut self.stash, 0),
        }
        Expected::True
    }
}

/// The number of the buffer in each slot.
fn numbers(slots: &[Option<Buf>]) -> Places {
    let mut places = [None; 8];
    for (place, slot) in places.iter_mut().zip(slots) {
        if let Some(buf) = slot {
            *place = Some(buf.number());
        }
    }
    places
}

/// A packet of `segments` segments, 15 at most, of `len` bytes each; of fewer if the stock runs out of buffers.
fn packet(stock: &mut Stock, segments: usize, len: usize) -> Packet {
    let mut packet = Packet::default();
    let len = len.clamp(1, MOST);
    for _ in 0..segments.min(15) {
        if let Some(mut buf) = stock.take()
            && packet.segments() < 15
        {
            buf.fill(&[7; MOST][..len]);
            packet.push_back(buf);
        }
    }
    packet
}

impl Tells for Queue {
    type Step = Call<TxCall>;

    type Expected = Expected;

    fn make(&mut self, step: Call<TxCall>) -> Expected {
        made!(self, step, tx_batch)
    }
}
