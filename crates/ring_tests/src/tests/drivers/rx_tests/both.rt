//! A receive driver and a controller's end of one ring, in one thread.
ghost use Rattle.std.specs.Prelude.{◌≡◌, ◌<◌, ◌≤◌};

use crate::tests::drivers::expected::{Call, Expected};
use crate::tests::drivers::stashes::cut;
use crate::{Storer, Tells, YesOrNo, full_stash, made};
use arrayvec::ArrayVec;
use buffer_pool::{Packet, Stash};
use driver::{DriverError, MOST_BATCH, QueueDriver, RxDriver};
use limits::BUFFER_BYTES;
use rx_ring::RxRing;
use std::alloc::Global;
use std::mem;
use std::process::Abort;

/// A ring with a driver and a controller's end.
#[derive(Drop)]
pub(crate) struct Both {
    ring: RxRing,
    driver: RxDriver,
    storer: Storer,
    /// The packets that were taken.
    packets: ArrayVec<Packet, MOST_BATCH>,
    /// The buffers at hand, and others that can replace them.
    stash: Stash,
    others: Stash,
    ghost drives: { driver.end.table ≡ ring },
    ghost serves: { storer.controller.table ≡ ring },
}

/// A call that only receiving has.
#[derive(Clone, Copy, Drop)]
pub(crate) enum RxCall {
    /// The controller stores a segment of this length, all of whose bytes are the same, which ends its frame or not.
    Store(usize, bool, u8),
    /// The controller stores this number of frames of 60 bytes; all bytes of the first are the given one, and those of
    /// each next frame one more: how many are stored, up to the first that is not.
    Frames(u8, u8),
    /// The controller announces that it stores no more.
    SayQuiet,
    IsQuiet,
    HasChain,
    /// Drops buffers until only this number is at hand.
    Cut(usize),
    /// Replaces the buffers at hand with the 256 others.
    Exchange,
    /// Appends packets without bytes to the list, up to this number.
    Blanks(usize),
    /// Empties the list.
    Clear,
    /// Whether the packet at this place has segments of these lengths, as far as they are not 0; all bytes of the first
    /// are the given one, and those of each next one one more.
    Packet(usize, [usize; 3], u8),
}

impl Both {
    /// A ring of 8 that is not enabled, with `buffers` buffers at hand, up to 16.
    pub(crate) fn new<R: Abort>(rt: &R, alloc: Global, batch: usize, buffers: usize) -> Both
        requires some { 0 < batch }
        requires few { batch ≤ MOST_BATCH }
    {
        let mut stash = full_stash(alloc, 16).expect(rt, "buffers");
        let others = full_stash(alloc, 256).expect(rt, "buffers");
        cut(&mut stash, buffers);
        let (ring, driver, controller) = RxRing::new(alloc, 8).expect(rt, "a ring");
        Both {
            ring,
            driver: RxDriver::new(driver, batch),
            storer: Storer::new(controller),
            stash,
            others,
            packets: ArrayVec::new(),
        }
    }

    fn store(&mut self, len: usize, eop: bool, byte: u8) -> bool {
        let bytes = [byte; BUFFER_BYTES];
        let Some(bytes) = bytes.get(..len) else {
            return false;
        };
        let is_stored = self.storer.store(&self.ring, bytes, eop);
        self.storer.set_head(&self.ring);
        is_stored
    }

    fn store_frames(&mut self, count: u8, first: u8) -> usize {
        for k in 0..count {
            if !self.store(60, true, first.wrapping_add(k)) {
                return usize::from(k);
            }
        }
        usize::from(count)
    }

    fn add_blanks(&mut self, count: usize) {
        for _ in 0..MOST_BATCH {
            if self.packets.len() < count {
                let _ = self.packets.try_push(Packet::default());
            }
        }
    }

    fn answer(&mut self) -> bool {
        self.storer.answer(&self.ring)
    }

    fn own(&mut self, call: RxCall) -> Expected {
        match call {
            RxCall::Store(len, eop, byte) => return Expected::whether(self.store(len, eop, byte)),
            RxCall::Frames(count, first) => return Expected::Count(self.store_frames(count, first)),
            RxCall::IsQuiet => return Expected::whether(self.driver.is_quiet(&self.ring)),
            RxCall::HasChain => return Expected::whether(self.driver.has_chain()),
            RxCall::Packet(k, lens, first) => {
                return Expected::whether(is_chain(self.packets.get(k), &lens, first));
            }
            RxCall::SayQuiet => self.storer.say_quiet(&self.ring),
            RxCall::Cut(buffers) => cut(&mut self.stash, buffers),
            RxCall::Exchange => mem::swap(&mut self.stash, &mut self.others),
            RxCall::Blanks(count) => self.add_blanks(count),
            RxCall::Clear => self.packets.clear(),
        }
        Expected::True
    }
}

impl Tells for Both {
    type Step = Call<RxCall>;

    type Expected = Expected;

    fn make(&mut self, step: Call<RxCall>) -> Expected {
        made!(self, step, rx_batch)
    }
}

/// Whether there is a packet with segments of these lengths, as far as they are not 0, where all bytes of a segment are
/// the same, and those of the next one one more.
fn is_chain(packet: Option<&Packet>, lens: &[usize], first: u8) -> bool {
    let Some(packet) = packet else {
        return false;
    };
    let mut byte = first;
    let mut rest = lens.iter();
    for bytes in packet.iter() {
        if rest.next() != Some(&bytes.len()) || !is_filled(bytes, byte) {
            return false;
        }
        byte = byte.wrapping_add(1);
    }
    match rest.next() {
        Some(len) => *len == 0,
        None => true,
    }
}

/// Whether each of a segment's bytes is this one.
fn is_filled(bytes: &[u8], byte: u8) -> bool {
    let wanted = [byte; BUFFER_BYTES];
    wanted.get(..bytes.len()) == Some(bytes)
}
