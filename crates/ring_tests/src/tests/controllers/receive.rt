//! A receive queue whose driver the test plays.
ghost use Rattle.std.specs.Prelude.{◌≡◌};

use crate::tests::controllers::expected::{Bytes, Expected, Walked};
use crate::{Tells, YesOrNo, asked, full_stash, put_back, renewed, taken_back, told_so, walked};
use buffer_pool::Stash;
use controller::{RxController, Tally};
use rx_ring::{Control, ControllerEnd, DriverEnd, Poll, RxDriverEnd, RxRing};
use std::alloc::Global;
use std::process::Abort;

/// A step of the controller or of the driver. A frame is a number of bytes from a place on.
#[derive(Clone, Copy, Drop)]
pub(crate) enum Step {
    /// The driver enables or disables the queue: whether both sides saw it so.
    Enable,
    Disable,
    /// The driver takes back all buffers of the disabled queue, and renews it: how many came back.
    Renew,
    /// The driver posts buffers while there is room, and publishes them: how many there are.
    Fill,
    /// Offers a frame of this length from this place on.
    Offer(usize, usize),
    /// The driver takes the next frame: whether it is the one from this place on, with this number of full segments and
    /// a last one of this length.
    Take(usize, usize, usize),
    /// Whether the driver finds no segment.
    FindsNone,
    /// Whether the driver finds a descriptor that is not done.
    IsNotDone,
    /// Whether the driver finds that the queue is off.
    IsOff,
    /// The controller announces that it stores no more: whether it did.
    Finish,
    IsQuiet,
    /// Whether these numbers of frames were offered, stored, dropped and oversize.
    Counted(u64, u64, u64, u64),
}

/// What a driver found, without the segment.
#[derive(Clone, Copy, PartialEq)]
enum Found {
    Segment,
    NotDone,
    Empty,
    Off,
}

/// A ring, its driver's end, the controller, and the buffers at hand.
#[derive(Drop)]
pub(crate) struct Receive {
    ring: RxRing,
    driver: RxDriverEnd,
    controller: RxController,
    spare: Stash,
    bytes: Bytes,
    bsize: usize,
    ghost drives: { driver.table ≡ ring },
    ghost serves: { controller.end.table ≡ ring },
}

impl Receive {
    /// A ring of `n` places that is not enabled, and buffers at hand. Buffers are filled to 2,048 bytes if `large`, and
    /// to 1,024 otherwise.
    pub(crate) fn new<R: Abort>(
        rt: &R,
        alloc: Global,
        n: u32,
        large: bool,
        drop_en: bool,
    ) -> Receive {
        let spare = full_stash(alloc, 32).expect(rt, "buffers");
        let bytes = Bytes::new(rt, alloc);
        let bsize = if large { 2_048 } else { 1_024 };
        let (ring, driver, end) = RxRing::new(alloc, n).expect(rt, "a ring");
        let _size = end.size();
        Receive {
            controller: RxController::new(end, bsize, drop_en),
            ring,
            driver,
            spare,
            bytes,
            bsize,
        }
    }

    fn enable(&mut self) -> bool {
        asked!(self, is_new, ask_enable, Control::Enabled, is_on)
    }

    fn disable(&mut self) -> bool {
        asked!(self, is_on, ask_disable, Control::Disabled, is_stopped)
    }

    fn offer(&mut self, len: usize, from: usize) -> Expected {
        let frame = self.bytes.frame(from, len);
        match self.controller.offer(&self.ring, frame) {
            Ok(offer) => Expected::Offered(offer),
            Err(refusal) => Expected::Refused(refusal),
        }
    }

    /// What the driver finds. Drops a segment with its buffer.
    fn found(&mut self) -> Found {
        match self.driver.poll(&self.ring) {
            Poll::Segment { .. } => Found::Segment,
            Poll::NotDone => Found::NotDone,
            Poll::Empty => Found::Empty,
            Poll::Off => Found::Off,
        }
    }

    /// Makes the rows' steps.
    pub(crate) fn walk(mut self, rows: &[(Step, Expected)]) -> Walked {
        walked!(self, rows, is_holding)
    }

    /// How many buffers came back from a disabled queue.
    fn renew(&mut self) -> Option<u32> {
        let count = taken_back!(self);
        renewed!(self);
        Some(count)
    }

    fn fill(&mut self) -> u32 {
        let mut count = 0_u32;
        for _ in 0..32 {
            if self.driver.room() == 0 || !self.driver.is_open() {
                break;
            }
            let Some(buf) = self.spare.take() else {
                break;
            };
            self.driver.post(&self.ring, buf);
            count = count.saturating_add(1);
        }
        if self.driver.is_open() {
            self.driver.publish(&self.ring);
        }
        count
    }

    fn take(&mut self, from: usize, full: usize, last: usize) -> bool {
        let mut at = from;
        for k in 0..full.saturating_add(1) {
            let Poll::Segment { buf, eop } = self.driver.poll(&self.ring) else {
                return false;
            };
            let len = if k == full { last } else { self.bsize };
            let is_next = self.bytes.are_at(at, buf.bytes()) && buf.len() == len;
            put_back(&mut self.spare, buf);
            if !is_next || eop != (k == full) {
                return false;
            }
            at = at.saturating_add(len);
        }
        true
    }

    /// Whether these numbers of frames were offered, stored, dropped and oversize.
    fn has_counted(&self, counts: [u64; 4]) -> bool {
        let [offered, stored, dropped, oversize] = counts;
        let wanted = Tally {
            offered,
            stored,
            dropped,
            oversize,
        };
        self.controller.tally() == wanted
    }
}

impl Tells for Receive {
    type Step = Step;

    type Expected = Expected;

    fn make(&mut self, step: Step) -> Expected {
        match step {
            Step::Offer(len, from) => self.offer(len, from),
            Step::Fill => Expected::Count(self.fill()),
            Step::Enable => Expected::whether(self.enable()),
            Step::Disable => Expected::whether(self.disable()),
            Step::Renew => self.renew().map_or(Expected::False, Expected::Count),
            Step::Take(from, full, last) => Expected::whether(self.take(from, full, last)),
            Step::FindsNone => Expected::whether(self.found() != Found::Segment),
            Step::IsNotDone => Expected::whether(self.found() == Found::NotDone),
            Step::IsOff => Expected::whether(self.found() == Found::Off),
            Step::Finish => Expected::whether(self.controller.finish(&self.ring)),
            Step::IsQuiet => Expected::whether(self.driver.is_quiet(&self.ring)),
            Step::Counted(offered, stored, dropped, oversize) => {
                Expected::whether(self.has_counted([offered, stored, dropped, oversize]))
            }
        }
    }
}
