//! A transmit queue whose driver the test plays.
ghost use Rattle.std.specs.Prelude.{◌≡◌, ◌≤◌, ◌⊎◌, true, length};
ghost use Rattle.limits.specs.declared.profile.TheConstants.{MOST_FRAME};
ghost use Rattle.ring_model.specs.shared.Frames.{join, unfinished};
ghost use Rattle.ring_model.specs.transmit.Ring.{carried};
ghost use Rattle.tx_ring.specs.Ends.{posted};
ghost use Rattle.ring_tests.specs.Begun.{AreOfFrame};

use crate::tests::controllers::expected::{Bytes, Expected, Walked};
use crate::tests::controllers::growing::{len_of, send, send_seldom_growing};
use crate::{Tells, YesOrNo, asked, full_stash, put_back, renewed, taken_back, told_so, walked};
use buffer_pool::Stash;
use controller::{CtlError, Turn, TxController, Wire};
use limits::{LEAST_FRAME, MOST_FRAME, MOST_SEGMENTS};
use std::alloc::Global;
use std::process::Abort;
use tx_ring::{Completion, Control, ControllerEnd, DriverEnd, TxDriverEnd, TxRing};

/// A step of the driver or of the controller. A frame is a number of bytes from a place on.
#[derive(Clone, Copy, Drop)]
pub(crate) enum Step {
    /// The driver enables or disables the queue: whether both sides saw it so.
    Enable,
    Disable,
    /// The driver takes back all buffers of the disabled queue, and renews it.
    Renew,
    /// The driver posts a frame of this length from this place on, in segments of this length and a last one, which
    /// asks for a report or not, and publishes it: whether there was room and a buffer for each.
    Post(usize, usize, usize, bool),
    /// A turn of the controller.
    Turn,
    /// Whether the oldest outstanding report is made.
    HasReport,
    /// The driver cleans all that it has seen reported: how many buffers came back.
    Clean,
    /// Whether this number of frames is on the wire.
    HasSent(usize),
    /// Whether a frame of the wire has this length and the bytes from this place on.
    IsOnWire(usize, usize, usize),
    /// Posts, sends and cleans this number of frames, one after another, each of the length `len_of` and from the place
    /// of its number on: how many were sent, up to the first that was not.
    Send(u32),
    /// Whether the wire has this number of them, and no other.
    AreSent(usize),
    /// Posts, sends and cleans this number of frames of 60 bytes, while no turn is refused memory, and the wire's list
    /// of frames and the block of their bytes allocate at most this many times each: how many were sent, up to the
    /// first that was not.
    SendSeldomGrowing(u32, u32),
}

/// The frame that is begun: its segments so far, their bytes, and the length of the whole.
#[derive(Clone, Copy, Drop)]
struct Begun {
    segments: usize,
    bytes: usize,
    paylen: usize,
}

/// No frame is begun.
const NONE: Begun = Begun {
    segments: 0,
    bytes: 0,
    paylen: 0,
};

/// A ring, its driver's end, the controller, its wire, and the buffers at hand.
#[derive(Drop)]
pub(crate) struct Transmit {
    ring: TxRing,
    driver: TxDriverEnd,
    pub controller: TxController,
    wire: Wire,
    spare: Stash,
    bytes: Bytes,
    begun: Begun,
    ghost drives: { driver.table ≡ ring },
    ghost serves: { controller.table ≡ ring },
    ghost of_frame: { AreOfFrame begun.paylen (unfinished carried (posted driver)) },
    ghost counts: { length (unfinished carried (posted driver)) ≡ begun.segments },
    ghost adds: { length (join carried (unfinished carried (posted driver))) ≡ begun.bytes },
    ghost few: { begun.bytes ≤ MOST_FRAME },
}

impl Transmit {
    /// A ring of `n` places that is not enabled, with nothing on its wire.
    pub(crate) fn new<R: Abort>(rt: &R, alloc: Global, n: u32, completion: Completion) -> Transmit {
        let spare = full_stash(alloc, 32).expect(rt, "buffers");
        let bytes = Bytes::new(rt, alloc);
        let (ring, driver, end) = TxRing::new_with(alloc, n, completion).expect(rt, "a ring");
        Transmit {
            controller: TxController::new(end),
            wire: Wire::new(alloc),
            ring,
            driver,
            spare,
            bytes,
            begun: NONE,
        }
    }

    fn enable(&mut self) -> bool {
        asked!(self, is_new, ask_enable, Control::Enabled, is_on)
    }

    fn disable(&mut self) -> bool {
        asked!(self, is_on, ask_disable, Control::Disabled, is_stopped)
    }

    fn renew(&mut self) -> Option<()> {
        let _count = taken_back!(self);
        renewed!(self);
        self.begun = NONE;
        Some(())
    }

    /// Posts a frame of `len` bytes from place `from` on, in segments of `bsize` bytes and a last one, and publishes
    /// it. Returns whether there was room and a buffer for each. Only the last may ask for a report.
    pub(crate) fn post(&mut self, len: usize, from: usize, bsize: usize, rs: bool) -> bool {
        let mut at = 0usize;
        for _ in 0..MOST_SEGMENTS {
            let size = len.saturating_sub(at).min(bsize);
            let start = from.saturating_add(at);
            at = at.saturating_add(size);
            if !self.post_piece((start, size), at == len, rs, len) {
                return false;
            }
            if at == len {
                break;
            }
        }
        if !self.driver.is_open() || !self.driver.is_whole() {
            return false;
        }
        self.driver.publish(&self.ring);
        true
    }

    // Posts the next piece of a frame of `len` bytes, given by its place and length, if it may follow. Returns whether
    // it did.
    fn post_piece(&mut self, piece: (usize, usize), eop: bool, rs: bool, len: usize) -> bool {
        let piece = self.bytes.frame(piece.0, piece.1);
        let Begun {
            segments,
            bytes,
            paylen,
        } = self.begun;
        if self.driver.room() == 0 || !self.driver.is_open() || segments >= MOST_SEGMENTS {
            return false;
        }
        if segments + 1 >= self.driver.size() as usize || piece.is_empty() || 2_048 < piece.len() {
            return false;
        }
        if len < LEAST_FRAME || MOST_FRAME < len || !is_one_frame(segments, len, paylen) {
            return false;
        }
        let all = bytes + piece.len();
        if all > len || (eop && all != len) {
            return false;
        }
        let Some(mut buf) = self.spare.take() else {
            return false;
        };
        buf.fill(piece);
        self.driver
            .post(&self.ring, buf, eop, rs && eop, len as u16);
        if eop {
            self.begun = NONE;
        } else {
            self.begun = Begun {
                segments: segments + 1,
                bytes: all,
                paylen: len,
            };
        }
        true
    }

    /// Whether the oldest report is made, and one buffer comes back.
    pub(crate) fn is_cleaned(&mut self) -> bool {
        self.driver.poll_report(&self.ring) && self.clean() == 1
    }

    fn clean(&mut self) -> u32 {
        let mut count = 0_u32;
        for _ in 0..32 {
            if self.driver.reported() == 0 || !self.driver.is_live() {
                break;
            }
            let buf = self.driver.clean(&self.ring);
            put_back(&mut self.spare, buf);
            count = count.saturating_add(1);
        }
        count
    }

    /// A turn of the controller.
    pub(crate) fn turn(&mut self) -> Result<Turn, CtlError> {
        self.controller.turn(&self.ring, &mut self.wire)
    }

    fn has_sent(&self, count: usize) -> bool {
        self.wire.len() == count && self.wire.is_empty() == (count == 0)
    }

    fn is_on_wire(&self, k: usize, len: usize, from: usize) -> bool {
        k < self.wire.len() && self.wire.frame(k) == self.bytes.frame(from, len)
    }

    /// The number of frames on the wire.
    pub(crate) fn sent(&self) -> usize {
        self.wire.len()
    }

    /// How many frames and how many bytes the wire has memory for.
    pub(crate) fn capacity(&self) -> (usize, usize) {
        self.wire.capacity()
    }

    /// Whether `count` frames are on the wire, in order, each of the length `len_of` and from the place of its number
    /// on.
    fn are_sent(&self, count: usize) -> bool {
        let mut k = 0_usize;
        for frame in self.wire.iter() {
            if frame != self.bytes.frame(k, len_of(k)) {
                return false;
            }
            k = k.saturating_add(1);
        }
        k == count && self.wire.is_empty() == (count == 0)
    }

    /// Makes the rows' steps.
    pub(crate) fn walk(mut self, rows: &[(Step, Expected)]) -> Walked {
        walked!(self, rows, owes_report)
    }
}

impl Tells for Transmit {
    type Step = Step;

    type Expected = Expected;

    fn make(&mut self, step: Step) -> Expected {
        match step {
            Step::Enable => Expected::whether(self.enable()),
            Step::Disable => Expected::whether(self.disable()),
            Step::Renew => Expected::whether(self.renew().is_some()),
            Step::Post(len, from, bsize, rs) => Expected::whether(self.post(len, from, bsize, rs)),
            Step::Turn => self.turn().map_or_else(Expected::Refused, Expected::Turned),
            Step::HasReport => Expected::whether(self.driver.poll_report(&self.ring)),
            Step::Clean => Expected::Count(self.clean()),
            Step::HasSent(count) => Expected::whether(self.has_sent(count)),
            Step::IsOnWire(k, len, from) => Expected::whether(self.is_on_wire(k, len, from)),
            Step::Send(count) => Expected::Count(send(self, count)),
            Step::AreSent(count) => Expected::whether(self.are_sent(count)),
            Step::SendSeldomGrowing(count, most) => {
                Expected::Count(send_seldom_growing(self, count, most))
            }
        }
    }
}

// Whether a frame with `segments` posted segments has this length, or none is begun.
fn is_one_frame(segments: usize, len: usize, paylen: usize) -> bool
    ensures { result ≡ true → (segments ≡ 0) ⊎ (len ≡ paylen) }
{
    segments == 0 || len == paylen
}
