//! The device's side, played with the rings' own ends. It stores frames as soon as there is room, and compares the sent
//! frames with the stored ones.
ghost use Rattle.std.specs.Prelude.{◌≡◌};

use crate::Storer;
use crate::tests::threads::frames::Frames;
use crate::tests::threads::side::{Epochs, Shared, ThreadSide};
use descriptor::TxRead;
use limits::{BUFFER_BYTES, MOST_SEGMENTS};
use rx_ring::{ControllerEnd, RxRing};
use tx_ring::{TxControllerEnd, TxRing};

/// Both controllers' sides, in one thread.
#[derive(Drop)]
pub(crate) struct Played {
    pub storing: Storing,
    pub hearing: Hearing,
    /// The number of epochs to serve.
    pub most: u32,
}

/// The next frame to store, and the first one of this epoch.
#[derive(Default, Drop)]
pub(crate) struct Coming {
    next: u32,
    first: u32,
    epochs: Epochs,
}

/// The receive queue's controller, and the frames that it stores.
#[derive(Drop)]
pub(crate) struct Storing {
    pub storer: Storer,
    pub coming: Coming,
}

impl Storing {
    /// Answers the driver's request, and stores the next frame whole if there are enough descriptors.
    fn turn(&mut self, ring: &RxRing, frames: &Frames) -> bool
        requires { self.old.storer.controller.table ≡ ring.now }
        ensures { self.new.storer.controller.table ≡ ring.now }
    {
        let is_on = self.storer.answer(ring);
        if self.coming.epochs.see(is_on) {
            self.coming.first = self.coming.next;
        }
        let frame = frames.frame(self.coming.next);
        if !is_on || (self.storer.free(ring) as usize) < frame.len().div_ceil(BUFFER_BYTES) {
            return false;
        }
        store(ring, &mut self.storer, frame);
        self.coming.next = self.coming.next.wrapping_add(1);
        true
    }
}

/// Stores a frame.
fn store(ring: &RxRing, storer: &mut Storer, frame: &[u8])
    requires { storer.old.controller.table ≡ ring.now }
    ensures { storer.new.controller.table ≡ ring.now }
{
    let mut rest = frame;
    for _ in 0..MOST_SEGMENTS {
        let (piece, more) = rest.split_at(rest.len().min(BUFFER_BYTES));
        storer.store(ring, piece, more.is_empty());
        rest = more;
        if rest.is_empty() {
            break;
        }
    }
    storer.set_head(ring);
}

/// How many frames were sent in this epoch, and how many bytes of the next one; how many in all, and how many wrong
/// segments.
#[derive(Default, Drop)]
pub(crate) struct Heard {
    sent: u32,
    at: usize,
    pub frames: usize,
    pub bad: usize,
    epochs: Epochs,
}

/// The transmit queue's controller, and its counts.
#[derive(Drop)]
pub(crate) struct Hearing {
    pub end: TxControllerEnd,
    pub heard: Heard,
}

impl Hearing {
    /// Answers the driver's request, and returns whether the queue is on then.
    fn answer(&mut self, ring: &TxRing) -> bool
        requires { self.old.end.table ≡ ring.now }
        ensures { self.new.end.table ≡ ring.now }
    {
        self.end.asked(ring);
        if self.end.can_answer() {
            self.end.answer(ring);
        }
        let is_on = self.end.is_serving();
        if self.heard.epochs.see(is_on) {
            self.heard.sent = 0;
        }
        is_on
    }

    /// Sends the next segment if one is ready, and compares it with this frame.
    fn send(&mut self, ring: &TxRing, frame: &[u8]) -> bool
        requires { self.old.end.table ≡ ring.now }
        ensures { self.new.end.table ≡ ring.now }
    {
        if !self.end.is_serving() || self.end.is_holding() || self.end.owes_report() {
            return false;
        }
        if self.end.look(ring) == 0 {
            return false;
        }
        let (buf, read) = self.end.fetch(ring);
        self.compare(frame, buf.bytes(), read);
        self.end.give_back(ring, buf);
        if self.end.owes_report() {
            self.end.report(ring);
        }
        true
    }

    /// Answers the driver's request, and sends the next segment if one is ready. The frames of an epoch are those from
    /// `first` on.
    fn turn(&mut self, ring: &TxRing, frames: &Frames, first: u32) -> bool
        requires { self.old.end.table ≡ ring.now }
        ensures { self.new.end.table ≡ ring.now }
    {
        if !self.answer(ring) {
            return false;
        }
        let frame = frames.frame(first.wrapping_add(self.heard.sent));
        self.send(ring, frame)
    }

    /// Compares a sent segment with its frame.
    fn compare(&mut self, frame: &[u8], bytes: &[u8], read: TxRead)
        ensures { self.new.end ≡ self.old.end }
    {
        let end = self.heard.at.saturating_add(bytes.len());
        let is_next = frame.get(self.heard.at..end) == Some(bytes);
        let is_told = usize::from(read.paylen) == frame.len() && read.eop == (end == frame.len());
        if !is_next || !is_told {
            self.heard.bad = self.heard.bad.saturating_add(1);
        }
        self.heard.at = end;
        if read.eop {
            self.heard.at = 0;
            self.heard.sent = self.heard.sent.saturating_add(1);
            self.heard.frames = self.heard.frames.saturating_add(1);
        }
    }
}

impl ThreadSide for Played {
    ghost is_of = { λ shared d. (d.storing.storer.controller.table ≡ shared.from) × (d.hearing.end.table ≡ shared.to) };

    fn turn(&mut self, shared: &Shared) -> bool {
        let stored = self.storing.turn(&shared.from, &shared.frames);
        let sent = self
            .hearing
            .turn(&shared.to, &shared.frames, self.storing.coming.first);
        stored || sent
    }

    fn is_over(&self) -> bool {
        self.storing.coming.epochs.ended == self.most
            && self.hearing.heard.epochs.ended == self.most
    }
}
