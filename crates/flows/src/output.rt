//! The frames that a flow sent.
ghost use Rattle.std.specs.Prelude.{◌≡◌, false, [], length, sum_by, List};
ghost use Rattle.ring_model.specs.shared.Frames.{Bytes};
ghost use Rattle.flows.specs.Sent.{HasSent, Holds};

use controller::Wire;
use std::alloc::Global;

/// A wire whose frames are not kept is emptied when it has this many. They should fit into a core's first cache.
const MOST_UNKEPT: usize = 16;

/// The frames that a flow sent: all of them on a wire, or, if they are not kept, the latest ones.
#[derive(Drop)]
pub(crate) struct Output {
    pub wire: Wire,
    keep: bool,
    /// The number of frames that were removed from the wire.
    frames: u64,
    /// The bytes of the removed frames.
    bytes: u64,
}

/// The frames that a flow sent, if they were kept, and their numbers.
#[derive(Drop)]
pub(crate) struct SentFrames {
    /// The kept frames.
    pub wire: Wire,
    /// The number of all frames.
    pub frames: u64,
    /// The bytes of all frames.
    pub bytes: u64,
}

impl Output {
    /// Nothing was sent yet.
    pub(crate) fn new(alloc: Global, keep: bool) -> Output
        ensures empty { Holds result [] }
        ensures keep { result.keep ≡ keep }
    {
        Output {
            wire: Wire::new(alloc),
            keep,
            frames: 0,
            bytes: 0,
        }
    }

    /// Empties the wire if its frames are not kept and there are many.
    #[inline]
    pub(crate) fn empty_full(&mut self)
        ensures holds { (all : List Bytes) → Holds self.old all → Holds self.new all }
        ensures keep { self.new.keep ≡ self.old.keep }
    {
        if !self.keep && self.wire.len() >= MOST_UNKEPT {
            self.empty();
        }
    }

    /// Counts the frames on the wire and removes them.
    fn empty(&mut self)
        requires { self.old.keep ≡ false }
        ensures holds { (all : List Bytes) → Holds self.old all → Holds self.new all }
        ensures keep { self.new.keep ≡ false }
    {
        self.frames = self.frames.saturating_add(self.wire.len() as u64);
        self.bytes = self.bytes.saturating_add(bytes_of(&self.wire) as u64);
        self.wire.clear();
    }

    /// Returns the frames that are kept, and the numbers of all.
    pub(crate) fn into_sent(self) -> SentFrames
        ensures { (all : List Bytes) → Holds self all → HasSent self.keep all result.wire result.frames result.bytes }
    {
        let Output {
            mut wire,
            keep,
            frames,
            bytes,
        } = self;
        let frames = frames.saturating_add(wire.len() as u64);
        let bytes = bytes.saturating_add(bytes_of(&wire) as u64);
        if !keep {
            wire.clear();
        }
        SentFrames {
            wire,
            frames,
            bytes,
        }
    }
}

/// The number of bytes on a wire. They are all in memory, so the sum cannot overflow.
fn bytes_of(wire: &Wire) -> usize
    ensures { result ≡ sum_by length wire.now }
{
    let (_, _most) = wire.capacity();
    let mut bytes = 0usize;
    for frame in wire.iter() {
        bytes += frame.len();
    }
    bytes
}
