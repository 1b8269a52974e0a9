//! Storing a frame.
ghost use Rattle.std.specs.Prelude.{◌≡◌, ◌<◌, ◌≤◌, true, false, length};
ghost use Rattle.limits.specs.declared.profile.TheConstants.{BUFFER_BYTES, MOST_FRAME};
ghost use Rattle.ring_model.specs.shared.Frames.{HasFrameLength, piece_count};
ghost use Rattle.ring_model.specs.shared.Handshakes.{is_serving};
ghost use Rattle.rx_ring.specs.Ends.{controller_size, controller_state, known_free, seen, is_quiet};
ghost use Rattle.controller.specs.Receiving.{IsIdle, StoredFrame};
ghost use Rattle.controller.specs.Storing.{Decided};

use crate::offer::Offer;
use rx_ring::{ControllerEnd, RxControllerEnd, RxRing};

/// Decides on a frame of lawful length, and stores it if enough descriptors are free. Returns `scarce` if too few are.
pub(crate) fn decide(
    ring: &RxRing,
    end: &mut RxControllerEnd,
    bsize: usize,
    frame: &[u8],
    scarce: Offer,
) -> Offer
    requires own { end.old.table ≡ ring.now }
    requires idle { IsIdle end.old }
    requires least { 1024 ≤ bsize }
    requires most { bsize ≤ BUFFER_BYTES }
    requires frame { HasFrameLength frame.now }
    ensures decided { Decided scarce end.old bsize frame.now result end.new }
    ensures state { controller_state end.new ≡ controller_state end.old }
    ensures seen { seen end.new ≡ seen end.old }
    ensures quiet { is_quiet end.new ≡ is_quiet end.old }
    ensures idle { IsIdle end.new }
    ensures own { end.new.table ≡ end.old.table }
{
    if !end.is_serving() || end.has_finished() {
        return Offer::Off;
    }
    let needed = descriptors(bsize, frame.len());
    if end.size() <= needed {
        return Offer::Oversize;
    }
    if end.free() < needed && end.look(ring) < needed {
        return scarce;
    }
    store_frame(ring, end, bsize, frame);
    Offer::Stored
}

/// How many descriptors a frame of `len` bytes needs. A frame of one piece, the common case, is not divided.
#[inline]
fn descriptors(bsize: usize, len: usize) -> u32
    requires least { 1024 ≤ bsize }
    requires some_bytes { 0 < len }
    requires few_bytes { len ≤ MOST_FRAME }
    ensures { result ≡ piece_count bsize len }
{
    if len <= bsize {
        return 1;
    }
    ((len + bsize - 1) / bsize) as u32
}

/// Stores a frame in the next descriptors, which are free, and then the head.
fn store_frame(ring: &RxRing, end: &mut RxControllerEnd, bsize: usize, frame: &[u8])
    requires own { end.old.table ≡ ring.now }
    requires idle { IsIdle end.old }
    requires serving { is_serving (controller_state end.old) ≡ true }
    requires quiet { is_quiet end.old ≡ false }
    requires least { 1024 ≤ bsize }
    requires most { bsize ≤ BUFFER_BYTES }
    requires frame { HasFrameLength frame.now }
    requires fits { piece_count bsize (length frame.now) < controller_size end.old }
    requires free { piece_count bsize (length frame.now) ≤ known_free end.old }
    ensures stored { StoredFrame bsize frame.now end.old end.new }
    ensures state { controller_state end.new ≡ controller_state end.old }
    ensures seen { seen end.new ≡ seen end.old }
    ensures quiet { is_quiet end.new ≡ is_quiet end.old }
    ensures idle { IsIdle end.new }
    ensures own { end.new.table ≡ end.old.table }
{
    let mut rest = frame;
    while bsize < rest.len() {
        let (piece, more) = rest.split_at(bsize);
        end.store(ring, piece, false);
        rest = more;
    }
    end.store(ring, rest, true);
    end.set_head(ring);
}
