//! The controller's steps that only a receive ring has.
ghost use Rattle.std.specs.Prelude.{◌≡◌, ◌+◌, ◌<◌, true, false, length, None, Some};
ghost use Rattle.buffer_pool.specs.Buffer.{buffer};
ghost use Rattle.ring_model.specs.receive.Agreement.{rx_word};
ghost use Rattle.ring_model.specs.shared.Segments.{piece_of};
ghost use Rattle.ring_model.specs.shared.Frames.{Follows, unfinished};
ghost use Rattle.ring_model.specs.shared.Handshakes.{is_serving};
ghost use Rattle.shared_ring.specs.declared.events.DriverEvent.TheVariants as driver;
ghost use Rattle.shared_ring.specs.declared.events.ControllerEvent.TheVariants as controller;
ghost use Rattle.shared_ring.specs.Ends.{controller_of};
ghost use Rattle.rx_ring.specs.declared.events.RxControllerOwn.TheVariants.{WroteBack, SaidQuiet};
ghost use Rattle.rx_ring.specs.Ends.{controller_size, stored, known_free, held, held_number, controller_state, is_at_frame_end, is_quiet, serve_place, controller_grown};
ghost use Rattle.rx_ring.specs.Form.{rx};
ghost use Rattle.rx_ring.specs.Steps.{StoredAt};

use crate::direction::{RxControllerSeat, RxShared};
use crate::events::RxControllerEvent;
use buffer_pool::Buf;
use descriptor::RxBack;
use shared_ring::{OwnStep, QUIET};

/// A5: stores a descriptor's write-back (DD, EOP, length) and gives its buffer back.
struct WriteBackStore;

impl OwnStep<RxControllerEvent> for WriteBackStore {
    ghost use Rattle.rx_ring.specs.Plays.{writes_back};

    ghost event = { writes_back };
}

/// A5: puts the buffer back into its slot and stores the write-back of its bytes as its descriptor.
#[inline]
pub(crate) fn write_back(
    seat: &mut RxControllerSeat,
    ring: &RxShared,
    place: u16,
    buf: Buf,
    eop: bool,
)
    requires own { seat.old.table ≡ ring.now }
    requires place { place ≡ serve_place (controller_of rx seat.old) }
    requires serving { is_serving (controller_state (controller_of rx seat.old)) ≡ true }
    requires held { held_number (controller_of rx seat.old) ≡ Some buf.number }
    requires real { buf ≡ buffer buf.number buf.bytes }
    requires follows { Follows piece_of (controller_size (controller_of rx seat.old)) (unfinished piece_of (stored (controller_of rx seat.old))) buf.bytes eop }
    ensures { controller_of rx seat.new ≡ controller_grown (controller_of rx seat.old) (controller.Own (WroteBack place (rx_word (length buf.bytes) eop) buf)) }
{
    let _size = seat.size(); // which says that the length is lawful
    let word = RxBack::new(buf.len() as u16, eop).second_word();
    seat.give_own::<WriteBackStore>(ring, place, buf, place as usize, word);
}

/// A4 and A5: loads the next descriptor, fills its buffer, and stores the write-back of these bytes. The buffer stays in
/// its slot.
#[inline]
pub(crate) fn store(
    seat: &mut RxControllerSeat,
    ring: &RxShared,
    place: u16,
    bytes: &[u8],
    eop: bool,
)
    requires own { seat.old.table ≡ ring.now }
    requires place { place ≡ serve_place (controller_of rx seat.old) }
    requires serving { is_serving (controller_state (controller_of rx seat.old)) ≡ true }
    requires free { 0 < known_free (controller_of rx seat.old) }
    requires held { held (controller_of rx seat.old) ≡ None }
    requires quiet { is_quiet (controller_of rx seat.old) ≡ false }
    requires follows { Follows piece_of (controller_size (controller_of rx seat.old)) (unfinished piece_of (stored (controller_of rx seat.old))) bytes.now eop }
    ensures { StoredAt (controller_of rx seat.old) place bytes.now eop (controller_of rx seat.new) }
{
    let _size = seat.size(); // which says that the length is lawful
    let word = RxBack::new(bytes.len() as u16, eop).second_word();
    seat.fill_own::<WriteBackStore>(ring, place, bytes, place as usize, word);
}

/// A7: stores the head (RDH).
pub(crate) struct HeadStore;

impl OwnStep<RxControllerEvent> for HeadStore {
    ghost use Rattle.rx_ring.specs.Plays.{stores_head};

    ghost event = { stores_head };
}

/// C7: stores 1 as the quiet word.
struct QuietStore;

impl OwnStep<RxControllerEvent> for QuietStore {
    ghost use Rattle.rx_ring.specs.Plays.{says_quiet};

    ghost event = { says_quiet };
}

/// C7: stores 1 as the quiet word, after which the end fetches nothing in this epoch.
#[inline]
pub(crate) fn say_quiet(seat: &mut RxControllerSeat, ring: &RxShared)
    requires own { seat.old.table ≡ ring.now }
    requires serving { is_serving (controller_state (controller_of rx seat.old)) ≡ true }
    requires held { held_number (controller_of rx seat.old) ≡ None }
    requires at_frame_end { is_at_frame_end (controller_of rx seat.old) ≡ true }
    ensures { controller_of rx seat.new ≡ controller_grown (controller_of rx seat.old) (controller.Own SaidQuiet) }
{
    let index = seat.size() as usize + QUIET;
    seat.store_own::<QuietStore>(ring, index, 1);
}
