//! The driver's steps that only a transmit ring has.
ghost use Rattle.std.specs.Prelude.{◌≡◌, ◌+◌, ◌%◌, ◌<◌, true, false, length};
ghost use Rattle.buffer_pool.specs.Buffer.{buffer};
ghost use Rattle.ring_model.specs.shared.Frames.{unfinished};
ghost use Rattle.ring_model.specs.shared.Handshakes.{is_open, is_live, is_stopped};
ghost use Rattle.ring_model.specs.transmit.Frames.{MayFollow};
ghost use Rattle.ring_model.specs.transmit.Agreement.{tx_word};
ghost use Rattle.ring_model.specs.transmit.Ring.{carried, new_posting};
ghost use Rattle.ring_model.specs.transmit.Steps.{by_head};
ghost use Rattle.shared_ring.specs.Ends.{driver_of};
ghost use Rattle.shared_ring.specs.declared.events.DriverEvent.TheVariants.{Posted};
ghost use Rattle.tx_ring.specs.Ends.{driver_size, posted, cleaned, returned, seen_reported, outstanding, driver_state, fill_place, next_place, driver_grown};
ghost use Rattle.tx_ring.specs.Calls.{gone_over};
ghost use Rattle.tx_ring.specs.Form.{tx};
ghost use Rattle.tx_ring.specs.Steps.{OldestAt, Looked, CameClean};

use crate::direction::{TxDriverSeat, TxShared};
use crate::events::TxDriverEvent;
use buffer_pool::Buf;
use descriptor::{TxBack, TxRead};
use ring_model::{place_after, places_between};
use shared_ring::{OwnStep, REPORT, TAIL};

/// B1: puts a buffer into the next slot and stores a descriptor of its contents.
#[inline]
pub(crate) fn post(
    seat: &mut TxDriverSeat,
    ring: &TxShared,
    place: u16,
    buf: Buf,
    eop: bool,
    rs: bool,
    paylen: u16,
)
    requires own { seat.old.table ≡ ring.now }
    requires place { place ≡ fill_place (driver_of tx seat.old) }
    requires open { is_open (driver_state (driver_of tx seat.old)) ≡ true }
    requires room { length (posted (driver_of tx seat.old)) + 1 < returned (driver_of tx seat.old) + driver_size (driver_of tx seat.old) }
    requires real { buf ≡ buffer buf.number buf.bytes }
    requires follows { MayFollow (driver_size (driver_of tx seat.old)) (unfinished carried (posted (driver_of tx seat.old))) (new_posting buf.number buf.bytes eop rs paylen) }
    ensures { driver_of tx seat.new ≡ driver_grown (driver_of tx seat.old) (Posted place (tx_word (length buf.bytes) eop rs paylen) buf) }
{
    let _size = seat.size();
    let word = TxRead::new(buf.number(), buf.len() as u16, eop, rs, paylen).second_word();
    seat.post(ring, place, word, buf);
}

/// B8: stores 0 as the oldest reported descriptor and takes its buffer.
struct CleanStore;

impl OwnStep<TxDriverEvent> for CleanStore {
    ghost use Rattle.tx_ring.specs.Plays.{cleans, IsCleaned};

    ghost event = { cleans };

    ghost tells = { IsCleaned };
}

/// B8: stores 0 as the oldest descriptor that is out, which is reported, and takes its buffer back.
#[inline]
pub(crate) fn clean(seat: &mut TxDriverSeat, ring: &TxShared, place: u16) -> Buf
    requires own { seat.old.table ≡ ring.now }
    requires place { place ≡ next_place (driver_of tx seat.old) }
    requires live { is_live (driver_state (driver_of tx seat.old)) ≡ true }
    requires out { returned (driver_of tx seat.old) < length (posted (driver_of tx seat.old)) }
    requires reported { length (cleaned (driver_of tx seat.old)) < seen_reported (driver_of tx seat.old) }
    ensures { CameClean (driver_of tx seat.old) place result (driver_of tx seat.new) }
{
    seat.clear_own::<CleanStore>(ring, place)
}

/// B7: loads the word for the oldest outstanding report: its descriptor, or the head word of reports.
struct ReportLoad;

impl OwnStep<TxDriverEvent> for ReportLoad {
    ghost use Rattle.tx_ring.specs.Plays.{reports_seen, IsPlace};

    ghost event = { reports_seen };

    ghost tells = { IsPlace };
}

/// B7, reporting by descriptors: whether the descriptor of the oldest outstanding report has DD.
#[inline]
fn load_status(seat: &mut TxDriverSeat, ring: &TxShared, place: u16) -> bool
    requires own { seat.old.table ≡ ring.now }
    requires alone { by_head seat.old.completion ≡ false }
    requires oldest { OldestAt (driver_of tx seat.old) place }
    requires live { is_live (driver_state (driver_of tx seat.old)) ≡ true }
    ensures { Looked (driver_of tx seat.old) (driver_of tx seat.new) result }
{
    let _size = seat.size();
    let word = seat.load_own::<ReportLoad>(ring, place as usize);
    TxBack::is_done(word)
}

/// B7, reporting by a head word: whether the head is past the place of the oldest outstanding report. `seen` is the
/// place up to which the end saw everything reported.
#[inline]
fn load_report(seat: &mut TxDriverSeat, ring: &TxShared, place: u16, seen: u16) -> bool
    requires own { seat.old.table ≡ ring.now }
    requires more { by_head seat.old.completion ≡ true }
    requires oldest { OldestAt (driver_of tx seat.old) place }
    requires seen { seen ≡ seen_reported (driver_of tx seat.old) % driver_size (driver_of tx seat.old) }
    requires live { is_live (driver_state (driver_of tx seat.old)) ≡ true }
    ensures { Looked (driver_of tx seat.old) (driver_of tx seat.new) result }
{
    let size = seat.size();
    let head = seat.load_own::<ReportLoad>(ring, size as usize + REPORT) as u16;
    let wanted = places_between(seen, place_after(place, size), size);
    !(places_between(seen, head, size) < wanted)
}

/// B7: whether the oldest outstanding report, at this place, is made.
#[inline]
pub(crate) fn find_report(seat: &mut TxDriverSeat, ring: &TxShared, place: u16, seen: u16) -> bool
    requires own { seat.old.table ≡ ring.now }
    requires oldest { OldestAt (driver_of tx seat.old) place }
    requires seen { seen ≡ seen_reported (driver_of tx seat.old) % driver_size (driver_of tx seat.old) }
    requires live { is_live (driver_state (driver_of tx seat.old)) ≡ true }
    ensures { Looked (driver_of tx seat.old) (driver_of tx seat.new) result }
{
    if seat.completion().is_by_head() {
        load_report(seat, ring, place, seen)
    } else {
        load_status(seat, ring, place)
    }
}

/// C10: stores 0 as the tail (TDT), as the last step of an epoch of a ring that reports by its descriptors.
struct EndEpochStore;

impl OwnStep<TxDriverEvent> for EndEpochStore {
    ghost use Rattle.tx_ring.specs.Plays.{ends_epoch};

    ghost event = { ends_epoch };
}

/// C12: stores 0 as the head word of reports, as the last step of an epoch.
struct ClearReportStore;

impl OwnStep<TxDriverEvent> for ClearReportStore {
    ghost use Rattle.tx_ring.specs.Plays.{clears_report};

    ghost event = { clears_report };
}

/// C9 and C10, and C12 if there is a head word of reports: ends the epoch. The next epoch begins with the slot of place
/// 0 in front.
pub(crate) fn go_over(seat: &mut TxDriverSeat, ring: &TxShared, fill: u16)
    requires own { seat.old.table ≡ ring.now }
    requires place { fill ≡ fill_place (driver_of tx seat.old) }
    requires stopped { is_stopped (driver_state (driver_of tx seat.old)) ≡ true }
    requires back { returned (driver_of tx seat.old) ≡ length (posted (driver_of tx seat.old)) }
    ensures { driver_of tx seat.new ≡ gone_over seat.old.completion (driver_of tx seat.old) }
{
    let size = seat.size() as usize;
    seat.clear_head(ring);
    if seat.completion().is_by_head() {
        seat.clear_tail(ring);
        seat.end_own::<ClearReportStore>(ring, size + REPORT, fill);
    } else {
        seat.end_own::<EndEpochStore>(ring, size + TAIL, fill);
    }
}
