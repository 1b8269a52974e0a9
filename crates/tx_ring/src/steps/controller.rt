//! The controller's steps that only a transmit ring has.
ghost use Rattle.std.specs.Prelude.{◌≡◌, ◌+◌, ◌-◌, ◌%◌, ◌<◌, true, false, length, Some, None};
ghost use Rattle.ring_model.specs.shared.Handshakes.{is_serving};
ghost use Rattle.ring_model.specs.transmit.Agreement.{done_word};
ghost use Rattle.ring_model.specs.transmit.Steps.{by_head};
ghost use Rattle.shared_ring.specs.declared.events.ControllerEvent.TheVariants.{Own};
ghost use Rattle.shared_ring.specs.Ends.{controller_of};
ghost use Rattle.shared_ring.specs.Registers.{report_index};
ghost use Rattle.tx_ring.specs.declared.events.TxControllerOwn.TheVariants.{Sent, Reported};
ghost use Rattle.tx_ring.specs.Calls.{CanTake};
ghost use Rattle.tx_ring.specs.Ends.{controller_size, sent, known_ready, held, held_word, controller_state, is_owed, serve_place, controller_grown};
ghost use Rattle.tx_ring.specs.Form.{tx};
ghost use Rattle.tx_ring.specs.Steps.{SentAt};

use crate::direction::{TxControllerSeat, TxShared};
use crate::events::TxControllerEvent;
use buffer_pool::Buf;
use descriptor::TxBack;
use shared_ring::{OwnStep, REPORT, Sink};

/// B5: stores the head (TDH) and gives the sent buffer back.
struct SendStore;

impl OwnStep<TxControllerEvent> for SendStore {
    ghost use Rattle.tx_ring.specs.Plays.{sends};

    ghost event = { sends };
}

/// B5: puts the buffer back into its slot and stores the head.
#[inline]
pub(crate) fn send(seat: &mut TxControllerSeat, ring: &TxShared, place: u16, head: u16, buf: Buf)
    requires own { seat.old.table ≡ ring.now }
    requires place { place ≡ serve_place (controller_of tx seat.old) }
    requires head { head ≡ (length (sent (controller_of tx seat.old)) + 1) % controller_size (controller_of tx seat.old) }
    requires serving { is_serving (controller_state (controller_of tx seat.old)) ≡ true }
    requires held { held (controller_of tx seat.old) ≡ Some buf }
    ensures { controller_of tx seat.new ≡ controller_grown (controller_of tx seat.old) (Own (Sent head (held_word (controller_of tx seat.old)) buf)) }
{
    let index = seat.size() as usize;
    seat.give_own::<SendStore>(ring, place, buf, index, head as u64);
}

/// B4 and B5: loads the next descriptor, hands its buffer to `sink`, and stores the head. The buffer stays in its slot.
/// Returns the descriptor's word.
#[inline]
pub(crate) fn send_next<S: Sink>(
    seat: &mut TxControllerSeat,
    ring: &TxShared,
    place: u16,
    head: u16,
    sink: &mut S,
) -> u64
    requires own { seat.old.table ≡ ring.now }
    requires place { place ≡ serve_place (controller_of tx seat.old) }
    requires head { head ≡ (length (sent (controller_of tx seat.old)) + 1) % controller_size (controller_of tx seat.old) }
    requires serving { is_serving (controller_state (controller_of tx seat.old)) ≡ true }
    requires ready { 0 < known_ready (controller_of tx seat.old) }
    requires held { held (controller_of tx seat.old) ≡ None }
    requires paid { is_owed (controller_of tx seat.old) ≡ false }
    requires takes { CanTake S.may (controller_of tx seat.old) sink.old }
    ensures { SentAt S.took (controller_of tx seat.old) place head sink.old result (controller_of tx seat.new) sink.new }
{
    let index = seat.size() as usize;
    seat.read_own::<SendStore, S>(ring, place, index, head as u64, sink)
}

/// B6: stores a report: DD in the descriptor that asked for it, or the head as the head word of reports.
struct ReportStore;

impl OwnStep<TxControllerEvent> for ReportStore {
    ghost use Rattle.tx_ring.specs.Plays.{reports};

    ghost event = { reports };
}

/// B6: writes DD back into the descriptor at this place.
#[inline]
pub(crate) fn report_status(seat: &mut TxControllerSeat, ring: &TxShared, place: u16)
    requires own { seat.old.table ≡ ring.now }
    requires alone { by_head seat.old.completion ≡ false }
    requires place { place ≡ (length (sent (controller_of tx seat.old)) - 1) % controller_size (controller_of tx seat.old) }
    requires serving { is_serving (controller_state (controller_of tx seat.old)) ≡ true }
    requires owed { is_owed (controller_of tx seat.old) ≡ true }
    ensures { controller_of tx seat.new ≡ controller_grown (controller_of tx seat.old) (Own (Reported place done_word)) }
{
    let _size = seat.size();
    let word = TxBack.second_word();
    seat.store_own::<ReportStore>(ring, place as usize, word);
}

/// B6: writes the head to the head word of reports.
#[inline]
pub(crate) fn report_head(seat: &mut TxControllerSeat, ring: &TxShared, head: u16)
    requires own { seat.old.table ≡ ring.now }
    requires more { by_head seat.old.completion ≡ true }
    requires head { head ≡ serve_place (controller_of tx seat.old) }
    requires serving { is_serving (controller_state (controller_of tx seat.old)) ≡ true }
    requires owed { is_owed (controller_of tx seat.old) ≡ true }
    ensures { controller_of tx seat.new ≡ controller_grown (controller_of tx seat.old) (Own (Reported (report_index (controller_size (controller_of tx seat.old))) head)) }
{
    let index = seat.size() as usize + REPORT;
    seat.store_own::<ReportStore>(ring, index, head as u64);
}
