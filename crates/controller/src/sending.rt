//! Sending a frame.
ghost use Rattle.std.specs.Prelude.{◌≡◌, ◌<◌, ◌≤◌, true, false, []};
ghost use Rattle.limits.specs.declared.profile.TheConstants.{MOST_FRAME};
ghost use Rattle.ring_model.specs.shared.Handshakes.{is_serving};
ghost use Rattle.tx_ring.specs.Ends.{controller_record, controller_state, is_owed, known_ready, seen};
ghost use Rattle.controller.specs.Sending.{CanSend, SentBytes, SentOn};
ghost use Rattle.controller.specs.Transmitting.{IsIdle, reported};

use crate::arena::Arena;
use buffer_pool::Buf;
use tx_ring::{Sink, TxControllerEnd, TxRing};

/// Sends the next frame, which is ready, onto the wire, and reports it if it asks for a report.
#[inline]
pub(crate) fn send_frame(ring: &TxRing, end: &mut TxControllerEnd, arena: &mut Arena)
    requires own { end.old.table ≡ ring.now }
    requires idle { IsIdle end.old }
    requires serving { is_serving (controller_state end.old) ≡ true }
    requires ready { 0 < known_ready end.old }
    requires begun { arena.old.begun ≡ [] }
    requires room { MOST_FRAME ≤ arena.old.room }
    requires entries { 0 < arena.old.entries }
    ensures sent { SentOn end.old arena.old end.new arena.new }
    ensures state { controller_state end.new ≡ controller_state end.old }
    ensures seen { seen end.new ≡ seen end.old }
    ensures idle { IsIdle end.new }
{
    while !send_segment(ring, end, arena) {}
    arena.end_frame();
    settle(ring, end);
}

/// Sends the next segment, and returns whether it ends its frame.
#[inline]
fn send_segment(ring: &TxRing, end: &mut TxControllerEnd, arena: &mut Arena) -> bool
    requires own { end.old.table ≡ ring.now }
    requires can { CanSend end.old arena.old }
    ensures { SentBytes end.old arena.old result end.new arena.new }
{
    end.send(ring, arena)
}

impl Sink for Arena {
    ghost use Rattle.std.specs.Prelude.{◌≤◌, length};
    ghost use Rattle.controller.specs.Sending.{Appended};

    ghost may = { λ arena word buf. length buf.bytes ≤ arena.room };

    ghost took = { λ arena word buf arena'. Appended buf.bytes arena arena' };

    #[inline]
    fn take(&mut self, _word: u64, buf: &Buf) {
        self.append(buf.bytes());
    }
}

/// Reports what was sent last, if that is owed.
#[inline]
pub(crate) fn settle(ring: &TxRing, end: &mut TxControllerEnd)
    requires own { end.old.table ≡ ring.now }
    ensures step { end.new ≡ reported (is_owed end.old) end.old }
    ensures record { controller_record end.new ≡ record (controller_record end.old) { barred = false } }
{
    if end.owes_report() {
        end.report(ring);
    }
}
