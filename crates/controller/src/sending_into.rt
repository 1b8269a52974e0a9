//! Sending a frame into a room of bytes.
ghost use Rattle.std.specs.Prelude.{◌≡◌, ◌+◌, ◌<◌, ◌≤◌, true, [], length};
ghost use Rattle.limits.specs.declared.profile.TheConstants.{MOST_FRAME};
ghost use Rattle.ring_model.specs.shared.Handshakes.{is_serving};
ghost use Rattle.tx_ring.specs.Ends.{controller_state, known_ready, seen};
ghost use Rattle.controller.specs.Sending.{CanPut, Put, SentInto, SentPut};
ghost use Rattle.controller.specs.Transmitting.{IsIdle, TurnedInto};

use crate::arena::Arena;
use crate::sending::settle;
use crate::transmitting::TxController;
use crate::wire::Wire;
use buffer_pool::Buf;
use descriptor::TxRead;
use refusals::CtlError;
use tx_ring::{ControllerEnd, Sink, TxControllerEnd, TxRing};

/// The outcome of a turn into a room of bytes.
#[derive(Clone, Copy, Debug, PartialEq, Eq)]
pub enum TurnInto {
    /// The end does not serve the queue. No step was made.
    Off,
    /// The tail was loaded, and nothing was ready.
    Idle,
    /// A frame of this length was sent, and reported if its descriptor asked for that. It is at the beginning of the
    /// room.
    InRoom(usize),
    /// The same, but the frame is longer than the room, and on the wire.
    OnWire,
}

impl TxController {
    /// Sends the next frame, if one is ready, into `room` if it fits there, otherwise onto the wire. Before it fetches
    /// anything, it makes room on the wire for the longest frame. Returns `Memory` if that fails; the call can be repeated,
    /// and sends the same frame.
    pub fn turn_into(
        &mut self,
        ring: &TxRing,
        room: &mut [u8],
        wire: &mut Wire,
    ) -> Result<TurnInto, CtlError>
        requires own { self.old.table ≡ ring.now }
        ensures turned { TurnedInto self.old wire.old room.old result self.new wire.new room.new }
        ensures state { controller_state self.new ≡ controller_state self.old }
        ensures seen { seen self.new ≡ seen self.old }
        ensures own { self.new.table ≡ ring.now }
    {
        if !self.end.is_serving() {
            return Ok(TurnInto::Off);
        }
        if self.end.look(ring) == 0 {
            return Ok(TurnInto::Idle);
        }
        wire.arena.reserve()?;
        match send_frame_into(ring, &mut self.end, room, &mut wire.arena) {
            Some(len) => Ok(TurnInto::InRoom(len)),
            None => Ok(TurnInto::OnWire),
        }
    }
}

/// Sends the next frame, which is ready, and reports it if it asks for a report. Returns its length if it is in `room`,
/// otherwise it is longer than `room`, and on the wire.
pub(crate) fn send_frame_into(
    ring: &TxRing,
    end: &mut TxControllerEnd,
    room: &mut [u8],
    arena: &mut Arena,
) -> Option<usize>
    requires own { end.old.table ≡ ring.now }
    requires idle { IsIdle end.old }
    requires serving { is_serving (controller_state end.old) ≡ true }
    requires ready { 0 < known_ready end.old }
    requires begun { arena.old.begun ≡ [] }
    requires room { MOST_FRAME ≤ arena.old.room }
    requires entries { 0 < arena.old.entries }
    ensures sent { SentInto end.old arena.old room.old result end.new arena.new room.new }
    ensures state { controller_state end.new ≡ controller_state end.old }
    ensures seen { seen end.new ≡ seen end.old }
    ensures idle { IsIdle end.new }
{
    let (mut ends, mut past) = put_segment(ring, end, room, 0, arena);
    while !ends {
        (ends, past) = put_later(ring, end, room, past, arena);
    }
    settle(ring, end);
    // No frame is empty, so nothing was put into the room.
    if past == 0 {
        arena.end_frame();
        return None;
    }
    Some(past)
}

/// Sends the next segment, whose bytes go into the room at `past` if its frame fits there. Returns whether it ends its
/// frame, and where its bytes end.
#[inline(always)]
fn put_segment(
    ring: &TxRing,
    end: &mut TxControllerEnd,
    room: &mut [u8],
    past: usize,
    arena: &mut Arena,
) -> (bool, usize)
    requires own { end.old.table ≡ ring.now }
    requires can { CanPut end.old room.old past arena.old }
    ensures { SentPut end.old room.old past arena.old result.0 end.new room.new result.1 arena.new }
{
    let mut putting = Putting { room, past, arena };
    let ends = end.send(ring, &mut putting);
    (ends, putting.past)
}

/// The same, out of line: most frames are of one segment.
#[inline(never)]
fn put_later(
    ring: &TxRing,
    end: &mut TxControllerEnd,
    room: &mut [u8],
    past: usize,
    arena: &mut Arena,
) -> (bool, usize)
    requires own { end.old.table ≡ ring.now }
    requires can { CanPut end.old room.old past arena.old }
    ensures { SentPut end.old room.old past arena.old result.0 end.new room.new result.1 arena.new }
{
    put_segment(ring, end, room, past, arena)
}

/// What takes the bytes of a frame's segments: the room if the frame fits there, otherwise the wire.
#[derive(Drop)]
struct Putting<'a> {
    room: &'a mut [u8],
    // where the bytes in the room end
    past: usize,
    arena: &'a mut Arena,
}

impl Sink for Putting<'_> {
    ghost use Rattle.controller.specs.Sending.{MayPut};
    ghost use Rattle.controller.specs.Puttings.{HasPut};

    ghost may = { λ p word buf. MayPut word buf.bytes p.room.now p.past p.arena.now };

    ghost took = { λ p word buf p'. HasPut word buf.bytes p p' };

    #[inline]
    fn take(&mut self, word: u64, buf: &Buf) {
        let len = TxRead::frame_len(word) as usize;
        self.past = put(self.room, self.past, self.arena, buf.bytes(), len);
    }
}

/// Adds the bytes of a segment to those of its frame, which has `len` bytes: in `room` from `at` on if the frame fits
/// there, otherwise on the wire. Returns where the bytes in `room` end.
#[inline]
fn put(room: &mut [u8], at: usize, arena: &mut Arena, bytes: &[u8], len: usize) -> usize
    requires in_room { len ≤ length room.old → at + length bytes.now ≤ length room.old }
    requires on_wire { length room.old < len → length bytes.now ≤ arena.old.room }
    ensures { Put len bytes.now room.old at arena.old room.new result arena.new }
{
    if room.len() < len {
        arena.append(bytes);
        return at;
    }
    let past = at + bytes.len();
    room[at..past].copy_from_slice(bytes);
    past
}
