//! The members of a note.
ghost use Rattle.std.specs.Fmt.{DisplaysOnOk};
ghost use Rattle.std.specs.Prelude.{Some};
ghost use Rattle.pictures.specs.NoteMembers.{fetched_members, member, note_members, sending_members, taken_members};

use ring_model::{FetchedSegment, Note, TakenSegment};
use std::fmt;

/// A note, printed as members of a JSON object with a comma before each: `,"place":0,"buffer":5`. If nothing was found,
/// the first member is `null`.
#[derive(Clone, Copy, PartialEq, Eq)]
pub struct NoteMembers {
    /// The printed note.
    pub note: Note,
}

impl fmt::Display for NoteMembers {
    ghost output = { λ n. Some (note_members n.note) };

    fn fmt<W: fmt::Write>(&self, f: &mut fmt::Formatter<W>) -> fmt::Result {
        match self.note {
            Note::Place(place) => write_member(f, "place", place),
            Note::Tail(tail) => write_member(f, "tail", tail),
            Note::Free(count) => write_member(f, "free", count),
            Note::Ready(count) => write_member(f, "ready", count),
            Note::Fetched(place, buffer) => write_fetched(f, place, buffer),
            Note::Sending(place, segment) => write_sending(f, place, segment),
            Note::Taken(None) => f.write_str(",\"buffer\":null"),
            Note::Taken(Some(segment)) => write_taken(f, segment),
            Note::Reported(None) => f.write_str(",\"reported\":null"),
            Note::Reported(Some(place)) => write_member(f, "reported", place),
            Note::Head(head) => write_member(f, "head", head),
            Note::Buffer(buffer) => write_member(f, "buffer", buffer),
            Note::Control(value) => write_member(f, "control", u16::from(value)),
            Note::Quiet(value) => write_member(f, "quiet", u16::from(value)),
        }
    }
}

/// Writes a number under its name.
fn write_member<W: fmt::Write>(f: &mut fmt::Formatter<W>, name: &str, number: u16) -> fmt::Result
    ensures { DisplaysOnOk W.write_str_gives f.old result (Some (member name.now number)) f.new }
{
    write!(f, ",\"{name}\":{number}")
}

/// Writes the fetched place and the number of its buffer.
fn write_fetched<W: fmt::Write>(f: &mut fmt::Formatter<W>, place: u16, buffer: u16) -> fmt::Result
    ensures { DisplaysOnOk W.write_str_gives f.old result (Some (fetched_members place buffer)) f.new }
{
    write!(f, ",\"place\":{place},\"buffer\":{buffer}")
}

/// Writes the place fetched for sending and the contents of its descriptor.
fn write_sending<W: fmt::Write>(
    f: &mut fmt::Formatter<W>,
    place: u16,
    segment: FetchedSegment,
) -> fmt::Result
    ensures { DisplaysOnOk W.write_str_gives f.old result (Some (sending_members place segment)) f.new }
{
    write_fetched(f, place, segment.buffer)?;
    let (eop, rs) = (u8::from(segment.eop), u8::from(segment.rs));
    write!(f, ",\"length\":{},\"eop\":{eop},\"rs\":{rs}", segment.len)
}

/// Writes the contents of a taken descriptor.
fn write_taken<W: fmt::Write>(f: &mut fmt::Formatter<W>, segment: TakenSegment) -> fmt::Result
    ensures { DisplaysOnOk W.write_str_gives f.old result (Some (taken_members segment)) f.new }
{
    let TakenSegment { buffer, len, eop } = segment;
    let eop = u8::from(eop);
    write!(f, ",\"buffer\":{buffer},\"length\":{len},\"eop\":{eop}")
}
