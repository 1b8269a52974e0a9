//! The printed form of notes.

ghost use Rattle.std.specs.Prelude.{Some};
ghost use Rattle.ring_model.specs.NoteTexts.{note_text};

use crate::notes::{FetchedSegment, Note, TakenSegment};
use std::fmt;

impl fmt::Display for Note {
    ghost output = { λ n. Some (note_text n) };

    fn fmt<W: fmt::Write>(&self, f: &mut fmt::Formatter<W>) -> fmt::Result {
        match *self {
            Note::Place(place) => write!(f, "place {place}"),
            Note::Tail(tail) => write!(f, "tail {tail}"),
            Note::Free(count) => write!(f, "free {count}"),
            Note::Ready(count) => write!(f, "ready {count}"),
            Note::Fetched(place, buffer) => write!(f, "place {place} buffer {buffer}"),
            Note::Sending(place, segment) => {
                let FetchedSegment {
                    buffer,
                    len,
                    eop,
                    rs,
                } = segment;
                let (eop, rs) = (u8::from(eop), u8::from(rs));
                write!(
                    f,
                    "place {place} buffer {buffer} length {len} eop {eop} rs {rs}"
                )
            }
            Note::Taken(None) | Note::Reported(None) => write!(f, "none"),
            Note::Taken(Some(segment)) => {
                let TakenSegment { buffer, len, eop } = segment;
                let eop = u8::from(eop);
                write!(f, "buffer {buffer} length {len} eop {eop}")
            }
            Note::Reported(Some(place)) => write!(f, "reported {place}"),
            Note::Head(head) => write!(f, "head {head}"),
            Note::Buffer(buffer) => write!(f, "buffer {buffer}"),
            Note::Control(value) => write!(f, "control {value}"),
            Note::Quiet(value) => write!(f, "quiet {value}"),
        }
    }
}
