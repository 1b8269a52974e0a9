//! The entries of a capture: records, intact or faulty.

ghost use Rattle.std.specs.Prelude.{◌≡◌, ◌<◌, length, IsSome, IfSome};
ghost use Rattle.capture.specs.Entries.{entry_in, fault_of, refusal_of};

use crate::fields::word;
use crate::header::Order;
use crate::record::CaptureRecord;
use limits::{LEAST_FRAME, MOST_FRAME};
use refusals::CaptureError;

// The length of a record's header.
pub(crate) const RECORD_HEADER: usize = 16;

/// The fault of a record.
#[derive(Clone, Copy, Debug, PartialEq, Eq)]
pub enum Fault {
    /// The capture ends within the record, or a pcapng block is too short for its packet.
    Truncated,
    /// Fewer bytes were captured than the frame had on the wire: the snap length cut it.
    Snapped,
    /// The frame is longer than [`MOST_FRAME`](limits::MOST_FRAME).
    Long,
    /// The frame is shorter than [`LEAST_FRAME`](limits::LEAST_FRAME).
    Short,
}

/// The two lengths in a record's header.
#[derive(Clone, Copy, Debug, PartialEq, Eq)]
pub struct Lengths {
    /// The number of captured bytes.
    pub captured: u32,
    /// The frame's length on the wire, in bytes.
    pub wire: u32,
}

/// A record that is refused or left out.
#[derive(Clone, Copy, Debug, PartialEq, Eq)]
pub struct FaultyRecord {
    /// The fault of the record.
    pub fault: Fault,
    /// The record's lengths, or `None` if the capture ends before them.
    pub lengths: Option<Lengths>,
}

/// A record, or its fault.
#[derive(Drop)]
pub enum Entry<'a> {
    Frame(CaptureRecord<'a>),
    Faulty(FaultyRecord),
    /// Neither it nor anything after it can be read.
    Unread(CaptureError),
}

impl Fault {
    ghost use Rattle.capture.specs.Telling.{limit_of};

    /// The refusal of record `number` with this fault.
    pub fn refusal(self, number: u64) -> CaptureError
        ensures { result ≡ refusal_of self number }
    {
        match self {
            Fault::Truncated => CaptureError::CutShort { number },
            Fault::Snapped => CaptureError::CapturedShort { number },
            Fault::Long | Fault::Short => CaptureError::FrameLength { number },
        }
    }

    /// The limit of the frame length that the record breaks: [`MOST_FRAME`](limits::MOST_FRAME) or
    /// [`LEAST_FRAME`](limits::LEAST_FRAME). A truncated or snapped record breaks none.
    pub fn limit(self) -> Option<usize>
        ensures { result ≡ limit_of self }
    {
        match self {
            Fault::Truncated | Fault::Snapped => None,
            Fault::Long => Some(MOST_FRAME),
            Fault::Short => Some(LEAST_FRAME),
        }
    }
}

// The fault of a record with these lengths, none of whose bytes are missing.
pub fn fault_of(lengths: Lengths) -> Option<Fault>
    ensures { result ≡ fault_of lengths }
{
    let captured = lengths.captured as usize;
    if lengths.captured < lengths.wire {
        Some(Fault::Snapped)
    } else if captured < LEAST_FRAME {
        Some(Fault::Short)
    } else if MOST_FRAME < captured {
        Some(Fault::Long)
    } else {
        None
    }
}

// The first entry in the bytes, and the bytes after it.
#[tactic(auto, unfolding(crate::specs::Entries::entry_in))]
pub fn entry_of(order: Order, bytes: &[u8]) -> (Entry<'_>, &[u8])
    requires { 0 < length bytes.now }
    ensures value { let p = entry_in order bytes.now in (result.0 ≡ p.0) × (result.1.now ≡ p.1) }
    ensures shorter { length result.1.now < length bytes.now }
{
    if bytes.len() < RECORD_HEADER {
        let fault = Fault::Truncated;
        return (
            Entry::Faulty(FaultyRecord {
                fault,
                lengths: None,
            }),
            &[],
        );
    }
    let captured = word(order, bytes, 8);
    let wire = word(order, bytes, 12);
    let (_, rest) = bytes.split_at(RECORD_HEADER);
    let lengths = Lengths { captured, wire };
    if rest.len() < captured as usize {
        let fault = Fault::Truncated;
        let lengths = Some(lengths);
        return (Entry::Faulty(FaultyRecord { fault, lengths }), &[]);
    }
    let (frame, after) = rest.split_at(captured as usize);
    if let Some(fault) = fault_of(lengths) {
        let lengths = Some(lengths);
        return (Entry::Faulty(FaultyRecord { fault, lengths }), after);
    }
    let (seconds, fraction) = (word(order, bytes, 0), word(order, bytes, 4));
    let found = CaptureRecord::with_wire_len(seconds, fraction, wire, frame);
    (Entry::Frame(found), after)
}
