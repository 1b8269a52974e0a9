//! Notes: what a step reports about itself. [`Note`] has one variant for each row of the table of notes.

/// The contents of a taken receive descriptor.
#[derive(Clone, Copy, PartialEq, Eq)]
pub struct TakenSegment {
    /// The number of the buffer.
    pub buffer: u16,
    /// The number of bytes in it.
    pub len: u32,
    /// Whether the segment ends its frame (EOP).
    pub eop: bool,
}

/// The contents of a fetched transmit descriptor.
#[derive(Clone, Copy, PartialEq, Eq)]
pub struct FetchedSegment {
    /// The number of the buffer.
    pub buffer: u16,
    /// The number of bytes in it.
    pub len: u16,
    /// Whether the segment ends its frame (EOP).
    pub eop: bool,
    /// Whether the descriptor asks for a report (RS).
    pub rs: bool,
}

/// The note of a step. Places, heads and tails are below the ring's length.
#[derive(Clone, Copy, PartialEq, Eq)]
pub enum Note {
    /// The place that was posted or written back.
    Place(u16),
    /// The stored tail.
    Tail(u16),
    /// How many free descriptors the controller of a receive queue knows of.
    Free(u16),
    /// How many ready descriptors the controller of a transmit queue knows of.
    Ready(u16),
    /// The fetched place, and the number of its buffer.
    Fetched(u16, u16),
    /// The place fetched for sending, and the contents of its descriptor.
    Sending(u16, FetchedSegment),
    /// The taken segment, or `None` if DD was not set.
    Taken(Option<TakenSegment>),
    /// The place whose report was seen, or `None` if the report is not made yet.
    Reported(Option<u16>),
    /// The stored head.
    Head(u16),
    /// The number of the buffer that came out.
    Buffer(u16),
    /// The control value that was stored or loaded.
    Control(u8),
    /// The quiet value that was stored or loaded.
    Quiet(u8),
}
