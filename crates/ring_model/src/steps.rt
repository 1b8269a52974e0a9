//! The atomic steps of receive and transmit queues. Each is one load or store of one word, with the slot that goes with
//! it.

/// A step of the handshake over the control word (82599 datasheet, RXDCTL.ENABLE), the same for both kinds of queue.
#[derive(Clone, Copy, PartialEq, Eq)]
pub enum ControlStep {
    /// C1: the driver asks for enabling.
    AskEnable,
    /// C2: the controller loads the control word.
    LookAsked,
    /// C3: the controller answers what was asked.
    Answer,
    /// C4: the driver loads the control word.
    LookAnswered,
    /// C5: the driver asks for disabling.
    AskDisable,
}

/// A step of a receive queue. `P` is a segment's payload: its bytes, or the number of bytes.
#[derive(Clone, Copy, PartialEq, Eq)]
pub enum RxStep<P> {
    /// A1: the driver posts the buffer with this number.
    Post(u16),
    /// A2: the driver stores the tail (RDT).
    Publish,
    /// A3: the controller loads the tail.
    Look,
    /// A4: the controller fetches the next descriptor, with its buffer.
    Fetch,
    /// A5: the controller writes the descriptor back, with DD, and with EOP if the segment ends its frame.
    Store(P, bool),
    /// A6: the driver loads the next descriptor, and takes the segment if DD is set.
    Take,
    /// A7: the controller stores the head (RDH).
    Head,
    /// C1 to C5: a step of the handshake over the control word (RXDCTL).
    Control(ControlStep),
    /// C6: the driver takes a buffer out of a disabled queue.
    Reclaim,
    /// C7: the controller says that it stores no more.
    StoreQuiet,
    /// C8: the driver loads the quiet word.
    LoadQuiet,
    /// C9: the driver clears the head of a queue whose buffers are all reclaimed.
    ClearHead,
    /// C10: the driver clears the tail.
    ClearTail,
    /// C11: the driver clears the quiet word. The queue can then be enabled again.
    ClearQuiet,
}

/// A step of a transmit queue. `P` is the contents of a posted descriptor.
#[derive(Clone, Copy, PartialEq, Eq)]
pub enum TxStep<P> {
    /// B1: the driver posts a segment.
    Post(P),
    /// B2: the driver stores the tail (TDT), only after whole frames.
    Publish,
    /// B3: the controller loads the tail.
    Look,
    /// B4: the controller fetches the next descriptor, with its buffer.
    Fetch,
    /// B5: the controller has sent the segment. It gives the buffer back and stores the head (TDH).
    Send,
    /// B6: the controller reports, if the segment that it sent asked for a report (RS).
    Report,
    /// B7: the driver loads the word of the oldest report that it has not seen.
    LoadReport,
    /// B8: the driver takes the buffer of the oldest reported descriptor.
    Clean,
    /// C1 to C5: a step of the handshake over the control word (TXDCTL).
    Control(ControlStep),
    /// C6: the driver takes a buffer out of a disabled queue.
    Reclaim,
    /// C9: the driver clears the head of a queue whose buffers are all reclaimed.
    ClearHead,
    /// C10: the driver clears the tail. The queue can then be enabled again, unless it reports by a head word.
    ClearTail,
    /// C12: the driver clears the head word of reports. The queue can then be enabled again.
    ClearReport,
}
