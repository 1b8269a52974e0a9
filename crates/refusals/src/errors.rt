//! The refusals of each library, in the order of their numbers.
ghost use Rattle.std.specs.Prelude.{◌≡◌, Some};

use std::alloc::AllocError;
use std::fmt;
use thiserror::Error;

/// Why bytes are not a descriptor of a form.
#[derive(Clone, Copy, Debug, PartialEq, Eq, Error)]
pub enum DescError {
    /// The length is not 16 bytes.
    #[error("length")]
    Length = 1,
    /// A bit that the profile fixes has another value, except for the bits of `Kind`.
    #[error("reserved")]
    Reserved = 2,
    /// DTYP is not 3 or DEXT is not 1: no advanced data descriptor.
    #[error("type")]
    Kind = 3,
    /// A data length or PAYLEN is out of range.
    #[error("size")]
    Size = 4,
}

impl DescError {
    ghost use Rattle.refusals.specs.DescError.{refusal_number};

    /// The refusal's number, from 1 to 4, which programs print before its text. If several refusals apply, the one with
    /// the lowest number is returned.
    pub fn number(&self) -> u8
        ensures { result ≡ refusal_number self.now }
    {
        *self as u8
    }
}

/// Why a machine is not made, a move is not read, or a step is not made.
#[derive(Clone, Copy, Debug, PartialEq, Eq, Error)]
pub enum MachineError {
    /// The step cannot happen now, or there is no such queue. The machine is unchanged.
    NotEnabled = 11,
    /// The length is not a power of two from 8 to 4,096, or the number of pairs is not 1 to 8.
    RingLength = 12,
    /// Memory was refused.
    Memory = 13,
    /// The text is not a move.
    Text = 14,
}

impl MachineError {
    ghost use Rattle.refusals.specs.MachineError.{refusal_number};

    /// The refusal's number, from 11 to 14.
    pub fn number(&self) -> u8
        ensures { result ≡ refusal_number self.now }
    {
        *self as u8
    }
}

impl fmt::Display for MachineError {
    ghost use Rattle.refusals.specs.MachineError.{words_of_error};

    ghost output = { λ e. Some (words_of_error e) };

    fn fmt<W: fmt::Write>(&self, f: &mut fmt::Formatter<W>) -> fmt::Result {
        let words = match self {
            MachineError::NotEnabled => "not enabled",
            MachineError::RingLength => "ring length",
            MachineError::Memory => "memory",
            MachineError::Text => "move",
        };
        f.write_str(words)
    }
}

/// Why a call on a ring was refused.
#[derive(Clone, Copy, Debug, PartialEq, Eq, Error)]
pub enum RingError {
    /// The ring's length is not a power of two from 8 to 4,096.
    #[error("ring length")]
    RingLength = 21,
    /// Memory was refused.
    #[error("memory")]
    Memory = 22,
}

impl RingError {
    ghost use Rattle.refusals.specs.RingError.{refusal_number};

    /// The refusal's number: 21 or 22.
    pub fn number(&self) -> u8
        ensures { result ≡ refusal_number self.now }
    {
        *self as u8
    }
}

/// Why a call on a pool or a stash was refused.
#[derive(Clone, Copy, Debug, PartialEq, Eq, Error)]
pub enum PoolError {
    /// Memory was refused.
    #[error("memory")]
    Memory = 31,
    /// The pool was empty at some moment of the call.
    #[error("empty")]
    Empty = 32,
    /// The stash has no room for another buffer.
    #[error("stash full")]
    StashFull = 33,
    /// The number of buffers is out of range, or one of their numbers would be.
    #[error("count")]
    Count = 34,
}

impl PoolError {
    ghost use Rattle.refusals.specs.PoolError.{refusal_number};

    /// The refusal's number, from 31 to 34, which programs print before its text.
    pub fn number(&self) -> u8
        ensures { result ≡ refusal_number self.now }
    {
        *self as u8
    }
}

impl From<AllocError> for PoolError {
    ghost use Rattle.refusals.specs.declared.errors.PoolError.TheVariants.{Memory};

    ghost from_gives = { λ _ e. e ≡ Memory };

    fn from(_: AllocError) -> Self {
        PoolError::Memory
    }
}

/// Why a call on a controller was refused.
#[derive(Clone, Copy, Debug, PartialEq, Eq, Error)]
pub enum CtlError {
    /// The frame's length is outside [`LEAST_FRAME`](limits::LEAST_FRAME) to [`MOST_FRAME`](limits::MOST_FRAME).
    #[error("frame length")]
    FrameLength = 41,
    /// The wire could not grow. Nothing was fetched, and the call can be made again.
    #[error("memory")]
    Memory = 42,
}

impl CtlError {
    ghost use Rattle.refusals.specs.CtlError.{refusal_number};

    /// The refusal's number, 41 or 42, which programs print before its text.
    pub fn number(&self) -> u8
        ensures { result ≡ refusal_number self.now }
    {
        *self as u8
    }
}

impl From<AllocError> for CtlError {
    ghost use Rattle.refusals.specs.declared.errors.CtlError.TheVariants.{Memory};

    ghost from_gives = { λ _ e. e ≡ Memory };

    fn from(_: AllocError) -> Self {
        CtlError::Memory
    }
}

/// Why a call on a driver was refused.
#[derive(Clone, Copy, Debug, PartialEq, Eq, Error)]
pub enum DriverError {
    /// The queue was not seen enabled, or was seen disabled; or the disabling was asked for before.
    #[error("queue off")]
    QueueOff = 51,
    /// The stash has no room for another buffer.
    #[error("stash full")]
    StashFull = 52,
    /// The first packet needs more descriptors than the ring can have posted.
    #[error("too long")]
    TooLong = 53,
    /// The queue was not seen disabled, or not all of its buffers came back.
    #[error("not reclaimed")]
    NotReclaimed = 54,
}

impl DriverError {
    ghost use Rattle.refusals.specs.DriverError.{refusal_number};

    /// The refusal's number, from 51 to 54, which programs print before its text.
    pub fn number(&self) -> u8
        ensures { result ≡ refusal_number self.now }
    {
        *self as u8
    }
}

/// Why a cell was not made.
#[derive(Clone, Copy, Debug, PartialEq, Eq, Error)]
pub enum CounterError {
    /// Memory was refused.
    #[error("memory")]
    Memory,
}

impl CounterError {
    ghost use Rattle.refusals.specs.CounterError.{refusal_number};

    /// The refusal's number, 61, which programs print before its text.
    pub fn number(&self) -> u8
        ensures { result ≡ refusal_number self.now }
    {
        match self {
            CounterError::Memory => 61,
        }
    }
}

impl From<AllocError> for CounterError {
    ghost use Rattle.refusals.specs.declared.errors.CounterError.TheVariants.{Memory};

    ghost from_gives = { λ _ e. e ≡ Memory };

    fn from(_: AllocError) -> Self {
        CounterError::Memory
    }
}

/// Why forwarding was refused.
#[derive(Clone, Copy, Debug, PartialEq, Eq, Error)]
pub enum ForwardError {
    /// Memory was refused.
    #[error("memory")]
    Memory = 61,
    /// A gate returned `false`.
    #[error("gate")]
    Gate = 62,
    /// A thread could not be started.
    #[error("thread")]
    Thread = 63,
    /// A limit of the configuration is broken, or the script names a queue that does not exist.
    #[error("config")]
    Config = 64,
}

impl ForwardError {
    ghost use Rattle.refusals.specs.ForwardError.{refusal_number};

    /// The refusal's number, from 61 to 64, which programs print before its text.
    pub fn number(&self) -> u8
        ensures { result ≡ refusal_number self.now }
    {
        *self as u8
    }
}

impl From<AllocError> for ForwardError {
    ghost use Rattle.refusals.specs.declared.errors.ForwardError.TheVariants.{Memory};

    ghost from_gives = { λ _ e. e ≡ Memory };

    fn from(_: AllocError) -> Self {
        ForwardError::Memory
    }
}

/// The first fault of a script, with its line, counted from 1; or the lack of memory.
#[derive(Clone, Copy, Debug, PartialEq, Eq, Error)]
pub enum ScriptError {
    /// Neither three fields nor five with `fill` as the third, or an empty field.
    #[error("fields")]
    Fields { line: u64 },
    /// The port is not `0` or `1`.
    #[error("port")]
    Port { line: u64 },
    /// The queue is not one digit from `0` to `7`.
    #[error("queue")]
    Queue { line: u64 },
    /// The frame's bytes are not pairs of hex digits; or the length after `fill` is not a decimal number of 1 to 5 digits
    /// without a leading zero, or its byte is not two hex digits.
    #[error("bytes")]
    Bytes { line: u64 },
    /// The frame's length is outside [`LEAST_FRAME`](limits::LEAST_FRAME) to [`MOST_FRAME`](limits::MOST_FRAME).
    #[error("frame length")]
    FrameLength { line: u64 },
    /// The line has a frame after [`MOST_SCRIPT_FRAMES`](limits::MOST_SCRIPT_FRAMES) others.
    #[error("too many")]
    TooMany { line: u64 },
    /// Memory was refused.
    #[error("memory")]
    Memory,
}

impl ScriptError {
    ghost use Rattle.refusals.specs.ScriptError.{line_of, refusal_number};

    /// The refusal's number, from 71 to 77.
    pub fn number(&self) -> u8
        ensures { result ≡ refusal_number self.now }
    {
        match self {
            ScriptError::Fields { .. } => 71,
            ScriptError::Port { .. } => 72,
            ScriptError::Queue { .. } => 73,
            ScriptError::Bytes { .. } => 74,
            ScriptError::FrameLength { .. } => 75,
            ScriptError::TooMany { .. } => 76,
            ScriptError::Memory => 77,
        }
    }

    /// The refused line, counted from 1. A lack of memory has none.
    pub fn line(&self) -> Option<u64>
        ensures { result ≡ line_of self.now }
    {
        match *self {
            ScriptError::Fields { line }
            | ScriptError::Port { line }
            | ScriptError::Queue { line }
            | ScriptError::Bytes { line }
            | ScriptError::FrameLength { line }
            | ScriptError::TooMany { line } => Some(line),
            ScriptError::Memory => None,
        }
    }
}

/// The first fault of a capture, with the number of its record, counted from 1; or the lack of memory.
#[derive(Clone, Copy, Debug, PartialEq, Eq, Error)]
pub enum CaptureError {
    /// The file does not begin with a header of classic pcap, version 2.4, or of pcapng, version 1; or a pcapng block
    /// is damaged.
    #[error("not a capture in pcap or pcapng")]
    NotCapture,
    /// The link type is not 1 (Ethernet, with no statement about checksums).
    #[error("link type")]
    LinkType,
    /// The capture ends within this record, or a pcapng block is too short for its packet.
    #[error("cut short")]
    CutShort { number: u64 },
    /// Fewer bytes of the frame were captured than it had on the wire.
    #[error("captured short")]
    CapturedShort { number: u64 },
    /// The frame's length is outside [`LEAST_FRAME`](limits::LEAST_FRAME) to [`MOST_FRAME`](limits::MOST_FRAME).
    #[error("frame length")]
    FrameLength { number: u64 },
    /// A record after [`MOST_SCRIPT_FRAMES`](limits::MOST_SCRIPT_FRAMES) others.
    #[error("too many")]
    TooMany { number: u64 },
    /// Memory was refused.
    #[error("memory")]
    Memory,
}

impl CaptureError {
    ghost use Rattle.refusals.specs.CaptureError.{record_of, refusal_number};

    /// The refusal's number, from 91 to 97.
    pub fn number(&self) -> u8
        ensures { result ≡ refusal_number self.now }
    {
        match self {
            CaptureError::NotCapture => 91,
            CaptureError::LinkType => 92,
            CaptureError::CutShort { .. } => 93,
            CaptureError::CapturedShort { .. } => 94,
            CaptureError::FrameLength { .. } => 95,
            CaptureError::TooMany { .. } => 96,
            CaptureError::Memory => 97,
        }
    }

    /// The refused record, counted from 1. A fault of the header and a lack of memory have none.
    pub fn record(&self) -> Option<u64>
        ensures { result ≡ record_of self.now }
    {
        match *self {
            CaptureError::CutShort { number }
            | CaptureError::CapturedShort { number }
            | CaptureError::FrameLength { number }
            | CaptureError::TooMany { number } => Some(number),
            CaptureError::NotCapture | CaptureError::LinkType | CaptureError::Memory => None,
        }
    }
}
