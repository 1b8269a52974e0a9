//! The refusals of the commands.
ghost use Rattle.std.specs.Prelude.{◌≡◌};
ghost use Rattle.requests.specs.Refusals.{refusal_number, refused_line, refused_record};
ghost use Rattle.requests.specs.declared.refusal.Refusal.TheVariants.{Capture, Descriptor, Forward, Machine, Ring, Script, Stock, Memory};

use refusals::{
    CaptureError, DescError, ForwardError, MachineError, PoolError, RingError, ScriptError,
};
use std::alloc::AllocError;
use thiserror::Error;

/// Why a command was refused. It is printed as `refused`, its number and its words. The refusals of the libraries keep
/// their numbers.
#[derive(Clone, Copy, Debug, Error)]
pub enum Refusal {
    /// The bytes do not encode a descriptor of the given form.
    #[error(transparent)]
    Descriptor(DescError),
    /// A ring could not be created.
    #[error(transparent)]
    Ring(RingError),
    /// The stock of buffers could not be created.
    #[error(transparent)]
    Stock(PoolError),
    /// The frame is shorter than an Ethernet header, or longer than `once` can pass.
    #[error("frame length")]
    FrameLength,
    /// A thread could not be started.
    #[error("thread")]
    Thread,
    /// The argument is not an even number of hexadecimal digits.
    #[error("hex")]
    Hex,
    /// A line of the list of moves, counted from 1, is not a move.
    #[error("move")]
    Move { line: u64 },
    /// The ring machine refused.
    #[error(transparent)]
    Machine(MachineError),
    /// The script is faulty, or could not be allocated.
    #[error(transparent)]
    Script(ScriptError),
    /// The forwarder refused.
    #[error(transparent)]
    Forward(ForwardError),
    /// The capture is faulty, or could not be allocated.
    #[error(transparent)]
    Capture(CaptureError),
    /// Standard input could not be read.
    #[error("input")]
    Input,
    /// An allocation of the program itself failed.
    #[error("memory")]
    Memory,
    /// Standard output could not be written. Part of the output may have been written.
    #[error("output")]
    Output,
    /// A file could not be read. `code` is the system's error number, if it gave one.
    #[error("file not read")]
    FileNotRead { code: Option<i32> },
    /// A file could not be written. `code` is the system's error number, if it gave one.
    #[error("file not written")]
    FileNotWritten { code: Option<i32> },
    /// Two files of the command line are the same file.
    #[error("same file")]
    SameFile,
}

impl Refusal {
    /// The number of the refusal, which is printed before its words.
    pub fn number(&self) -> u8
        ensures { result ≡ refusal_number self.now }
    {
        match self {
            Refusal::Descriptor(error) => error.number(),
            Refusal::Ring(error) => error.number(),
            Refusal::Stock(error) => error.number(),
            Refusal::FrameLength => 41,
            Refusal::Thread => 63,
            Refusal::Hex => 81,
            Refusal::Move { .. } => 14,
            Refusal::Machine(error) => error.number(),
            Refusal::Script(error) => error.number(),
            Refusal::Forward(error) => error.number(),
            Refusal::Capture(error) => error.number(),
            Refusal::Input => 82,
            Refusal::Memory => 83,
            Refusal::Output => 84,
            Refusal::FileNotRead { .. } => 85,
            Refusal::FileNotWritten { .. } => 86,
            Refusal::SameFile => 87,
        }
    }

    /// The refused line of the input, counted from 1, if the refusal concerns one.
    pub fn line(&self) -> Option<u64>
        ensures { result ≡ refused_line self.now }
    {
        match self {
            Refusal::Move { line } => Some(*line),
            Refusal::Script(error) => error.line(),
            _ => None,
        }
    }

    /// The refused record of the capture, counted from 1, if the refusal concerns one.
    pub fn record(&self) -> Option<u64>
        ensures { result ≡ refused_record self.now }
    {
        match self {
            Refusal::Capture(error) => error.record(),
            _ => None,
        }
    }

    /// A general sentence about the refusal, for an explanation that knows nothing of the input.
    pub(crate) fn advice(&self) -> &'static str {
        match self {
            Refusal::Descriptor(_) => "the bytes are not a descriptor of this form",
            Refusal::FrameLength | Refusal::Hex => "the argument is not a frame in hex digits",
            Refusal::Thread | Refusal::Forward(ForwardError::Thread) => {
                "the system refused a thread, because of a limit on threads or memory"
            }
            Refusal::Move { .. } => "the line is not a move",
            Refusal::Machine(MachineError::Memory)
            | Refusal::Forward(ForwardError::Memory)
            | Refusal::Script(ScriptError::Memory)
            | Refusal::Capture(CaptureError::Memory)
            | Refusal::Ring(_)
            | Refusal::Stock(_)
            | Refusal::Memory => {
                "the system refused memory; fewer frames, buffers or descriptors need less"
            }
            Refusal::Machine(_) | Refusal::Forward(_) => {
                "a number is outside its range; --help lists the ranges"
            }
            Refusal::Script(_) => "the line is not a frame of a script",
            Refusal::Capture(_) => "the capture cannot be read",
            Refusal::Input => "standard input cannot be read",
            Refusal::Output => {
                "standard output cannot be written, for example because the disk is full; a part may be written"
            }
            Refusal::FileNotRead { .. } => "the file cannot be read",
            Refusal::FileNotWritten { .. } => "the file cannot be written",
            Refusal::SameFile => {
                "another --wire-capture or --capture option names the same file, perhaps through a link"
            }
        }
    }
}

impl From<DescError> for Refusal {
    ghost from_gives = { λ error refusal. refusal ≡ Descriptor error };

    fn from(error: DescError) -> Refusal {
        Refusal::Descriptor(error)
    }
}

impl From<RingError> for Refusal {
    ghost from_gives = { λ error refusal. refusal ≡ Ring error };

    fn from(error: RingError) -> Refusal {
        Refusal::Ring(error)
    }
}

impl From<PoolError> for Refusal {
    ghost from_gives = { λ error refusal. refusal ≡ Stock error };

    fn from(error: PoolError) -> Refusal {
        Refusal::Stock(error)
    }
}

impl From<MachineError> for Refusal {
    ghost from_gives = { λ error refusal. refusal ≡ Machine error };

    fn from(error: MachineError) -> Refusal {
        Refusal::Machine(error)
    }
}

impl From<ScriptError> for Refusal {
    ghost from_gives = { λ error refusal. refusal ≡ Script error };

    fn from(error: ScriptError) -> Refusal {
        Refusal::Script(error)
    }
}

impl From<ForwardError> for Refusal {
    ghost from_gives = { λ error refusal. refusal ≡ Forward error };

    fn from(error: ForwardError) -> Refusal {
        Refusal::Forward(error)
    }
}

impl From<CaptureError> for Refusal {
    ghost from_gives = { λ error refusal. refusal ≡ Capture error };

    fn from(error: CaptureError) -> Refusal {
        Refusal::Capture(error)
    }
}

impl From<AllocError> for Refusal {
    ghost from_gives = { λ _ refusal. refusal ≡ Memory };

    fn from(_: AllocError) -> Refusal {
        Refusal::Memory
    }
}
