//! Moves. A move is one step of one queue, with its arguments in range. It is printed and read as one line.

ghost use Rattle.std.specs.Prelude.{◌≡◌, ◌<◌, ◌↔◌, IsSome, IfSome};
ghost use Rattle.limits.specs.declared.profile.TheConstants.{MOST_PAIRS};

pub(crate) mod arguments;
mod fields;
mod printing;
mod reading;

use arguments::{SegmentDescriptor, SegmentLength};
use limits::MOST_PAIRS;
pub use printing::MoveName;
use ring_model::{RxStep, TxStep};
use std::marker::Model;

/// The number of a queue among those of its kind: 0 to 7.
#[derive(Clone, Copy, PartialEq, Eq)]
pub struct QueueNumber {
    number: u8,
}

impl Model for QueueNumber {
    ghost use Rattle.std.specs.Prelude.{ℕ, ◌<◌};
    ghost use Rattle.limits.specs.declared.profile.TheConstants.{MOST_PAIRS};

    ghost Value = { ℕ };

    ghost view = { λ q. q.number };

    ghost invariant = { λ q. q.number < MOST_PAIRS };

    ghost inverse = { λ n. record { number = n } };
}

impl QueueNumber {
    /// Returns a queue number, or `None` above 7.
    pub fn new(number: u8) -> Option<QueueNumber>
        ensures lawful { IsSome result ↔ (number < MOST_PAIRS) }
        ensures value { IfSome result (λ q. q ≡ number) }
    {
        if usize::from(number) < MOST_PAIRS {
            Some(QueueNumber { number })
        } else {
            None
        }
    }

    /// Returns the number.
    pub fn number(self) -> u8
        ensures { result ≡ self }
    {
        self.number
    }
}

/// One step of one queue. Every value has a line, and no value is out of range.
#[derive(Clone, Copy, PartialEq, Eq)]
pub enum Move {
    /// A step of a receive queue.
    Receive(QueueNumber, RxStep<SegmentLength>),
    /// A step of a transmit queue.
    Transmit(QueueNumber, TxStep<SegmentDescriptor>),
}
