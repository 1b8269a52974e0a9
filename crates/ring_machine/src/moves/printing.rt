//! Printing moves.
//!
//! A move's line is its queue, its kind and its arguments, separated by single spaces. A queue is `r` or `t` and a
//! digit from 0 to 7. A kind is the name of the step in [`RxStep`] and [`TxStep`], such as `A5`. Numbers are decimal,
//! and EOP and RS are 0 or 1: `r0 A5 60 1` writes back 60 bytes that end their frame.

ghost use Rattle.std.specs.Prelude.{◌≡◌, Some};
ghost use Rattle.ring_machine.specs.text.Moves.{IsInRange, control_kind, kind_of, name_of, text_of};

use crate::moves::Move;
use ring_model::{ControlStep, RxStep, TxStep};
use std::fmt;

/// The first two fields of a move's line, its queue and its kind, such as `r0 A1`.
#[derive(Clone, Copy, PartialEq, Eq)]
pub struct MoveName {
    /// The named move.
    pub named: Move,
}

impl Move {
    /// Returns the first two fields of the move's line. Each move is in range, so `parse` reads its line.
    pub fn name(self) -> MoveName
        ensures value { result.named ≡ self }
        ensures in_range { IsInRange self }
    {
        MoveName { named: self }
    }
}

impl fmt::Display for MoveName {
    ghost output = { λ n. Some (name_of n.named) };

    fn fmt<W: fmt::Write>(&self, f: &mut fmt::Formatter<W>) -> fmt::Result {
        let kind = kind_of(self.named);
        match self.named {
            Move::Receive(queue, _) => write!(f, "r{} {kind}", queue.number()),
            Move::Transmit(queue, _) => write!(f, "t{} {kind}", queue.number()),
        }
    }
}

impl fmt::Display for Move {
    ghost output = { λ m. Some (text_of m) };

    fn fmt<W: fmt::Write>(&self, f: &mut fmt::Formatter<W>) -> fmt::Result {
        let name = self.name();
        match *self {
            Move::Receive(_, RxStep::Post(buffer)) => write!(f, "{name} {buffer}"),
            Move::Receive(_, RxStep::Store(len, eop)) => {
                let (len, eop) = (len.bytes(), u8::from(eop));
                write!(f, "{name} {len} {eop}")
            }
            Move::Transmit(_, TxStep::Post(d)) => {
                let (number, len, paylen) = (d.number(), d.len(), d.paylen());
                let (eop, rs) = (u8::from(d.eop()), u8::from(d.rs()));
                write!(f, "{name} {number} {len} {eop} {rs} {paylen}")
            }
            Move::Receive(..) | Move::Transmit(..) => write!(f, "{name}"),
        }
    }
}

/// The names of the kinds of the handshake, in the order of [`ControlStep`].
const CONTROL_KINDS: [&str; 5] = ["C1", "C2", "C3", "C4", "C5"];

fn control_kind(step: ControlStep) -> &'static str
    ensures { result.now ≡ control_kind step }
{
    CONTROL_KINDS[step as usize]
}

fn kind_of(action: Move) -> &'static str
    ensures { result.now ≡ kind_of action }
{
    match action {
        Move::Receive(_, RxStep::Control(step)) | Move::Transmit(_, TxStep::Control(step)) => {
            control_kind(step)
        }
        Move::Receive(_, RxStep::Post(_)) => "A1",
        Move::Receive(_, RxStep::Publish) => "A2",
        Move::Receive(_, RxStep::Look) => "A3",
        Move::Receive(_, RxStep::Fetch) => "A4",
        Move::Receive(_, RxStep::Store(..)) => "A5",
        Move::Receive(_, RxStep::Take) => "A6",
        Move::Receive(_, RxStep::Head) => "A7",
        Move::Transmit(_, TxStep::Post(_)) => "B1",
        Move::Transmit(_, TxStep::Publish) => "B2",
        Move::Transmit(_, TxStep::Look) => "B3",
        Move::Transmit(_, TxStep::Fetch) => "B4",
        Move::Transmit(_, TxStep::Send) => "B5",
        Move::Transmit(_, TxStep::Report) => "B6",
        Move::Transmit(_, TxStep::LoadReport) => "B7",
        Move::Transmit(_, TxStep::Clean) => "B8",
        Move::Receive(_, RxStep::Reclaim) | Move::Transmit(_, TxStep::Reclaim) => "C6",
        Move::Receive(_, RxStep::StoreQuiet) => "C7",
        Move::Receive(_, RxStep::LoadQuiet) => "C8",
        Move::Receive(_, RxStep::ClearHead) | Move::Transmit(_, TxStep::ClearHead) => "C9",
        Move::Receive(_, RxStep::ClearTail) | Move::Transmit(_, TxStep::ClearTail) => "C10",
        Move::Receive(_, RxStep::ClearQuiet) => "C11",
        Move::Transmit(_, TxStep::ClearReport) => "C12",
    }
}
