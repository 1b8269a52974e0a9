//! A place as a JSON object, with the fields of its descriptor by name.
ghost use Rattle.std.specs.Prelude.{◌≡◌, ◌++◌, ◌<◌, IfSome, OnOk, Some};
ghost use Rattle.std.specs.String.{string_bytes};
ghost use Rattle.pictures.specs.States.{descriptor_fields, place_members, place_object, receive_fields, rx_spot, spot_object, transmit_fields, tx_spot};

use crate::columns::{NumberOr, Spot, owner_word};
use crate::picture::place_before;
use ring_machine::{QueueKind, QueueMachine, SegmentDescriptor, SegmentLength};
use ring_model::{Owner, RxStep, TxStep};
use std::alloc::AllocError;

// Writes the fields of a receive write-back (82599 datasheet, 7.1.6.2).
fn write_receive_fields(text: &mut String, word: u64) -> Result<(), AllocError>
    ensures { OnOk result (string_bytes text.new ≡ string_bytes text.old ++ receive_fields word) }
{
    let (done, eop) = (word % 2, word / 2 % 2);
    let length = word / 0x1_0000_0000 % 0x1_0000;
    write!(text, "{{\"DD\":{done},\"EOP\":{eop},\"PKT_LEN\":{length}}}")
}

// Writes the fields of a transmit descriptor (82599 datasheet, 7.2.3.2.4).
fn write_transmit_fields(text: &mut String, word: u64) -> Result<(), AllocError>
    ensures { OnOk result (string_bytes text.new ≡ string_bytes text.old ++ transmit_fields word) }
{
    let done = word / 0x1_0000_0000 % 2;
    let eop = word / 0x100_0000 % 2;
    let rs = word / 0x800_0000 % 2;
    let ifcs = word / 0x200_0000 % 2;
    let dext = word / 0x2000_0000 % 2;
    let dtyp = word / 0x10_0000 % 16;
    let dtalen = word % 0x1_0000;
    let paylen = word / 0x4000_0000_0000;
    write!(
        text,
        "{{\"DD\":{done},\"EOP\":{eop},\"RS\":{rs},\"IFCS\":{ifcs},\"DEXT\":{dext},\"DTYP\":{dtyp},\"DTALEN\":{dtalen},\"PAYLEN\":{paylen}}}"
    )
}

// Writes the fields of a descriptor, or `null` at a driver's place, whose word may be anything.
fn write_fields(
    text: &mut String,
    kind: QueueKind,
    owner: Owner,
    word: u64,
) -> Result<(), AllocError>
    ensures { OnOk result (string_bytes text.new ≡ string_bytes text.old ++ descriptor_fields kind owner word) }
{
    match (owner, kind) {
        (Owner::Driver, _) => text.push_str("null"),
        (_, QueueKind::Receive) => write_receive_fields(text, word),
        (_, QueueKind::Transmit) => write_transmit_fields(text, word),
    }
}

// Writes a place's number, owner and buffer.
fn write_place_members(
    text: &mut String,
    machine: &QueueMachine,
    place: u16,
) -> Result<(), AllocError>
    requires { place < machine.now.size }
    ensures { OnOk result (string_bytes text.new ≡ string_bytes text.old ++ place_members machine.now place) }
{
    let owner = owner_word(machine.owner(place));
    let buffer = NumberOr(machine.slot(place), "null");
    write!(
        text,
        "{{\"place\":{place},\"owner\":\"{owner}\",\"buffer\":{buffer},\"descriptor\":"
    )
}

// Writes a place as an object.
fn write_place(text: &mut String, machine: &QueueMachine, spot: Spot) -> Result<(), AllocError>
    requires { spot.place < machine.now.size }
    ensures { OnOk result (string_bytes text.new ≡ string_bytes text.old ++ place_object spot.kind machine.now spot.place) }
{
    let Spot { kind, place } = spot;
    write_place_members(text, machine, place)?;
    write_fields(text, kind, machine.owner(place), machine.word(place))?;
    text.push('}')
}

/// Writes a place as an object, or `null` for none.
pub(crate) fn write_spot(
    text: &mut String,
    machine: &QueueMachine,
    kind: QueueKind,
    place: Option<u16>,
) -> Result<(), AllocError>
    requires { IfSome place (λ p. p < machine.now.size) }
    ensures { OnOk result (string_bytes text.new ≡ string_bytes text.old ++ spot_object kind machine.now place) }
{
    match place {
        Some(place) => write_place(text, machine, Spot { kind, place }),
        None => text.push_str("null"),
    }
}

/// Returns the place that a step of this kind changed, if the queue made it last.
pub(crate) fn receive_spot(machine: &QueueMachine, step: RxStep<SegmentLength>) -> Option<u16>
    ensures value { result ≡ rx_spot machine.now step }
    ensures below { IfSome result (λ p. p < machine.now.size) }
{
    let size = machine.size();
    match step {
        RxStep::Post(_) => Some(place_before(size, machine.fill())),
        RxStep::Fetch => Some(machine.serve_place()),
        RxStep::Store(_, _) => Some(place_before(size, machine.serve_place())),
        RxStep::Take | RxStep::Reclaim => Some(place_before(size, machine.next())),
        _ => None,
    }
}

/// Returns the place that a step of this kind changed, if the queue made it last.
pub(crate) fn transmit_spot(machine: &QueueMachine, step: TxStep<SegmentDescriptor>) -> Option<u16>
    ensures value { result ≡ tx_spot machine.now step }
    ensures below { IfSome result (λ p. p < machine.now.size) }
{
    let size = machine.size();
    match step {
        TxStep::Post(_) => Some(place_before(size, machine.fill())),
        TxStep::Fetch => Some(machine.serve_place()),
        TxStep::Send | TxStep::Report => Some(place_before(size, machine.serve_place())),
        TxStep::Clean | TxStep::Reclaim => Some(place_before(size, machine.next())),
        _ => None,
    }
}
