//! The lines of a queue.
ghost use Rattle.std.specs.Prelude.{◌≡◌, ◌++◌, ◌<◌, OnOk};
ghost use Rattle.std.specs.String.{string_bytes};
ghost use Rattle.pictures.specs.Pictures.{begins_fold, is_near, is_shown, picture, place_before, place_text};

use crate::columns::{Spot, write_line};
use ring_machine::{QueueKind, QueueMachine, Registers};
use ring_model::place_after;
use std::alloc::AllocError;

const HEADING: &str = "place\titem\towner\tword\tbuffer\n";

/// The longest ring whose places are all shown.
const SHORT_RING: u16 = 8;

/// Returns the place before this one.
pub(crate) fn place_before(size: u16, place: u16) -> u16
    requires { place < size }
    ensures value { result ≡ place_before size place }
    ensures below { result < size }
{
    if place == 0 { size - 1 } else { place - 1 }
}

// Whether `at` is the place or one beside it.
fn is_near(size: u16, place: u16, at: u16) -> bool
    requires { place < size }
    ensures { result ≡ is_near size place at }
{
    place == at || place_after(place, size) == at || place_before(size, place) == at
}

// Whether a place has a line.
fn is_shown(machine: &QueueMachine, place: u16) -> bool
    requires { place < machine.now.size }
    ensures { result ≡ is_shown machine.now place }
{
    let size = machine.size();
    let Registers { head, tail, .. } = machine.registers(QueueKind::Receive);
    size <= SHORT_RING
        || is_near(size, place, head)
        || is_near(size, place, tail)
        || is_near(size, place, machine.fill())
        || is_near(size, place, machine.next())
        || is_near(size, place, machine.serve_place())
        || is_near(size, place, machine.known())
}

// Whether a hidden place is the first of its gap.
fn begins_fold(machine: &QueueMachine, place: u16) -> bool
    requires { place < machine.now.size }
    ensures { result ≡ begins_fold machine.now place }
{
    place == 0 || is_shown(machine, place - 1)
}

// Writes a place's line, or `..` at the first place of a gap.
fn write_place(text: &mut String, machine: &QueueMachine, spot: Spot) -> Result<(), AllocError>
    requires { spot.place < machine.now.size }
    ensures { OnOk result (string_bytes text.new ≡ string_bytes text.old
        ++ place_text spot.kind machine.now spot.place) }
{
    if is_shown(machine, spot.place) {
        return write_line(text, machine, spot);
    }
    if begins_fold(machine, spot.place) {
        text.push_str("..\n")?;
    }
    Ok(())
}

/// Appends a picture of a queue to a text: a heading, and then a line for each place. A ring of more than 8 places
/// shows only the places with a mark and their neighbours, and `..` for each gap. Columns are separated by tabs: the
/// place; the item there, counted from the oldest that is out; its owner (`drv`, `ring`, `ctl`); DD, EOP and RS of its
/// descriptor (82599 datasheet, 7.1.6.2 and 7.2.3.2.4), or `any` at a driver's place; the buffer's number; and the
/// marks there, of `head`, `tail`, `fill`, `next`, `use` and `known`.
///
/// An `Err` means that memory was refused; the text may then have some of the lines.
pub fn write_picture(
    text: &mut String,
    kind: QueueKind,
    machine: &QueueMachine,
) -> Result<(), AllocError>
    ensures { OnOk result (string_bytes text.new ≡ string_bytes text.old ++ picture kind machine.now) }
{
    text.push_str(HEADING)?;
    for place in 0..machine.size() {
        write_place(text, machine, Spot { kind, place })?;
    }
    Ok(())
}
