//! The output for a move, and the count of moves.

ghost use Rattle.std.specs.Prelude.{◌≡◌, ◌++◌, OnOk};
ghost use Rattle.std.specs.String.{string_bytes};
ghost use Rattle.commands.specs.Replay.{count_line, members_of, note_object, object_line, registers_line, told_line, words_line};

use pictures::NoteMembers;
use ring_machine::{Move, QueueKind, Registers};
use ring_model::Note;
use std::alloc::AllocError;

/// Writes the note of a move, if it was made, and the registers of its queue, if shown: as lines of words or an
/// object.
pub(crate) fn write_told(
    page: &mut String,
    json: bool,
    action: &Move,
    told: Option<Note>,
    read: Option<Registers>,
) -> Result<(), AllocError>
    ensures { OnOk result (string_bytes page.new ≡ string_bytes page.old ++ told_line json action.now told read) }
{
    if json {
        write_object(page, action, told, read)
    } else {
        write_words(page, action, told)?;
        write_registers(page, read)
    }
}

/// Writes the note of a move as a line of words.
fn write_words(page: &mut String, action: &Move, told: Option<Note>) -> Result<(), AllocError>
    ensures { OnOk result (string_bytes page.new ≡ string_bytes page.old ++ words_line action.now told) }
{
    let name = action.name();
    match told {
        Some(note) => writeln!(page, "{name} {note}"),
        None => writeln!(page, "{name} not enabled"),
    }
}

/// Writes the registers, if shown, as a line of words.
fn write_registers(page: &mut String, read: Option<Registers>) -> Result<(), AllocError>
    ensures { OnOk result (string_bytes page.new ≡ string_bytes page.old ++ registers_line read) }
{
    match read {
        Some(registers) => writeln!(page, "{registers}"),
        None => Ok(()),
    }
}

/// Writes the registers as members of an object, each after a comma.
fn write_members(page: &mut String, registers: Registers) -> Result<(), AllocError>
    ensures { OnOk result (string_bytes page.new ≡ string_bytes page.old ++ members_of registers) }
{
    let Registers {
        kind,
        head,
        tail,
        enable,
    } = registers;
    let enable = u8::from(enable);
    match kind {
        QueueKind::Receive => write!(
            page,
            ",\"RDH\":{head},\"RDT\":{tail},\"RXDCTL.ENABLE\":{enable}"
        ),
        QueueKind::Transmit => write!(
            page,
            ",\"TDH\":{head},\"TDT\":{tail},\"TXDCTL.ENABLE\":{enable}"
        ),
    }
}

/// Writes the note of a move as the first members of an object.
fn write_note(page: &mut String, action: &Move, told: Option<Note>) -> Result<(), AllocError>
    ensures { OnOk result (string_bytes page.new ≡ string_bytes page.old ++ note_object action.now told) }
{
    let name = action.name();
    match told {
        Some(note) => {
            let members = NoteMembers { note };
            write!(page, "{{\"move\":\"{name}\",\"made\":true{members}")
        }
        None => write!(page, "{{\"move\":\"{name}\",\"made\":false"),
    }
}

/// Writes the note of a move, and the registers, if shown, as an object.
fn write_object(
    page: &mut String,
    action: &Move,
    told: Option<Note>,
    read: Option<Registers>,
) -> Result<(), AllocError>
    ensures { OnOk result (string_bytes page.new ≡ string_bytes page.old ++ object_line action.now told read) }
{
    write_note(page, action, told)?;
    if let Some(registers) = read {
        write_members(page, registers)?;
    }
    page.push_str("}\n")
}

/// Writes how many moves were made and how many were read.
pub(crate) fn write_count(
    page: &mut String,
    json: bool,
    made: usize,
    read: usize,
) -> Result<(), AllocError>
    ensures { OnOk result (string_bytes page.new ≡ string_bytes page.old ++ count_line json made read) }
{
    if json {
        writeln!(page, "{{\"made\":{made},\"read\":{read}}}")
    } else {
        writeln!(page, "moves {made} of {read}")
    }
}
