//! A queue's shared words, and what driver and controller know, as members of a JSON object.
ghost use Rattle.std.specs.Prelude.{◌≡◌, ◌++◌, OnOk};
ghost use Rattle.std.specs.String.{string_bytes};
ghost use Rattle.pictures.specs.States.{controller_members, driver_members, due_member, head_member, head_word, reported_members, rx_state, tx_state, words_members};

use crate::columns::NumberOr;
use ring_machine::{
    QueueKind, QueueMachine, Registers, RxMachine, TxMachine, controller_word, driver_word,
};
use ring_model::Handshake;
use std::alloc::AllocError;

// Writes the words that both directions share.
fn write_words(text: &mut String, machine: &QueueMachine) -> Result<(), AllocError>
    ensures { OnOk result (string_bytes text.new ≡ string_bytes text.old ++ words_members machine.now) }
{
    let Registers { head, tail, .. } = machine.registers(QueueKind::Receive);
    let Handshake { control, .. } = machine.handshake();
    write!(
        text,
        "\"words\":{{\"head\":{head},\"tail\":{tail},\"control\":{control}"
    )
}

// Closes the object before, and writes what the driver knows in both directions.
fn write_driver(text: &mut String, machine: &QueueMachine) -> Result<(), AllocError>
    ensures { OnOk result (string_bytes text.new ≡ string_bytes text.old ++ driver_members machine.now) }
{
    let Handshake { driver, .. } = machine.handshake();
    let state = driver_word(driver);
    let (fill, next) = (machine.fill(), machine.next());
    write!(
        text,
        "}},\"driver\":{{\"state\":\"{state}\",\"fill\":{fill},\"next\":{next}"
    )
}

// Closes the object before, and writes what the controller knows in both directions.
fn write_controller(text: &mut String, machine: &QueueMachine) -> Result<(), AllocError>
    ensures { OnOk result (string_bytes text.new ≡ string_bytes text.old ++ controller_members machine.now) }
{
    let handshake = machine.handshake();
    let state = controller_word(handshake.controller);
    let (place, known) = (machine.serve_place(), machine.known());
    let held = NumberOr(machine.held(), "null");
    let loaded = handshake.seen;
    let in_frame = u8::from(!machine.is_whole());
    write!(
        text,
        "}},\"controller\":{{\"state\":\"{state}\",\"use\":{place},\"known\":{known},\"held\":{held},\"loaded\":{loaded},\"mid_frame\":{in_frame}"
    )
}

/// Writes the state of a receive queue.
pub(crate) fn write_receive(text: &mut String, machine: &RxMachine) -> Result<(), AllocError>
    ensures { OnOk result (string_bytes text.new ≡ string_bytes text.old ++ rx_state machine.now) }
{
    let quiet = machine.quiet();
    let still = u8::from(machine.is_still());
    write_words(text, machine.queue())?;
    write!(text, ",\"quiet\":{quiet}")?;
    write_driver(text, machine.queue())?;
    write_controller(text, machine.queue())?;
    write!(text, ",\"quiet\":{still}}}")?;
    Ok(())
}

// Returns the head word of a queue that reports by it.
fn head_word(machine: &TxMachine) -> Option<u16>
    ensures { result ≡ head_word machine.now }
{
    if machine.completion().is_by_head() {
        Some(machine.report_word())
    } else {
        None
    }
}

// Writes the head word.
fn write_head_word(text: &mut String, machine: &TxMachine) -> Result<(), AllocError>
    ensures { OnOk result (string_bytes text.new ≡ string_bytes text.old ++ head_member machine.now) }
{
    let head = NumberOr(head_word(machine), "null");
    write!(text, ",\"head_word\":{head}")
}

// Writes which reports the driver has seen, and whether it has posted a frame in part.
fn write_reported(text: &mut String, machine: &TxMachine) -> Result<(), AllocError>
    ensures { OnOk result (string_bytes text.new ≡ string_bytes text.old ++ reported_members machine.now) }
{
    let reported = machine.seen_place();
    let in_frame = u8::from(!machine.is_posted_whole());
    write!(text, ",\"reported\":{reported},\"mid_frame\":{in_frame}")
}

// Writes whether a report is due, and closes the object.
fn write_due(text: &mut String, machine: &TxMachine) -> Result<(), AllocError>
    ensures { OnOk result (string_bytes text.new ≡ string_bytes text.old ++ due_member machine.now) }
{
    let due = u8::from(machine.is_report_due());
    write!(text, ",\"report_due\":{due}}}")
}

/// Writes the state of a transmit queue.
pub(crate) fn write_transmit(text: &mut String, machine: &TxMachine) -> Result<(), AllocError>
    ensures { OnOk result (string_bytes text.new ≡ string_bytes text.old ++ tx_state machine.now) }
{
    write_words(text, machine.queue())?;
    write_head_word(text, machine)?;
    write_driver(text, machine.queue())?;
    write_reported(text, machine)?;
    write_controller(text, machine.queue())?;
    write_due(text, machine)?;
    Ok(())
}
