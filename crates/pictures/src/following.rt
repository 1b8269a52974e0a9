//! Queues as lines of JSON: before the first move, and after each.
ghost use Rattle.std.specs.Prelude.{◌≡◌, ◌++◌, OnOk, option_map};
ghost use Rattle.std.specs.String.{string_bytes};
ghost use Rattle.limits.specs.declared.profile.TheConstants.{MOST_PAIRS};
ghost use Rattle.pictures.specs.States.{move_members, obstacle_member, opening_lines, pair_lines, queue_members, rx_after, rx_line, rx_members, rx_opening_line, state_line, tx_after, tx_line, tx_members, tx_opening_line};

use crate::fields::{receive_spot, transmit_spot, write_spot};
use crate::states::{write_receive, write_transmit};
use ring_machine::{
    Move, Obstacle, QueueKind, QueueNumber, Queues, RxMachine, SegmentDescriptor, SegmentLength,
    TxMachine,
};
use ring_model::{RxStep, TxStep};
use std::alloc::AllocError;

/// The number of pairs that a port has at most.
const PAIRS: u8 = 8;

// Writes what hinders a move, as a string, or `null`.
fn write_obstacle(text: &mut String, obstacle: Option<Obstacle>) -> Result<(), AllocError>
    ensures { OnOk result (string_bytes text.new ≡ string_bytes text.old ++ obstacle_member obstacle) }
{
    match obstacle {
        Some(obstacle) => write!(text, "\"{}\"", obstacle.text()),
        None => text.push_str("null"),
    }
}

// Writes the place and the state of a receive queue after this step.
fn write_receive_after(
    text: &mut String,
    machine: &RxMachine,
    step: RxStep<SegmentLength>,
) -> Result<(), AllocError>
    ensures { OnOk result (string_bytes text.new ≡ string_bytes text.old ++ rx_after step machine.now) }
{
    let place = receive_spot(machine.queue(), step);
    text.push_str(",\"at\":")?;
    write_spot(text, machine.queue(), QueueKind::Receive, place)?;
    text.push(',')?;
    write_receive(text, machine)?;
    Ok(())
}

// The same, if there is such a queue.
fn write_received(
    text: &mut String,
    machine: Option<&RxMachine>,
    step: RxStep<SegmentLength>,
) -> Result<(), AllocError>
    ensures { OnOk result (string_bytes text.new ≡ string_bytes text.old ++ rx_members step (option_map (λ m. m.now) machine.entry)) }
{
    match machine {
        Some(machine) => write_receive_after(text, machine, step),
        None => Ok(()),
    }
}

// Writes the place and the state of a transmit queue after this step.
fn write_transmit_after(
    text: &mut String,
    machine: &TxMachine,
    step: TxStep<SegmentDescriptor>,
) -> Result<(), AllocError>
    ensures { OnOk result (string_bytes text.new ≡ string_bytes text.old ++ tx_after step machine.now) }
{
    let place = transmit_spot(machine.queue(), step);
    text.push_str(",\"at\":")?;
    write_spot(text, machine.queue(), QueueKind::Transmit, place)?;
    text.push(',')?;
    write_transmit(text, machine)?;
    Ok(())
}

// The same, if there is such a queue.
fn write_transmitted(
    text: &mut String,
    machine: Option<&TxMachine>,
    step: TxStep<SegmentDescriptor>,
) -> Result<(), AllocError>
    ensures { OnOk result (string_bytes text.new ≡ string_bytes text.old ++ tx_members step (option_map (λ m. m.now) machine.entry)) }
{
    match machine {
        Some(machine) => write_transmit_after(text, machine, step),
        None => Ok(()),
    }
}

// Writes the members for the queue of a move.
fn write_queue_members(text: &mut String, queues: &Queues, action: &Move) -> Result<(), AllocError>
    ensures { OnOk result (string_bytes text.new ≡ string_bytes text.old ++ move_members queues.now action.now) }
{
    match *action {
        Move::Receive(queue, step) => write_received(text, queues.receive(queue), step),
        Move::Transmit(queue, step) => write_transmitted(text, queues.transmit(queue), step),
    }
}

/// Appends a line to a text: a JSON object with the move (`line`), what hinders it in the present state (`obstacle`,
/// or `null`), and, if its queue exists, the state of the queue: the place that such a move changes (`at`, or `null`),
/// with owner, buffer and the fields of its descriptor; the shared words (`words`); and what `driver` and `controller`
/// know. If the move was made last, no other place differs from the state before it.
///
/// An `Err` means that memory was refused; the text may then have a part of the line.
pub fn write_state(text: &mut String, queues: &Queues, action: &Move) -> Result<(), AllocError>
    ensures { OnOk result (string_bytes text.new ≡ string_bytes text.old ++ state_line queues.now action.now) }
{
    write!(text, "{{\"line\":\"{action}\",\"obstacle\":")?;
    write_obstacle(text, queues.obstacle(action))?;
    write_queue_members(text, queues, action)?;
    text.push_str("}\n")?;
    Ok(())
}

// Writes the name of a queue and its size.
fn write_queue_name(
    text: &mut String,
    letter: &str,
    number: u8,
    size: u16,
) -> Result<(), AllocError>
    ensures { OnOk result (string_bytes text.new ≡ string_bytes text.old ++ queue_members letter.now number size) }
{
    write!(text, "{{\"queue\":\"{letter}{number}\",\"size\":{size},")
}

// Writes the state of a receive queue as a line.
fn write_receive_line(text: &mut String, number: u8, machine: &RxMachine) -> Result<(), AllocError>
    ensures { OnOk result (string_bytes text.new ≡ string_bytes text.old ++ rx_line number machine.now) }
{
    write_queue_name(text, "r", number, machine.size())?;
    write_receive(text, machine)?;
    text.push_str("}\n")?;
    Ok(())
}

// The same, if there is such a queue.
fn write_receive_opening(
    text: &mut String,
    number: u8,
    machine: Option<&RxMachine>,
) -> Result<(), AllocError>
    ensures { OnOk result (string_bytes text.new ≡ string_bytes text.old ++ rx_opening_line number (option_map (λ m. m.now) machine.entry)) }
{
    match machine {
        Some(machine) => write_receive_line(text, number, machine),
        None => Ok(()),
    }
}

// Writes the state of a transmit queue as a line.
fn write_transmit_line(text: &mut String, number: u8, machine: &TxMachine) -> Result<(), AllocError>
    ensures { OnOk result (string_bytes text.new ≡ string_bytes text.old ++ tx_line number machine.now) }
{
    write_queue_name(text, "t", number, machine.size())?;
    write_transmit(text, machine)?;
    text.push_str("}\n")?;
    Ok(())
}

// The same, if there is such a queue.
fn write_transmit_opening(
    text: &mut String,
    number: u8,
    machine: Option<&TxMachine>,
) -> Result<(), AllocError>
    ensures { OnOk result (string_bytes text.new ≡ string_bytes text.old ++ tx_opening_line number (option_map (λ m. m.now) machine.entry)) }
{
    match machine {
        Some(machine) => write_transmit_line(text, number, machine),
        None => Ok(()),
    }
}

// Writes the queues of a pair.
fn write_pair(text: &mut String, queues: &Queues, queue: QueueNumber) -> Result<(), AllocError>
    ensures { OnOk result (string_bytes text.new ≡ string_bytes text.old ++ pair_lines queues.now queue) }
{
    let number = queue.number();
    write_receive_opening(text, number, queues.receive(queue))?;
    write_transmit_opening(text, number, queues.transmit(queue))
}

/// Appends a line for each queue to a text: a JSON object with the name of the `queue`, its `size`, and its state as
/// in [`write_state`]. Receive queue 0 comes first, then transmit queue 0, then those of the next pair. All places of
/// a new queue are the driver's, and empty.
///
/// An `Err` means that memory was refused; the text may then have some of the lines.
pub fn write_opening(text: &mut String, queues: &Queues) -> Result<(), AllocError>
    ensures { OnOk result (string_bytes text.new ≡ string_bytes text.old ++ opening_lines queues.now MOST_PAIRS) }
{
    for number in 0..PAIRS {
        if let Some(queue) = QueueNumber::new(number) {
            write_pair(text, queues, queue)?;
        }
    }
    Ok(())
}
