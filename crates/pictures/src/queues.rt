//! The picture of one of several queues.
ghost use Rattle.std.specs.Prelude.{◌≡◌, ◌++◌, OnOk};
ghost use Rattle.std.specs.String.{string_bytes};
ghost use Rattle.pictures.specs.Pictures.{queue_picture};

use crate::picture::write_picture;
use ring_machine::{Move, QueueKind, Queues};
use std::alloc::AllocError;

/// Appends the queue that a move names to a text, as [`write_picture`] does. Writes nothing if there is no such queue.
///
/// An `Err` means that memory was refused; the text may then have some of the lines.
pub fn write_queue(text: &mut String, queues: &Queues, action: &Move) -> Result<(), AllocError>
    ensures { OnOk result (string_bytes text.new ≡ string_bytes text.old ++ queue_picture queues.now action.now) }
{
    match *action {
        Move::Receive(queue, _) => match queues.receive(queue) {
            Some(machine) => write_picture(text, QueueKind::Receive, machine.queue()),
            None => Ok(()),
        },
        Move::Transmit(queue, _) => match queues.transmit(queue) {
            Some(machine) => write_picture(text, QueueKind::Transmit, machine.queue()),
            None => Ok(()),
        },
    }
}
