//! Rows of the texts of moves: the meaning of each line. `checks/runs` has the refused lines, and the texts of notes.

mod receive_lines;
mod transmit_lines;

use crate::tests::steps::{RxNamed, TxNamed, rx_step, tx_step};
use crate::tests::wanted::{holds, same};
use receive_lines::RECEIVE;
use ring_machine::{ControlStep, Move, QueueNumber, RxStep, TxStep};
use std::alloc::{AllocError, Global};
use std::fmt::Display;
use std::process::Abort;
use transmit_lines::TRANSMIT;

// The printed text.
fn text_of<T: Display>(alloc: Global, printed: &T) -> Result<String, AllocError> {
    format!(in alloc; "{printed}")
}

// Checks that it prints as `wanted`.
fn is_printed<R: Abort, T: Display>(rt: &R, alloc: Global, printed: &T, wanted: &str) {
    let text = text_of(alloc, printed).expect(rt, "memory");
    same(rt, text.as_str(), wanted);
}

// Checks that the line begins with the printed text.
fn begins_with<R: Abort, T: Display>(rt: &R, alloc: Global, line: &str, printed: &T) {
    let text = text_of(alloc, printed).expect(rt, "memory");
    let begins = line.as_bytes().starts_with(text.as_bytes());
    same(rt, (line, begins), (line, true));
}

// Checks that the line is this move's, read and printed, and begins with its name.
fn is_line_of<R: Abort>(rt: &R, alloc: Global, line: &str, wanted: Option<Move>) {
    let read = Move::parse(line.as_bytes()).ok();
    holds(rt, read == wanted);
    let read = read.expect(rt, line);
    begins_with(rt, alloc, line, &read.name());
    is_printed(rt, alloc, &read, line)
}

/// A step of one direction, as rows write it.
trait Named: Copy {
    fn of_control(step: ControlStep) -> Self;

    /// The move of this queue, or `None` if the step's numbers are not lawful.
    fn on(self, queue: u8) -> Option<Move>;
}

impl Named for RxNamed {
    fn of_control(step: ControlStep) -> RxNamed {
        RxStep::Control(step)
    }

    fn on(self, queue: u8) -> Option<Move> {
        Some(Move::Receive(QueueNumber::new(queue)?, rx_step(self)?))
    }
}

impl Named for TxNamed {
    fn of_control(step: ControlStep) -> TxNamed {
        TxStep::Control(step)
    }

    fn on(self, queue: u8) -> Option<Move> {
        Some(Move::Transmit(QueueNumber::new(queue)?, tx_step(self)?))
    }
}

/// A line without its queue, and its step.
type LineRow<S> = (&'static str, S);

/// The lines that both directions have.
const CONTROLS: &[LineRow<ControlStep>] = &[
    ("C1", ControlStep::AskEnable),
    ("C2", ControlStep::LookAsked),
    ("C3", ControlStep::Answer),
    ("C4", ControlStep::LookAnswered),
    ("C5", ControlStep::AskDisable),
];

// Checks the line of a step on each queue of the kind with this letter.
fn is_line<R: Abort, S: Named>(rt: &R, alloc: Global, letter: char, line: &str, step: S) {
    for queue in 0..8 {
        let line = format!(in alloc; "{letter}{queue} {line}").expect(rt, "memory");
        is_line_of(rt, alloc, line.as_str(), step.on(queue));
    }
}

// Checks the lines of these steps.
fn are_lines<R: Abort, S: Named>(rt: &R, alloc: Global, letter: char, rows: &[LineRow<S>]) {
    for (line, step) in rows {
        is_line(rt, alloc, letter, line, *step);
    }
}

// Checks the lines of the handshake.
fn are_controls<R: Abort, S: Named>(rt: &R, alloc: Global, letter: char) {
    for (line, step) in CONTROLS {
        is_line(rt, alloc, letter, line, S::of_control(*step));
    }
}

#[test]
fn lines_of_receive_queues_are_read_and_printed(rt: HostRuntime) {
    are_lines(&rt, rt.alloc(), 'r', RECEIVE);
    are_controls::<_, RxNamed>(&rt, rt.alloc(), 'r')
}

#[test]
fn lines_of_transmit_queues_are_read_and_printed(rt: HostRuntime) {
    are_lines(&rt, rt.alloc(), 't', TRANSMIT);
    are_controls::<_, TxNamed>(&rt, rt.alloc(), 't')
}
