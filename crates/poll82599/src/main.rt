//! The program `poll82599`: both sides of the 82599's descriptor rings, in one process.
//! Depends on `program` and `requests`.
//! Guarantees what `program::run` guarantees, which it calls.
//!
//! `main` passes the words and the three standard streams to `program::run`, standard error a second time for the
//! progress of a run, and exits with the status that it returns. `command_line` parses the words, and `program` runs
//! the commands. If the reader of standard output has gone, the program ends quietly (`pipe`).
#![tactic(auto)]

mod pipe;

use pipe::{Faults, GONE, Output};
use program::{EXIT_USAGE, run};
use requests::{Refusal, refuse};
use std::cell::Cell;
use std::io::{ErrorKind, IsTerminal, Write};
use std::process::ExitCode;
use std::rt::Env;
use std::{env, io};

/// Returns the words after the program's name.
fn words_of<R: Env + AllocGlobal>(rt: &R) -> io::Result<Vec<String>> {
    Ok(env::args(rt)?.skip(1).collect(rt.alloc())?)
}

/// Says why the words cannot be read: one is not UTF-8, or memory is refused. Returns the exit status.
fn refuse_words<E: Write>(faults: &mut E, kind: ErrorKind) -> u8 {
    if kind == ErrorKind::InvalidData {
        let _ = faults.write_all(b"error: an argument is not valid UTF-8\n");
        return EXIT_USAGE;
    }
    refuse(faults, Refusal::Memory)
}

fn main(rt: HostRuntime) -> ExitCode {
    let is_gone = Cell::new(false);
    let mut faults = Faults::new(rt.stderr(), &is_gone);
    let words = match words_of(&rt) {
        Ok(words) => words,
        Err(error) => return ExitCode::from(refuse_words(&mut faults, error.kind())),
    };
    let mut input = rt.stdin();
    let is_terminal = input.is_terminal();
    let status = run(
        &rt,
        rt.alloc(),
        words.as_slice(),
        &mut input,
        is_terminal,
        &mut Output::new(rt.stdout(), &is_gone),
        &mut faults,
        &mut rt.stderr(),
    );
    ExitCode::from(if is_gone.get() { GONE } else { status })
}
