//! Runs of the program, and their results.

use crate::tests::streams::{Input, Output, Screen};
use program::run;
use std::alloc::{AllocError, Global};
use std::process::Abort;
use std::rt::Files;
use std::str;
use std::sync::Wait;
use std::thread::Threads;
use std::time::Clock;

/// What a run of the program needs from the system, and what a test needs to abort.
pub trait Host: Abort + Threads + Wait + Clock + Sync + Files {}

impl<R: Abort + Threads + Wait + Clock + Sync + Files> Host for R {}

/// These bytes as text, or a text that says that they are not UTF-8.
pub fn text_of(bytes: &[u8]) -> &str {
    str::from_utf8(bytes).unwrap_or("(this is no UTF-8)")
}

/// The result of a run: its status, and the bytes written to the output and the faults.
#[derive(Drop)]
pub struct RunResult {
    pub status: u8,
    pub output: Vec<u8>,
    faults: Vec<u8>,
}

impl RunResult {
    pub fn faults(&self) -> &str {
        text_of(self.faults.as_slice())
    }
}

/// The streams of a run.
#[derive(Drop)]
pub struct Streams<'a> {
    pub input: Input<'a>,
    pub output: Output,
    pub faults: Output,
}

impl<'a> Streams<'a> {
    /// This input, and outputs that take all bytes.
    pub fn of(alloc: Global, input: Input<'a>) -> Streams<'a> {
        Streams {
            input,
            output: Output::new(alloc),
            faults: Output::new(alloc),
        }
    }
}

/// Copies of these words.
fn copied(alloc: Global, words: &[&str]) -> Result<Vec<String>, AllocError> {
    let mut copies = Vec::new(alloc);
    for word in words {
        copies.push(String::from_str(alloc, word)?)?;
    }
    Ok(copies)
}

/// The result of a run on these words and streams, none of which is a terminal.
pub fn run_on<R: Host>(rt: &R, alloc: Global, words: &[&str], streams: Streams<'_>) -> RunResult {
    let given = copied(alloc, words).expect(rt, "memory");
    let Streams {
        mut input,
        mut output,
        mut faults,
    } = streams;
    let mut screen = Screen::new(alloc, false);
    let status = run(
        rt,
        alloc,
        given.as_slice(),
        &mut input,
        false,
        &mut output,
        &mut faults,
        &mut screen,
    );
    RunResult {
        status,
        output: output.taken,
        faults: faults.taken,
    }
}
