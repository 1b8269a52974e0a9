//! Standard output and standard error of a program in a pipe, such as `poll82599 schedules --cover | head`.
//!
//! When the reader of standard output has gone, there is nobody to tell: the program prints no refusal, and exits with
//! the status of a process that SIGPIPE ended.

use std::cell::Cell;
use std::io;
use std::io::{ErrorKind, Write};

/// The exit status after the reader of standard output has gone: 128 plus the number of SIGPIPE, as in a shell.
pub const GONE: u8 = 141;

/// Standard output. Notes when its reader has gone.
#[derive(Drop)]
pub struct Output<'a, W> {
    to: W,
    is_gone: &'a Cell<bool>,
}

impl<'a, W> Output<'a, W> {
    /// An output to `to`, which sets `is_gone` when nobody reads it.
    pub fn new(to: W, is_gone: &'a Cell<bool>) -> Output<'a, W> {
        Output { to, is_gone }
    }
}

impl<'a, W: Write> Output<'a, W> {
    /// Notes whether this error says that the reader has gone.
    fn note(&self, error: &io::Error) {
        if error.kind() == ErrorKind::BrokenPipe {
            self.is_gone.set(true);
        }
    }
}

impl<'a, W: Write> Write for Output<'a, W> {
    fn write(&mut self, buf: &[u8]) -> io::Result<usize> {
        let written = self.to.write(buf);
        if let Err(error) = &written {
            self.note(error);
        }
        written
    }

    fn flush(&mut self) -> io::Result<()> {
        let flushed = self.to.flush();
        if let Err(error) = &flushed {
            self.note(error);
        }
        flushed
    }
}

/// Standard error. Drops what is written after the reader of standard output has gone.
#[derive(Drop)]
pub struct Faults<'a, E> {
    to: E,
    is_gone: &'a Cell<bool>,
}

impl<'a, E> Faults<'a, E> {
    /// An output to `to`, until `is_gone` is set.
    pub fn new(to: E, is_gone: &'a Cell<bool>) -> Faults<'a, E> {
        Faults { to, is_gone }
    }
}

impl<'a, E: Write> Write for Faults<'a, E> {
    fn write(&mut self, buf: &[u8]) -> io::Result<usize> {
        if self.is_gone.get() {
            return Ok(buf.len());
        }
        self.to.write(buf)
    }

    fn flush(&mut self) -> io::Result<()> {
        self.to.flush()
    }
}
