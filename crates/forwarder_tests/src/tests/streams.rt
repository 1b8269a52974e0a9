//! Inputs and outputs that may fail, and a screen.
//!
//! All inputs have one type, and so have all outputs: the program is compiled once for each pair of types.

use std::alloc::Global;
use std::io;
use std::io::{ErrorKind, IsTerminal, Read, Write};

/// Number of bytes that a stream in pieces reads or writes at once.
pub const PIECE: usize = 100;

/// An input that yields its bytes, and then ends or fails.
#[derive(Drop)]
pub struct Input<'a> {
    left: &'a [u8],
    /// The most bytes that it yields at once.
    most: usize,
    /// After this many reads it fails.
    reads: usize,
    /// Whether it fails after its last byte.
    fails: bool,
}

impl<'a> Input<'a> {
    /// An input of these bytes.
    pub fn of(left: &'a [u8]) -> Input<'a> {
        Input {
            left,
            most: usize::MAX,
            reads: usize::MAX,
            fails: false,
        }
    }

    /// An input that yields these bytes, and then fails.
    pub fn broken(left: &'a [u8]) -> Input<'a> {
        Input {
            fails: true,
            ..Input::of(left)
        }
    }

    /// An input that yields its bytes in pieces, and fails after this many of them.
    pub fn of_pieces(left: &'a [u8], pieces: usize) -> Input<'a> {
        Input {
            most: PIECE,
            reads: pieces,
            ..Input::of(left)
        }
    }
}

impl<'a> Read for Input<'a> {
    fn read(&mut self, buf: &mut [u8]) -> io::Result<usize> {
        let count = buf.len().min(self.left.len()).min(self.most);
        let is_over = self.fails && count == 0 && !buf.is_empty();
        if self.reads == 0 || is_over {
            return Err(io::Error::from(ErrorKind::BrokenPipe));
        }
        self.reads -= 1;
        buf[..count].copy_from_slice(&self.left[..count]);
        self.left = &self.left[count..];
        Ok(count)
    }
}

/// An output that takes a given number of bytes, and then fails.
#[derive(Drop)]
pub struct Output {
    room: usize,
    /// The most bytes that it takes at once.
    most: usize,
    /// Whether it fails to flush.
    is_stuck: bool,
    pub taken: Vec<u8>,
}

impl Output {
    /// An output that takes all bytes.
    pub fn new(alloc: Global) -> Output {
        Output::narrow(alloc, usize::MAX)
    }

    /// An output of `room` bytes, which it takes at once.
    pub fn narrow(alloc: Global, room: usize) -> Output {
        Output {
            room,
            most: room,
            is_stuck: false,
            taken: Vec::new(alloc),
        }
    }

    /// An output of `pieces` pieces, which it takes one at a time.
    pub fn of_pieces(alloc: Global, pieces: usize) -> Output {
        Output {
            most: PIECE,
            ..Output::narrow(alloc, pieces.saturating_mul(PIECE))
        }
    }

    /// An output that takes all bytes, and fails to flush.
    pub fn stuck(alloc: Global) -> Output {
        Output {
            is_stuck: true,
            ..Output::new(alloc)
        }
    }
}

impl Write for Output {
    fn write(&mut self, buf: &[u8]) -> io::Result<usize> {
        let count = self.room.min(buf.len()).min(self.most);
        if count == 0 && !buf.is_empty() {
            return Err(io::Error::from(ErrorKind::BrokenPipe));
        }
        self.taken.extend_from_slice(&buf[..count])?;
        self.room -= count;
        Ok(count)
    }

    fn flush(&mut self) -> io::Result<()> {
        if self.is_stuck {
            return Err(io::Error::from(ErrorKind::BrokenPipe));
        }
        Ok(())
    }
}

/// A screen that may be a terminal.
#[derive(Drop)]
pub struct Screen {
    pub shown: Vec<u8>,
    is_terminal: bool,
}

impl Screen {
    pub fn new(alloc: Global, is_terminal: bool) -> Screen {
        let shown = Vec::new(alloc);
        Screen { shown, is_terminal }
    }
}

impl Write for Screen {
    fn write(&mut self, buf: &[u8]) -> io::Result<usize> {
        self.shown.write(buf)
    }

    fn flush(&mut self) -> io::Result<()> {
        Ok(())
    }
}

impl IsTerminal for Screen {
    fn is_terminal(&self) -> bool {
        self.is_terminal
    }
}
