//! The files of `--capture` and `--wire-capture`, and their words.
ghost use Rattle.std.specs.Prelude.{◌≡◌, ◌+◌, ◌<◌, ◌≤◌, ◌↔◌, ◌∷◌, Some, IfSome, IsTrue, MatchOption};
ghost use Rattle.limits.specs.declared.profile.TheConstants.{MOST_PAIRS, PORTS};
ghost use Rattle.requests.specs.Files.{IsDigit, IsSource, IsWireFile, PortFile, SourceFile, NoField, NoFirst, names_input, names_output, source_word, wire_file_word};

use limits::{MOST_PAIRS, PORTS};
use std::marker::Model;

/// A capture whose frames come in at a port, 0 or 1, and a queue, 0 to 7.
#[derive(Debug, Drop)]
pub struct Source<'a> {
    port: u8,
    queue: u8,
    file: &'a str,
}

impl<'a> Model for Source<'a> {
    ghost Value = { SourceFile };

    ghost view = { λ s. record { port = s.port; queue = s.queue; file = s.file.now } };

    ghost invariant = { λ s. IsSource (record { port = s.port; queue = s.queue; file = s.file.now }) };
}

impl<'a> Source<'a> {
    /// The port and the queue at which the frames come in.
    pub fn place(&self) -> (u8, u8)
        ensures port { (result.0 ≡ self.now.port) × (result.0 < PORTS) }
        ensures queue { (result.1 ≡ self.now.queue) × (result.1 < MOST_PAIRS) }
    {
        (self.port, self.queue)
    }

    /// The capture's file.
    pub fn file(&self) -> &'a str
        ensures { result.now ≡ self.now.file }
    {
        self.file
    }
}

/// A file for the capture of the frames that leave a port, 0 or 1.
#[derive(Debug, Drop)]
pub struct WireFile<'a> {
    port: u8,
    file: &'a str,
}

impl<'a> Model for WireFile<'a> {
    ghost Value = { PortFile };

    ghost view = { λ w. record { port = w.port; file = w.file.now } };

    ghost invariant = { λ w. IsWireFile (record { port = w.port; file = w.file.now }) };
}

impl<'a> WireFile<'a> {
    /// The port whose frames are written.
    pub fn port(&self) -> u8
        ensures value { result ≡ self.now.port }
        ensures in_range { result < PORTS }
    {
        self.port
    }

    /// The file.
    pub fn file(&self) -> &'a str
        ensures { result.now ≡ self.now.file }
    {
        self.file
    }
}

/// Parses a word `PORT:QUEUE=FILE`. Returns `None` unless the port is 0 or 1, the queue is 0 to 7, each is one digit,
/// and the file's name is not empty.
pub fn source_of(word: &str) -> Option<Source<'_>>
    ensures said { IfSome result (λ s. IsSource s × (word.now ≡ source_word s)) }
    ensures each { (s : SourceFile) → IsSource s → word.now ≡ source_word s → result ≡ Some s }
{
    let (port, placed) = field_of(word, PORTS, b':')?;
    let (queue, file) = field_of(placed, MOST_PAIRS, b'=')?;
    if file.is_empty() {
        return None;
    }
    Some(Source { port, queue, file })
}

/// Parses a word `PORT=FILE`. Returns `None` unless the port is 0 or 1, one digit, and the file's name is not empty.
pub fn wire_file_of(word: &str) -> Option<WireFile<'_>>
    ensures said { IfSome result (λ w. IsWireFile w × (word.now ≡ wire_file_word w)) }
    ensures each { (w : PortFile) → IsWireFile w → word.now ≡ wire_file_word w → result ≡ Some w }
{
    let (port, file) = field_of(word, PORTS, b'=')?;
    if file.is_empty() {
        return None;
    }
    Some(WireFile { port, file })
}

/// Whether a wire file's name denotes standard output: `-` or `/dev/stdout`.
pub fn names_output(file: &str) -> bool
    ensures { result ≡ names_output file.now }
{
    file == "-" || file == "/dev/stdout"
}

/// Whether a capture's name denotes standard input: `-` or `/dev/stdin`.
pub fn names_input(file: &str) -> bool
    ensures { result ≡ names_input file.now }
{
    file == "-" || file == "/dev/stdin"
}

/// Splits a word into a digit less than `below`, the byte `mark`, and the rest. Returns the digit's value and the rest.
fn field_of(word: &str, below: usize, mark: u8) -> Option<(u8, &str)>
    requires digit { below ≤ 10 }
    requires mark { mark < 128 }
    ensures { MatchOption result (NoField below mark word.now) (λ x. (x.0 < below) × (word.now ≡ (48 + x.0) ∷ mark ∷ x.1.now)) }
{
    let (digit, marked) = first_of(word)?;
    let (found, rest) = first_of(marked)?;
    if !is_digit(digit, below) || found != mark {
        return None;
    }
    Some((digit - b'0', rest))
}

/// Whether this is a digit whose value is less than `below`.
fn is_digit(byte: u8, below: usize) -> bool
    ensures { IsTrue result ↔ IsDigit below byte }
{
    byte >= b'0' && usize::from(byte - b'0') < below
}

/// Splits off the first byte of a word, if it is ASCII.
fn first_of(word: &str) -> Option<(u8, &str)>
    ensures { MatchOption result (NoFirst word.now) (λ x. (x.0 < 128) × (word.now ≡ x.0 ∷ x.1.now)) }
{
    let bytes = word.as_bytes();
    if bytes.is_empty() || bytes[0] >= 128 {
        return None;
    }
    Some((bytes[0], word.split_at(1).1))
}
