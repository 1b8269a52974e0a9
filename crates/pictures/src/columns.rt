//! The columns of one place.
ghost use Rattle.std.specs.Prelude.{◌≡◌, ◌++◌, ◌<◌, OnOk, Some};
ghost use Rattle.std.specs.String.{string_bytes};
ghost use Rattle.ring_machine.specs.declared.registers.QueueKind.TheVariants.{Receive, Transmit};
ghost use Rattle.pictures.specs.Pictures.{age_at, columns, flag_words, item_of, line, mark, marks, number_or, owner_word, says_done, says_eop, says_rs, word_words};

use ring_machine::{QueueKind, QueueMachine, Registers};
use ring_model::{Owner, places_between};
use std::alloc::AllocError;
use std::fmt;

/// A number, or this text for `None`.
#[derive(Clone, Copy)]
pub(crate) struct NumberOr(pub(crate) Option<u16>, pub(crate) &'static str);

impl fmt::Display for NumberOr {
    ghost output = { λ d. Some (number_or d.1.now d.0) };

    fn fmt<W: fmt::Write>(&self, f: &mut fmt::Formatter<W>) -> fmt::Result {
        match self.0 {
            Some(number) => write!(f, "{number}"),
            None => f.write_str(self.1),
        }
    }
}

/// The printed owners, in the order of [`Owner`].
const OWNER_WORDS: [&str; 3] = ["drv", "ring", "ctl"];

/// Returns the printed owner.
pub(crate) fn owner_word(owner: Owner) -> &'static str
    ensures { result.now ≡ owner_word owner }
{
    OWNER_WORDS[owner as usize]
}

fn item_of(owner: Owner, age: u16) -> Option<u16>
    ensures { result ≡ item_of owner age }
{
    match owner {
        Owner::Driver => None,
        Owner::Ring | Owner::Controller => Some(age),
    }
}

fn flag_words(done: bool, eop: bool, rs: bool) -> &'static str
    ensures { result.now ≡ flag_words done eop rs }
{
    match (done, eop, rs) {
        (false, false, false) => "-",
        (false, false, true) => "RS",
        (false, true, false) => "EOP",
        (false, true, true) => "EOP RS",
        (true, false, false) => "DD",
        (true, false, true) => "DD RS",
        (true, true, false) => "DD EOP",
        (true, true, true) => "DD EOP RS",
    }
}

// DD, EOP and RS of a receive descriptor's word.
fn receive_words(word: u64) -> &'static str
    ensures { result.now ≡ flag_words (says_done Receive word) (says_eop Receive word) (says_rs Receive word) }
{
    flag_words(word % 2 == 1, word / 2 % 2 == 1, false)
}

// DD, EOP and RS of a transmit descriptor's word.
fn transmit_words(word: u64) -> &'static str
    ensures { result.now ≡ flag_words (says_done Transmit word) (says_eop Transmit word) (says_rs Transmit word) }
{
    flag_words(
        word / 0x1_0000_0000 % 2 == 1,
        word / 0x100_0000 % 2 == 1,
        word / 0x800_0000 % 2 == 1,
    )
}

fn word_words(kind: QueueKind, owner: Owner, word: u64) -> &'static str
    ensures { result.now ≡ word_words kind owner word }
{
    match (owner, kind) {
        (Owner::Driver, _) => "any",
        (_, QueueKind::Receive) => receive_words(word),
        (_, QueueKind::Transmit) => transmit_words(word),
    }
}

// Returns the number of places from the oldest that is out up to this one.
fn age_of(machine: &QueueMachine, place: u16) -> u16
    requires { place < machine.now.size }
    ensures { result ≡ age_at machine.now place }
{
    places_between(machine.next(), place, machine.size())
}

/// A place of a receive or transmit queue.
#[derive(Clone, Copy)]
pub(crate) struct Spot {
    pub kind: QueueKind,
    pub place: u16,
}

// Writes a place's columns.
fn write_columns(text: &mut String, machine: &QueueMachine, spot: Spot) -> Result<(), AllocError>
    requires { spot.place < machine.now.size }
    ensures { OnOk result (string_bytes text.new ≡ string_bytes text.old ++ columns spot.kind machine.now spot.place) }
{
    let Spot { kind, place } = spot;
    let owner = machine.owner(place);
    let item = NumberOr(item_of(owner, age_of(machine, place)), "-");
    let word = word_words(kind, owner, machine.word(place));
    let buffer = NumberOr(machine.slot(place), "-");
    let owner = owner_word(owner);
    write!(text, "{place}\t{item}\t{owner}\t{word}\t{buffer}")
}

// Writes the name of a mark if it is at the place.
fn write_mark(text: &mut String, at: u16, place: u16, name: &str) -> Result<(), AllocError>
    ensures { OnOk result (string_bytes text.new ≡ string_bytes text.old ++ mark at place name.now) }
{
    if at == place {
        text.push('\t')?;
        text.push_str(name)?;
    }
    Ok(())
}

// Writes the marks at a place.
fn write_marks(text: &mut String, machine: &QueueMachine, place: u16) -> Result<(), AllocError>
    ensures { OnOk result (string_bytes text.new ≡ string_bytes text.old ++ marks machine.now place) }
{
    let Registers { head, tail, .. } = machine.registers(QueueKind::Receive);
    write_mark(text, head, place, "head")?;
    write_mark(text, tail, place, "tail")?;
    write_mark(text, machine.fill(), place, "fill")?;
    write_mark(text, machine.next(), place, "next")?;
    write_mark(text, machine.serve_place(), place, "use")?;
    write_mark(text, machine.known(), place, "known")
}

/// Writes a place's line.
pub(crate) fn write_line(
    text: &mut String,
    machine: &QueueMachine,
    spot: Spot,
) -> Result<(), AllocError>
    requires { spot.place < machine.now.size }
    ensures { OnOk result (string_bytes text.new ≡ string_bytes text.old ++ line spot.kind machine.now spot.place) }
{
    write_columns(text, machine, spot)?;
    write_marks(text, machine, spot.place)?;
    text.push('\n')
}
