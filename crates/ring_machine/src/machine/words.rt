//! The fields of transmit descriptors' words (82599 datasheet, 7.2.3.2.4), and the search for the oldest report.

ghost use Rattle.std.specs.Prelude.{◌≡◌, ◌<◌, IfSome, length};
ghost use Rattle.ring_machine.specs.code.Words.{first_asking, place_before, word_asks, word_eop, word_len, word_rs};

use ring_model::place_after;

// The second word of a transmit write-back: DD.
pub(crate) const DONE: u64 = 0x1_0000_0000;

// DTALEN, bits 15:0.
pub(crate) fn len_in(word: u64) -> u16
    ensures { result ≡ word_len word }
{
    (word % 0x1_0000) as u16
}

// EOP, bit 24.
pub(crate) fn eop_in(word: u64) -> bool
    ensures { result ≡ word_eop word }
{
    word / 0x100_0000 % 2 == 1
}

// RS, bit 27.
pub(crate) fn rs_in(word: u64) -> bool
    ensures { result ≡ word_rs word }
{
    word / 0x800_0000 % 2 == 1
}

// Whether the descriptor asks for a report. A done word no longer has RS.
fn word_asks(word: u64) -> bool
    ensures { result ≡ word_asks word }
{
    word == DONE || rs_in(word)
}

// Returns the first of `count` places from `from` on whose descriptor asks for a report.
pub(crate) fn first_asking(words: &[u64], size: u16, from: u16, count: u16) -> Option<u16>
    requires all { length words.now ≡ size }
    requires inside { from < size }
    ensures value { result ≡ first_asking words.now size from count }
    ensures below { IfSome result (λ place. place < size) }
{
    let mut place = from;
    for i in 0..count {
        if word_asks(words[usize::from(place)]) {
            return Some(place);
        }
        place = place_after(place, size);
    }
    None
}

// Returns the place before this one.
pub(crate) fn place_before(place: u16, size: u16) -> u16
    requires some { 0 < size }
    requires inside { place < size }
    ensures value { result ≡ place_before size place }
    ensures below { result < size }
{
    if place == 0 { size - 1 } else { place - 1 }
}
