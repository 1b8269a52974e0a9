//! Cutting a text into lines, and a line into fields.
ghost use Rattle.std.specs.Prelude.{◌≡◌, ◌∷◌, ◌<◌, ◌==◌, length, IfSome, position};
ghost use Rattle.text_lines.specs.Parts.{later_parts, parts, says_something};

use memchr::memchr;

/// The bytes before the first `separator`, and those after it if there is one.
pub fn cut(bytes: &[u8], separator: u8) -> (&[u8], Option<&[u8]>)
    ensures parts { parts separator bytes.now ≡ result.0.now ∷ later_parts separator result.1 }
    ensures shorter { IfSome result.1 (λ rest. length rest.now < length bytes.now) }
{
    match place_of(bytes, separator) {
        None => (bytes, None),
        Some(at) => (&bytes[..at], Some(&bytes[at + 1..])),
    }
}

/// Whether a line has content: it is not empty, and does not begin with `#`.
pub fn says_something(line: &[u8]) -> bool
    ensures { result ≡ says_something line.now }
{
    match line {
        [] => false,
        [first, ..] => *first != b'#',
    }
}

/// The place of the first byte `wanted`.
fn place_of(bytes: &[u8], wanted: u8) -> Option<usize>
    ensures { result ≡ position (λ b. b == wanted) bytes.now }
{
    memchr(wanted, bytes)
}
