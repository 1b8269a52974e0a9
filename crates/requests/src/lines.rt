//! The lines of an input.
ghost use Rattle.std.specs.Prelude.{◌≡◌, ℕ, ◌+◌, ◌-◌, ◌<◌, [], get_or};
ghost use Rattle.text_lines.specs.Parts.{later_parts, lines_of};

use text_lines::cut;

/// Line `number` of a text, counted from 1, without its LF. Returns an empty line if there are fewer.
pub fn line_at(text: &[u8], number: u64) -> &[u8]
    ensures { 0 < number → result.now ≡ get_or (lines_of text.now) (number - 1) [] }
{
    let mut rest = Some(text);
    for _ in 0..number.saturating_sub(1) {
        rest = after_line(rest);
    }
    first_line(rest)
}

/// The text after its first line, if there is any.
fn after_line(rest: Option<&[u8]>) -> Option<&[u8]>
    ensures { (k : ℕ) → get_or (later_parts 10 result) k [] ≡ get_or (later_parts 10 rest.entry) (k + 1) [] }
{
    cut(rest?, b'\n').1
}

/// The first line of a text, or an empty line if there is none.
fn first_line(rest: Option<&[u8]>) -> &[u8]
    ensures { result.now ≡ get_or (later_parts 10 rest.entry) 0 [] }
{
    match rest {
        Some(left) => cut(left, b'\n').0,
        None => &[],
    }
}
