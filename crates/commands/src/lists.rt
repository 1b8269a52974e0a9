//! Cuts a text into lists of moves.
ghost use Rattle.std.specs.Prelude.{◌≡◌, ◌<◌, length, IfSome};
ghost use Rattle.commands.specs.Lists.{IsListCut, ends_list};

use text_lines::{cut, says_something};

/// The line that ends a list.
const LIST_END: &[u8] = b"# end";

/// The first list of a text, and the rest of the text.
#[derive(Clone, Copy)]
pub(crate) struct ListCut<'a> {
    /// The text before the first line `# end`, or the whole text if there is none.
    pub(crate) list: &'a [u8],
    /// Whether it counts as a list: a line `# end` follows, or it has a move.
    pub(crate) is_list: bool,
    /// The text after that line.
    pub(crate) rest: Option<&'a [u8]>,
}

/// Cuts the first list off a text.
pub(crate) fn cut_list(text: &[u8]) -> ListCut<'_>
    ensures cut { IsListCut text.now result.list.now result.is_list result.rest }
    ensures shorter { IfSome result.rest (λ rest. length rest.now < length text.now) }
{
    let mut rest = Some(text);
    let mut has_moves = false;
    while let Some(left) = rest {
        let (line, after) = cut(left, b'\n');
        if ends_list(line) {
            return ListCut {
                list: &text[..text.len() - left.len()],
                is_list: true,
                rest: after,
            };
        }
        has_moves |= says_something(line);
        rest = after;
    }
    ListCut {
        list: text,
        is_list: has_moves,
        rest: None,
    }
}

/// Whether a line ends a list.
fn ends_list(line: &[u8]) -> bool
    ensures { result ≡ ends_list line.now }
{
    line == LIST_END
}
