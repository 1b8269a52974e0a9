//! The page that `replay --page` and `schedules --page` write: data between two constant texts. `share/page` has their
//! source.
ghost use Rattle.std.specs.Prelude.{◌≡◌, ◌++◌, IfOk};
ghost use Rattle.std.specs.String.{string_bytes};
ghost use Rattle.commands.specs.Page.{page_of};

mod head;
mod tail;

pub use head::PAGE_HEAD;
use std::alloc::{AllocError, Global};
pub use tail::PAGE_TAIL;

/// Returns the page with these data, which are lines of JSON.
pub fn page_with(alloc: Global, content: &str) -> Result<String, AllocError>
    ensures { IfOk result (λ page. string_bytes page ≡ page_of content.now) }
{
    joined(alloc, PAGE_HEAD, content, PAGE_TAIL)
}

/// Joins three texts.
fn joined(alloc: Global, head: &str, content: &str, tail: &str) -> Result<String, AllocError>
    ensures { IfOk result (λ text. string_bytes text ≡ head.now ++ (content.now ++ tail.now)) }
{
    let mut text = String::new(alloc);
    text.push_str(head)?;
    text.push_str(content)?;
    text.push_str(tail)?;
    Ok(text)
}
