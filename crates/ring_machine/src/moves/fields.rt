//! The arguments of a move's line.

ghost use Rattle.std.specs.Prelude.{◌≡◌, ◌↔◌, ◌<◌, ◌≤◌, ◌^◌, ℕ, List, Some, IfNone, IfSome, decimal, length, map};
ghost use Rattle.ring_machine.specs.code.Fields.{AreSmall, later_fields};
ghost use Rattle.ring_machine.specs.declared.moves.fields.TheConstants.{MOST_ARGUMENTS};

use arrayvec::ArrayVec;
use text_lines::{cut, number_in};

/// The maximum number of arguments of a move.
pub const MOST_ARGUMENTS: usize = 5;

/// Returns the arguments in the fields, or `None` if one is not a number or there are too many.
pub fn arguments_in(rest: Option<&[u8]>) -> Option<ArrayVec<u16, MOST_ARGUMENTS>>
    ensures found { IfSome result (λ v. later_fields rest.entry ≡ map decimal v.items) }
    ensures small { IfSome result (λ v. AreSmall v.items) }
    ensures none { IfNone result ((ns : List ℕ) → AreSmall ns → length ns ≤ MOST_ARGUMENTS
        → later_fields rest.entry ≡ map decimal ns → ⊥) }
{
    let mut arguments = ArrayVec::new();
    let mut rest = rest;
    while let Some(left) = rest {
        let (field, after) = cut(left, b' ');
        let number = number_of(field)?;
        if arguments.is_full() {
            return None;
        }
        arguments.push(number);
        rest = after;
    }
    Some(arguments)
}

// Returns the number up to 65,535 of a field: decimal, without leading zero.
fn number_of(field: &[u8]) -> Option<u16>
    ensures { (n : ℕ) → (result ≡ Some n) ↔ ((n < 2 ^ 16) × (field.now ≡ decimal n)) }
{
    let number = number_in(field)?;
    u16::try_from(number).ok()
}
