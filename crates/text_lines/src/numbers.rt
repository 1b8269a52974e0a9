//! Numbers in decimal.
ghost use Rattle.std.specs.Prelude.{◌≡◌, ◌<◌, ◌^◌, ◌↔◌, ℕ, Some, decimal};
ghost use Rattle.std.specs.Char.{is_ascii_digit};
ghost use Rattle.std.specs.List.{list_all};
ghost use Rattle.text_lines.specs.Numbers.{is_number, number_in};

/// The decimal number of a field, 0 to 99,999: it has 1 to 5 digits, and no leading zero. Returns `None` for any other
/// text.
pub fn number_in(field: &[u8]) -> Option<u32>
    ensures value { result ≡ number_in field.now }
    ensures text { (n : ℕ) → (result ≡ Some n) ↔ ((n < 10 ^ 5) × (field.now ≡ decimal n)) }
{
    if !is_number(field) {
        return None;
    }
    let mut value: u32 = 0;
    for digit in field {
        value = 10 * value + u32::from(*digit - b'0');
    }
    Some(value)
}

/// Whether a field is a number of this form.
fn is_number(field: &[u8]) -> bool
    ensures { result ≡ is_number field.now }
{
    (1..=5).contains(&field.len()) && (field.len() == 1 || field[0] != b'0') && are_digits(field)
}

fn are_digits(field: &[u8]) -> bool
    ensures { result ≡ list_all is_ascii_digit field.now }
{
    field.iter().all(|byte| byte.is_ascii_digit())
}
