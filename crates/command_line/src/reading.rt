//! Reads the value of an option or an argument from matches.
ghost use Rattle.std.specs.Prelude.{◌≡◌, ℕ, Bool, Option, Some, IsSomeAnd, decimal, option_map};
ghost use Rattle.clap.specs.Words.{Text, first_of, found_of, one_of, rows_of};
ghost use Rattle.capture.specs.declared.options.ReadOptions.{ReadOptions as Reading};
ghost use Rattle.command_line.specs.CaptureWords.{HasPlace};
ghost use Rattle.command_line.specs.OptionWords.{HasFlag, HasNumber};
ghost use Rattle.command_line.specs.ReadingWords.{HasReading, IsLimit};

use capture::ReadOptions;
use clap::ArgMatches;

/// Returns the number of an option.
pub(crate) fn number_in<'a>(matches: &ArgMatches<'a>, id: &str) -> Option<u32>
    ensures { (n : ℕ) → HasNumber (rows_of (found_of matches.now)) id.now n → IsSomeAnd result (λ m. m ≡ n) }
{
    matches.get_one(id)
}

/// Returns the number of an option that may be omitted.
fn limit_in<'a>(matches: &ArgMatches<'a>, id: &str) -> Option<u32>
    ensures { (limit : Option ℕ) → one_of id.now (rows_of (found_of matches.now)) ≡ option_map decimal limit → IsLimit limit
        → result ≡ limit }
{
    matches.get_one(id)
}

/// Returns how captures are read.
pub(crate) fn reading_in<'a>(matches: &ArgMatches<'a>) -> ReadOptions
    ensures { (reading : Reading) → HasReading (rows_of (found_of matches.now)) reading → result ≡ reading }
{
    let skip = flag_in(matches, "skip");
    let limit = limit_in(matches, "limit");
    ReadOptions { skip, limit }
}

/// Returns the number of an argument that is a port or a queue.
pub(crate) fn place_in<'a>(matches: &ArgMatches<'a>, id: &str) -> Option<u8>
    ensures { (n : ℕ) → HasPlace (rows_of (found_of matches.now)) id.now n → IsSomeAnd result (λ m. m ≡ n) }
{
    matches.get_one(id)
}

/// Whether a flag is given.
pub(crate) fn flag_in<'a>(matches: &ArgMatches<'a>, id: &str) -> bool
    ensures { (stands : Bool) → HasFlag (rows_of (found_of matches.now)) id.now stands → result ≡ stands }
{
    matches.get_flag(id)
}

/// Returns the word of an argument.
pub(crate) fn word_in<'a>(matches: &ArgMatches<'a>, id: &str) -> Option<&'a str>
    ensures { (text : Text) → first_of id.now (rows_of (found_of matches.now)) ≡ Some text
        → IsSomeAnd result (λ word. word.now ≡ text) }
{
    matches.get_str(id)
}

/// Returns the word of an option, or `None` if it is omitted.
pub(crate) fn text_in<'a>(matches: &ArgMatches<'a>, id: &str) -> Option<&'a str>
    ensures { option_map (λ word. word.now) result ≡ first_of id.now (rows_of (found_of matches.now)) }
{
    matches.get_str(id)
}
