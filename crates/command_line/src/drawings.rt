//! Reads the option `--picture` of `replay` from matches.
ghost use Rattle.std.specs.Prelude.{◌≡◌, Some, codes};
ghost use Rattle.clap.specs.Words.{first_of, found_of, rows_of};
ghost use Rattle.requests.specs.declared.replay.Pictures.{Pictures as Drawn};
ghost use Rattle.command_line.specs.OptionWords.{draws_any, picture_value, said_pictures};

use clap::ArgMatches;
use requests::Pictures;

/// Reads after which moves queues are drawn from matches of `replay`. Returns `None` if the value is not valid.
pub(crate) fn pictures_in<'a>(replay: &ArgMatches<'a>) -> Option<Pictures>
    ensures { (pictures : Drawn) → first_of (codes "picture") (rows_of (found_of replay.now)) ≡ picture_value pictures
        → result ≡ Some (said_pictures pictures) }
{
    match replay.get_str("picture") {
        Some(word) => pictures_named(word),
        None => Some(Pictures::Never),
    }
}

/// The meaning of this word.
fn pictures_named(word: &str) -> Option<Pictures>
    ensures { (pictures : Drawn) → Some word.now ≡ picture_value pictures → result ≡ Some (said_pictures pictures) }
{
    match word {
        "each" => Some(Pictures::Each),
        "last" => Some(Pictures::Last),
        _ => None,
    }
}

/// Whether any queue is drawn.
pub(crate) fn draws_any(pictures: Pictures) -> bool
    ensures { result ≡ draws_any pictures }
{
    match pictures {
        Pictures::Never => false,
        Pictures::Each | Pictures::Last | Pictures::States | Pictures::Page => true,
    }
}
