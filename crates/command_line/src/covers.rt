//! Reads the request of `schedules --cover` from matches.
ghost use Rattle.std.specs.Prelude.{◌≡◌, Some};
ghost use Rattle.clap.specs.Words.{found_of, rows_of};
ghost use Rattle.requests.specs.declared.covers.CoverRequest.{CoverRequest as Covering};
ghost use Rattle.command_line.specs.ScheduleWords.{HasCover, by_words, draws, is_said};

use crate::command::completion_in;
use crate::expects::expect_in;
use crate::lists::counts;
use crate::reading::flag_in;
use clap::ArgMatches;
use clap::parser::ValueSource;
use requests::CoverRequest;

/// Reads the request from matches of `schedules` with `--cover`. Returns `None` if an option of drawn lists is given,
/// `--page`,
/// or a form of the expected output without `--expect`.
pub(crate) fn cover_in<'a>(matches: &ArgMatches<'a>) -> Option<CoverRequest>
    ensures { (request : Covering) → HasCover (rows_of (found_of matches.now)) request → result ≡ Some request }
{
    if draws(matches) || flag_in(matches, "page") {
        return None;
    }
    let completion = completion_in(matches);
    let expect = expect_in(matches)?;
    let device_only = flag_in(matches, "device-only-real");
    Some(CoverRequest {
        completion,
        expect,
        device_only,
    })
}

/// Whether an option of drawn lists is given.
fn draws<'a>(matches: &ArgMatches<'a>) -> bool
    ensures { result ≡ draws (rows_of (found_of matches.now)) }
{
    counts(matches)
        || is_said(matches, "ring")
        || is_said(matches, "pairs")
        || is_said(matches, "off")
        || is_said(matches, "recommended")
}

/// Whether an option is given among the words. An omitted one may still have a value, its default.
pub(crate) fn is_said<'a>(matches: &ArgMatches<'a>, id: &str) -> bool
    ensures { result ≡ is_said id.now (rows_of (found_of matches.now)) }
{
    by_words(matches.value_source(id))
}

/// Whether a value comes from the words.
fn by_words(source: Option<ValueSource>) -> bool
    ensures { result ≡ by_words source }
{
    matches!(source, Some(ValueSource::CommandLine))
}
