//! Reads what `schedules` prints beside the lists from matches.
ghost use Rattle.std.specs.Prelude.{◌≡◌, Option, Some};
ghost use Rattle.clap.specs.Words.{found_of, rows_of};
ghost use Rattle.requests.specs.declared.replay.ReplayOutput.{ReplayOutput};
ghost use Rattle.command_line.specs.ScheduleWords.{HasExpect, expect_of};

use crate::reading::flag_in;
use clap::ArgMatches;
use requests::{PAGE, Pictures, ReplayOutput};

/// Reads the form in which the output of `replay` follows each list: `Some(None)` without `--expect`, and a page with
/// `--page`. Returns `None` if a form is given without `--expect`, or if both stand together.
pub(crate) fn expect_in<'a>(matches: &ArgMatches<'a>) -> Option<Option<ReplayOutput>>
    ensures { (expect : Option ReplayOutput) → HasExpect (rows_of (found_of matches.now)) expect → result ≡ Some expect }
{
    let stands = flag_in(matches, "expect");
    let json = flag_in(matches, "json");
    let registers = flag_in(matches, "registers");
    let page = flag_in(matches, "page");
    expect_of(page, stands, json, registers)
}

/// Returns the form for the values of the four flags, if they may stand together.
fn expect_of(page: bool, stands: bool, json: bool, registers: bool) -> Option<Option<ReplayOutput>>
    ensures { result ≡ expect_of page stands json registers }
{
    if page {
        return if stands || json || registers {
            None
        } else {
            Some(Some(PAGE))
        };
    }
    if stands {
        return Some(Some(ReplayOutput {
            json,
            registers,
            pictures: Pictures::Never,
        }));
    }
    if json || registers { None } else { Some(None) }
}
