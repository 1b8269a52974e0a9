//! Reads the form of the output of `replay` from matches.
ghost use Rattle.std.specs.Prelude.{◌≡◌, Some};
ghost use Rattle.clap.specs.Words.{found_of, rows_of};
ghost use Rattle.requests.specs.declared.replay.ReplayOutput.{ReplayOutput};
ghost use Rattle.command_line.specs.ShownWords.{HasShown, form_of};

use crate::drawings::{draws_any, pictures_in};
use crate::reading::flag_in;
use clap::ArgMatches;
use requests::{PAGE, Pictures, ReplayOutput};

/// Reads the form from matches of `replay`. Returns `None` if `--picture` is not valid or is given with `--json`, or if
/// `--page` is given with one of `--json`, `--registers` and `--picture`.
pub(crate) fn shown_in<'a>(replay: &ArgMatches<'a>) -> Option<ReplayOutput>
    ensures { (shown : ReplayOutput) → HasShown (rows_of (found_of replay.now)) shown → result ≡ Some shown }
{
    let json = flag_in(replay, "json");
    let registers = flag_in(replay, "registers");
    let page = flag_in(replay, "page");
    let pictures = pictures_in(replay)?;
    form_of(page, json, registers, pictures)
}

/// Returns the form for the values of the four options, if they may stand together.
fn form_of(page: bool, json: bool, registers: bool, pictures: Pictures) -> Option<ReplayOutput>
    ensures { result ≡ form_of page json registers pictures }
{
    let draws = draws_any(pictures);
    if page {
        if json || registers || draws {
            return None;
        }
        return Some(PAGE);
    }
    if json && draws {
        return None;
    }
    Some(ReplayOutput {
        json,
        registers,
        pictures,
    })
}
