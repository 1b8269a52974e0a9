//! Turns the words of the command line, as `clap` reads them, into a request.
ghost use Rattle.std.specs.Prelude.{◌≡◌, ◌⊎◌, List, Some, codes, map, IfOk, IfSome, IsErrAnd, IsSomeAnd, MatchResult, option_map};
ghost use Rattle.std.specs.String.{string_bytes};
ghost use Rattle.clap.specs.Words.{Row, Text, kind_of, found_of, rows_of, subcommand_rows_of};
ghost use Rattle.clap.specs.declared.error.kind.ErrorKind.TheVariants.{OutOfMemory};
ghost use Rattle.requests.specs.declared.decode.DescriptorForm.{DescriptorForm};
ghost use Rattle.command_line.specs.CommandLine.{CanBeDone, HasDecode, HasForward, HasOnce, HasPrinting, HasReplay, IsDecode, IsMistake, IsMisuse, IsOnce, IsReplayOf};
ghost use Rattle.requests.specs.declared.replay.QueuePlan.{QueuePlan};
ghost use Rattle.command_line.specs.OptionWords.{HasFlag, is_head};
ghost use Rattle.ring_model.specs.declared.states.Completion.{Completion as Reports};
ghost use Rattle.settings.specs.declared.config.Config.{Config as ForwardConfig};
ghost use Rattle.requests.specs.declared.printing.Printing.{Printing as Printed};
ghost use Rattle.command_line.specs.ParsedCommands.{Holds, IsAsked, Says, ParsedCommand, name_of};

use crate::captures::{from_capture_in, to_capture_in};
use crate::drivers::driver_fault_in;
use crate::lists::lists_in;
use crate::mistakes::{completed, error_of};
use crate::program::matches_of;
use crate::reading::{flag_in, number_in, word_in};
use crate::showing::shown_in;
use clap::error::ErrorKind;
use clap::{ArgMatches, Error};
use requests::{
    CaptureRequest, CoverRequest, DescriptorForm, Printing, QueuePlan, Request, ScheduleRequest,
};
use ring_model::Completion;
use settings::Config;
use std::alloc::Global;

/// The error for missing options that `clap` does not require.
const NOT_SAID: &str = "schedules needs --seed and --moves, --recommended or --cover";

/// The error for a malformed `--picture`, or for `--picture` together with `--json`.
const NOT_SHOWN: &str =
    "--picture takes no value, or each or last (--picture=last), and cannot be combined with --json";

/// The error for `--page` together with another form of the output.
const NOT_ONE_FORM: &str = "--page cannot be combined with --json, --registers or --picture";

/// The error for `--page` together with `--cover` or a form of the expected output.
const NOT_IN_PAGE: &str = "--page cannot be combined with --expect, --json, --registers or --cover";

/// The error for options of drawn lists together with `--cover`.
const NOT_DRAWN: &str =
    "--cover cannot be combined with --seed, --moves, --count, --ring, --pairs, --off, --refused, --recommended or --driver";

/// The error for options that select drawn lists together with `--recommended`.
const NOT_CHOSEN: &str =
    "--recommended cannot be combined with --seed, --moves, --count, --refused, --cover or --driver";

/// The error for words without a command.
const NO_COMMAND: &str = "a command is required";

/// The error for a form of the expected output without `--expect`.
const NOT_EXPECTED: &str = "--json and --registers need --expect";

/// The request of a command line.
#[derive(Clone, Copy)]
pub enum Asked<'a> {
    /// A request for `once`, `decode` or `replay`.
    Request(Request<'a>),
    /// Forwards the script of standard input, or captures, and prints the report. [`files_of`](crate::files_of) returns
    /// the files that the words name.
    Forward { config: Config, printing: Printing },
    /// A request of captures.
    Capture(CaptureRequest),
    /// A request for drawn lists of moves.
    Schedules(ScheduleRequest),
    /// A request for lists of moves that together meet every reachable pair of a queue.
    Cover(CoverRequest),
}

/// Parses the words after the program's name. Returns an error of `clap` if they are mistaken, if they ask for help or
/// the version, or if memory is missing.
pub fn asked_of<'a>(alloc: Global, words: &'a [String]) -> Result<Asked<'a>, Error>
    ensures said { (saying : ParsedCommand) → Says (map string_bytes words.entry.now) saying
        → MatchResult result (IsAsked saying) (λ e. kind_of e ≡ OutOfMemory) }
    ensures can_be_done { IfOk result CanBeDone }
    ensures misuse { IsMisuse (map string_bytes words.entry.now)
        → IsErrAnd result (λ e. (kind_of e ≡ OutOfMemory) ⊎ IsMistake (kind_of e)) }
{
    match parsed(alloc, words) {
        Ok(asked) => Ok(asked),
        Err(error) => Err(completed(alloc, words, error)),
    }
}

/// The same, with the errors of `clap` as they are.
fn parsed<'a>(alloc: Global, words: &'a [String]) -> Result<Asked<'a>, Error>
    ensures said { (saying : ParsedCommand) → Says (map string_bytes words.entry.now) saying
        → MatchResult result (IsAsked saying) (λ e. kind_of e ≡ OutOfMemory) }
    ensures can_be_done { IfOk result CanBeDone }
    ensures misuse { IsMisuse (map string_bytes words.entry.now)
        → IsErrAnd result (λ e. (kind_of e ≡ OutOfMemory) ⊎ IsMistake (kind_of e)) }
{
    let matches = matches_of(alloc, words)?;
    match asked_in(&matches) {
        Some(asked) => Ok(asked),
        None => Err(fault(alloc, &matches)),
    }
}

/// Returns the error for matches without a request.
fn fault<'a>(alloc: Global, matches: &ArgMatches<'a>) -> Error {
    match matches.subcommand() {
        Some(("schedules", found)) => {
            let (kind, text) = schedules_fault_in(found);
            error_of(alloc, "schedules", kind, text)
        }
        Some(("replay", found)) if found.get_flag("page") => {
            error_of(alloc, "replay", ErrorKind::ArgumentConflict, NOT_ONE_FORM)
        }
        Some((name, found)) if found.get_flag("json") => {
            error_of(alloc, name, ErrorKind::ArgumentConflict, NOT_SHOWN)
        }
        Some((name, _)) => error_of(alloc, name, ErrorKind::InvalidValue, NOT_SHOWN),
        None => error_of(alloc, "", ErrorKind::MissingSubcommand, NO_COMMAND),
    }
}

/// Returns the kind and the text of the error for matches of `schedules`.
fn schedules_fault_in<'a>(found: &ArgMatches<'a>) -> (ErrorKind, &'static str) {
    let has_form = found.get_flag("json") || found.get_flag("registers");
    if found.get_flag("page") && has_other_form(found) {
        return (ErrorKind::ArgumentConflict, NOT_IN_PAGE);
    }
    if has_form && !found.get_flag("expect") {
        return (ErrorKind::ArgumentConflict, NOT_EXPECTED);
    }
    if let Some(fault) = driver_fault_in(found) {
        return fault;
    }
    if found.get_flag("cover") {
        (ErrorKind::ArgumentConflict, NOT_DRAWN)
    } else if found.get_flag("recommended") {
        (ErrorKind::ArgumentConflict, NOT_CHOSEN)
    } else {
        (ErrorKind::MissingRequiredArgument, NOT_SAID)
    }
}

/// Whether there is an option that excludes `--page`.
fn has_other_form<'a>(found: &ArgMatches<'a>) -> bool {
    found.get_flag("expect")
        || found.get_flag("json")
        || found.get_flag("registers")
        || found.get_flag("cover")
}

/// Reads the request from matches of the program's command line.
fn asked_in<'a>(matches: &ArgMatches<'a>) -> Option<Asked<'a>>
    ensures said { (rows : List Row) (saying : ParsedCommand) → subcommand_rows_of matches.now ≡ Some (name_of saying, rows)
        → Holds rows saying → IsSomeAnd result (IsAsked saying) }
    ensures can_be_done { IfSome result CanBeDone }
{
    match chosen(matches)? {
        ("once", once) => Some(Asked::Request(once_in(once)?)),
        ("decode", decode) => Some(Asked::Request(decode_in(decode)?)),
        ("replay", replay) => Some(Asked::Request(replay_in(replay)?)),
        ("forward", forward) => Some(Asked::Forward {
            config: config_in(forward)?,
            printing: printing_in(forward),
        }),
        ("from-capture", found) => Some(Asked::Capture(from_capture_in(found)?)),
        ("to-capture", found) => Some(Asked::Capture(to_capture_in(found)?)),
        ("schedules", found) => lists_in(found),
        _ => None,
    }
}

/// Returns the name of the command and the matches of its words.
fn chosen<'b, 'a>(matches: &'b ArgMatches<'a>) -> Option<(&'a str, &'b ArgMatches<'a>)>
    ensures { option_map (λ p. (p.0.now, rows_of (found_of p.1.now))) result ≡ subcommand_rows_of matches.now }
{
    matches.subcommand()
}

/// Reads the request from matches of `once`.
fn once_in<'a>(once: &ArgMatches<'a>) -> Option<Request<'a>>
    ensures { (digits : Text) → HasOnce (rows_of (found_of once.now)) digits
        → IsSomeAnd result (λ r. IsOnce r digits) }
{
    let digits = word_in(once, "hex")?;
    Some(Request::Once { digits })
}

/// Reads the request from matches of `decode`.
fn decode_in<'a>(decode: &ArgMatches<'a>) -> Option<Request<'a>>
    ensures { (form : DescriptorForm) (digits : Text) → HasDecode (rows_of (found_of decode.now)) form digits
        → IsSomeAnd result (λ r. IsDecode r form digits) }
{
    let form = DescriptorForm::named(word_in(decode, "ring")?, word_in(decode, "format")?)?;
    let digits = word_in(decode, "hex")?;
    Some(Request::Decode { form, digits })
}

/// Reads the request from matches of `replay`. Returns `None` if the form of the output is not valid.
fn replay_in<'a>(replay: &ArgMatches<'a>) -> Option<Request<'a>>
    ensures { (plan : QueuePlan) → HasReplay (rows_of (found_of replay.now)) plan
        → IsSomeAnd result (λ r. IsReplayOf r plan) }
{
    let ring = number_in(replay, "ring")?;
    let pairs = number_in(replay, "pairs")?;
    let enabled = !flag_in(replay, "off");
    let completion = completion_in(replay);
    let lists = flag_in(replay, "lists");
    let shown = shown_in(replay)?;
    Some(Request::Replay {
        plan: QueuePlan {
            pairs,
            ring,
            enabled,
            completion,
            lists,
            shown,
        },
    })
}

/// Reads the configuration from matches of `forward`.
fn config_in<'a>(forward: &ArgMatches<'a>) -> Option<Config>
    ensures { (config : ForwardConfig) → HasForward (rows_of (found_of forward.now)) config → result ≡ Some config }
{
    let pairs = number_in(forward, "pairs")?;
    let ring = number_in(forward, "ring")?;
    let buffers = number_in(forward, "buffers")?;
    let bsize = number_in(forward, "bsize")?;
    let batch = number_in(forward, "batch")?;
    let rs_every = number_in(forward, "rs-every")?;
    let workers = number_in(forward, "workers")?;
    let turns = number_in(forward, "turns")?;
    let repeat = number_in(forward, "repeat")?;
    let drop_en = flag_in(forward, "drop");
    let retry = !flag_in(forward, "no-retry");
    let completion = completion_in(forward);
    Some(Config {
        pairs,
        ring,
        batch,
        buffers,
        bsize,
        rs_every,
        drop_en,
        retry,
        workers,
        turns,
        repeat,
        completion,
        ..Config::DEFAULT
    })
}

/// Reads the form of the page from matches of `forward`.
fn printing_in<'a>(forward: &ArgMatches<'a>) -> Printing
    ensures { (printing : Printed) → HasPrinting (rows_of (found_of forward.now)) printing → result ≡ printing }
{
    let quiet = flag_in(forward, "quiet");
    let json = flag_in(forward, "json");
    let progress = flag_in(forward, "progress");
    let rate = flag_in(forward, "rate");
    Printing {
        quiet,
        json,
        progress,
        rate,
    }
}

/// Reads how transmit queues report from matches of a command with the flag `head`.
pub(crate) fn completion_in<'a>(matches: &ArgMatches<'a>) -> Completion
    ensures { (said : Reports) → HasFlag (rows_of (found_of matches.now)) (codes "head") (is_head said) → result ≡ said }
{
    if flag_in(matches, "head") {
        Completion::Head
    } else {
        Completion::Status
    }
}
