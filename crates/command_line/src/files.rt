//! Reads the files of `forward` from matches.
ghost use Rattle.std.specs.Prelude.{◌≡◌, List, Some, IfOk, IsSomeAnd, MatchResult, codes, map};
ghost use Rattle.std.specs.String.{string_bytes};
ghost use Rattle.clap.specs.Words.{Row, Text, all_of, found_of, kind_of, rows_of, subcommand_rows_of};
ghost use Rattle.clap.specs.declared.error.kind.ErrorKind.TheVariants.{OutOfMemory};
ghost use Rattle.settings.specs.declared.config.Config.{Config as ForwardConfig};
ghost use Rattle.requests.specs.declared.printing.Printing.{Printing as Printed};
ghost use Rattle.command_line.specs.CommandLine.{SaysForward};
ghost use Rattle.command_line.specs.FileWords.{AreFiles, AreTold, FileOptions, HasFiles, HoldsFiles, file_values, lacks_captures};

use crate::mistakes::error_of;
use crate::program::matches_of;
use crate::reading::reading_in;
use capture::ReadOptions;
use clap::error::ErrorKind;
use clap::{ArgMatches, Error};
use requests::{Source, WireFile, source_of, wire_file_of};
use std::alloc::{AllocError, Global};

/// The error for an option's word that names no file in the required form.
const NO_FILE: &str =
    "--capture takes PORT:QUEUE=FILE, for example 0:3=x.pcap; --wire-capture takes PORT=FILE, for example 1=y.pcap";

/// The error for options of captures without a capture.
const NO_CAPTURE: &str = "--skip and --limit need --capture";

/// The files of `forward`: captures whose frames come in, and files for the frames that leave a port.
#[derive(Drop)]
pub struct ForwardFiles<'a> {
    /// The captures of `--capture`, in the order of the words.
    pub sources: Vec<Source<'a>>,
    /// How these are read.
    pub reading: ReadOptions,
    /// The files of `--wire-capture`, in the order of the words.
    pub wires: Vec<WireFile<'a>>,
}

/// Parses the files in the words after the program's name, which ask for `forward`. Returns an error of `clap` if one
/// of them is malformed, if captures are to be read with options and there are none, or if memory is missing.
pub fn files_of<'a>(alloc: Global, words: &'a [String]) -> Result<ForwardFiles<'a>, Error>
    ensures { (config : ForwardConfig) (printing : Printed) (files : FileOptions) → SaysForward (map string_bytes words.entry.now) config printing files
        → MatchResult result (λ held. HoldsFiles held files) (λ e. kind_of e ≡ OutOfMemory) }
{
    let matches = matches_of(alloc, words)?;
    match files_in(alloc, &matches)? {
        Some(files) => Ok(files),
        None => Err(fault(alloc, &matches)),
    }
}

/// Returns the error for matches whose files are not valid.
fn fault<'a>(alloc: Global, matches: &ArgMatches<'a>) -> Error {
    let (kind, text) = match matches.subcommand() {
        Some((_, forward)) if !forward.contains_id("capture") && has_options(forward) => {
            (ErrorKind::MissingRequiredArgument, NO_CAPTURE)
        }
        _ => (ErrorKind::ValueValidation, NO_FILE),
    };
    error_of(alloc, "forward", kind, text)
}

/// Whether captures are to be read with options.
fn has_options<'a>(forward: &ArgMatches<'a>) -> bool {
    forward.get_flag("skip") || forward.contains_id("limit")
}

/// Parses the files in matches of the program's command line. Returns `None` if they are not valid.
fn files_in<'a>(
    alloc: Global,
    matches: &ArgMatches<'a>,
) -> Result<Option<ForwardFiles<'a>>, AllocError>
    ensures { (rows : List Row) (files : FileOptions) → subcommand_rows_of matches.now ≡ Some (codes "forward", rows)
        → HasFiles rows files → AreFiles files → IfOk result (λ found. IsSomeAnd found (λ held. HoldsFiles held files)) }
{
    match matches.subcommand() {
        Some(("forward", forward)) => files_said(alloc, forward),
        _ => Ok(None),
    }
}

/// Parses the files in matches of `forward`. Returns `None` if one is malformed, or if there is no capture to read with
/// the options.
fn files_said<'a>(
    alloc: Global,
    forward: &ArgMatches<'a>,
) -> Result<Option<ForwardFiles<'a>>, AllocError>
    ensures { (files : FileOptions) → HasFiles (rows_of (found_of forward.now)) files → AreFiles files
        → IfOk result (λ found. IsSomeAnd found (λ held. HoldsFiles held files)) }
{
    let Some(sources) = told_in(alloc, forward, "capture", |word| source_of(word))? else {
        return Ok(None);
    };
    let Some(wires) = told_in(alloc, forward, "wire-capture", |word| wire_file_of(word))? else {
        return Ok(None);
    };
    let reading = reading_in(forward);
    if lacks_captures(sources.as_slice(), reading) {
        return Ok(None);
    }
    Ok(Some(ForwardFiles {
        sources,
        reading,
        wires,
    }))
}

/// Whether captures are to be read with options, and there are none.
fn lacks_captures(sources: &[Source<'_>], reading: ReadOptions) -> bool
    ensures { result ≡ lacks_captures sources.now reading }
{
    sources.is_empty() && (reading.skip || reading.limit.is_some())
}

/// Parses each value of an option. Returns `None` if one is malformed.
fn told_in<'a, T: Drop, F: Fn(&'a str) -> Option<T>>(
    alloc: Global,
    matches: &ArgMatches<'a>,
    id: &str,
    told: F,
) -> Result<Option<Vec<T>>, AllocError>
    requires { F.IsAlwaysCallable told }
    ensures { (texts : List Text) (xs : List T) → all_of id.now (rows_of (found_of matches.now)) ≡ file_values texts
        → AreTold (F.post told) texts xs → IfOk result (λ found. IsSomeAnd found (λ held. held.items ≡ xs)) }
{
    let mut all = Vec::new(alloc);
    for word in matches.get_strs(id).unwrap_or(&[]) {
        let Some(one) = told(word) else {
            return Ok(None);
        };
        all.push(one)?;
    }
    Ok(Some(all))
}
