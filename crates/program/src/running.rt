//! Runs the program: from its words to a request, and from the request to an exit status.
ghost use Rattle.std.specs.Prelude.{◌≡◌, ◌⊎◌, None, false, map};
ghost use Rattle.std.specs.String.{string_bytes};
ghost use Rattle.std.specs.Io.KnownBytes.{Keeps};
ghost use Rattle.clap.specs.Words.{kind_of};
ghost use Rattle.clap.specs.declared.error.kind.ErrorKind.TheVariants.{OutOfMemory};
ghost use Rattle.command_line.specs.CommandLine.{IsMistake, IsMisuse, SaysForward};
ghost use Rattle.command_line.specs.FileWords.{FileOptions};
ghost use Rattle.program.specs.RunEnds.{EndsForwarding, EndsSaid, config_for, intake_of};
ghost use Rattle.requests.specs.declared.printing.Printing.{Printing};
ghost use Rattle.forward_io.specs.Intakes.{reads_script};
ghost use Rattle.forward_io.specs.Streams.{outlet};
ghost use Rattle.requests.specs.Files.{streamed_port};
ghost use Rattle.settings.specs.declared.config.Config.{Config};
ghost use Rattle.command_line.specs.ParsedCommands.{IsUnshown, Says, ParsedCommand};

use crate::bounds::Host;
use crate::captured::{self, Forwarding};
use clap::error::ErrorKind;
use command_line::{Asked, asked_of, files_of};
use commands::answer;
use forward_io::captured::Intake;
use forwarder::Config as ForwardConfig;
use requests::{EXIT_REFUSED, EXIT_SUCCESS, Printing as Printed, Refusal, WireFile, refuse};
use std::alloc::Global;
use std::io::{IsTerminal, Read, Write};
use std::marker::Send;
use std::rt::Files;

/// The exit status of a command line that is not valid.
pub const EXIT_USAGE: u8 = 2;

/// The option that explains refusals. On a terminal, they are explained without it.
const EXPLAIN: &str = "--explain";

/// Runs the program on the words after its name, and returns its exit status.
///
/// Results and help go to `output`, with status 0. A refusal goes to `faults` as one line, `refused` with its number
/// and its words, with status 1; the file and the line or the record of the input that it concerns come first, if there
/// are any. An error of the command line goes to `faults`, with status 2. A failed write to `faults` does not change
/// the status.
///
/// With `forward --capture`, the frames of captures are forwarded, and then those of the script of `input`, unless `input`
/// is a terminal, as `is_terminal` says, or one of the captures. The frames that leave a port also go to the files of `--wire-capture`; if one is standard output, its
/// capture replaces the page on `output`, and the counts go to `screen`. `screen` is a second handle to standard error,
/// where `forward --progress` and `schedules --cover` show their progress, and `forward --rate` its rate.
///
/// With the word `--explain`, or if `screen` is a terminal, a second line on `faults` explains a refusal, and
/// `forward --turns` names on `screen` the flows that were cut before all their frames were offered.
pub fn run<R: Host + Sync + Files, I: Read, W: Write, E: Write, M: Write + IsTerminal + Send>(
    rt: &R,
    alloc: Global,
    words: &[String],
    input: &mut I,
    is_terminal: bool,
    output: &mut W,
    faults: &mut E,
    screen: &mut M,
) -> u8
    ensures status { (result ≡ EXIT_SUCCESS) ⊎ (result ≡ EXIT_REFUSED) ⊎ (result ≡ EXIT_USAGE) }
    ensures done { result ≡ EXIT_SUCCESS → Keeps (E.contents faults.old) (E.contents faults.new) }
    ensures screen { IsUnshown (map string_bytes words.now) → screen.new ≡ screen.old }
    ensures misused { result ≡ EXIT_USAGE → Keeps (W.contents output.old) (W.contents output.new) }
    ensures misuse { IsMisuse (map string_bytes words.now)
        → ((result ≡ EXIT_USAGE) ⊎ (result ≡ EXIT_REFUSED)) × Keeps (W.contents output.old) (W.contents output.new) }
    ensures ends { (saying : ParsedCommand) → Says (map string_bytes words.now) saying
        → EndsSaid saying is_terminal (I.remaining input.old) result (W.contents output.old) (W.contents output.new) }
    ensures unread { (config : Config) (printing : Printing) (files : FileOptions) → SaysForward (map string_bytes words.now) config printing files
        → reads_script (intake_of files is_terminal) ≡ false → input.new ≡ input.old }
{
    let explain = screen.is_terminal() || says_explain(words);
    match asked_of(alloc, words) {
        Ok(Asked::Request(request)) => answer(rt, alloc, request, input, output, faults, explain),
        Ok(Asked::Forward { config, printing }) => forward(
            rt,
            alloc,
            words,
            &config,
            printing,
            input,
            is_terminal,
            output,
            faults,
            screen,
            explain,
        ),
        Ok(Asked::Capture(request)) => {
            forward_io::piped::answer(alloc, request, input, output, faults, screen, explain)
        }
        Ok(Asked::Schedules(request)) => {
            schedule_command::answer(alloc, &request, output, faults, explain)
        }
        Ok(Asked::Cover(request)) => {
            schedule_command::covering::answer(alloc, &request, output, faults, screen, explain)
        }
        Err(error) => tell(&error, output, faults),
    }
}

/// Whether `--explain` is among the words. It is never the value of an option.
fn says_explain(words: &[String]) -> bool {
    words.iter().any(|word| word.as_str() == EXPLAIN)
}

/// The configuration by which a run with these wire files forwards: the frames that leave are kept if they are printed or
/// written to files.
fn config_for(config: &ForwardConfig, quiet: bool, wires: &[WireFile<'_>]) -> ForwardConfig
    ensures { result ≡ config_for config.now quiet wires.now }
{
    ForwardConfig {
        keep: !quiet || !wires.is_empty(),
        ..*config
    }
}

/// Forwards under this configuration, with the files in the words, and returns the status.
fn forward<R: Host + Sync + Files, I: Read, W: Write, E: Write, M: Write + IsTerminal + Send>(
    rt: &R,
    alloc: Global,
    words: &[String],
    config: &ForwardConfig,
    printing: Printed,
    input: &mut I,
    is_terminal: bool,
    output: &mut W,
    faults: &mut E,
    screen: &mut M,
    explain: bool,
) -> u8
    ensures status { (result ≡ EXIT_SUCCESS) ⊎ (result ≡ EXIT_REFUSED) ⊎ (result ≡ EXIT_USAGE) }
    ensures done { result ≡ EXIT_SUCCESS → Keeps (E.contents faults.old) (E.contents faults.new) }
    ensures misused { result ≡ EXIT_USAGE → Keeps (W.contents output.old) (W.contents output.new) }
    ensures screen { (said : Config) (shown : Printing) (files : FileOptions) → SaysForward (map string_bytes words.now) said shown files
        → printing.progress ≡ false → printing.rate ≡ false → streamed_port files.wires ≡ None → files.reading.skip ≡ false → config.now.turns ≡ 0 → screen.new ≡ screen.old }
    ensures ends { (said : Config) (shown : Printing) (files : FileOptions) → SaysForward (map string_bytes words.now) said shown files
        → EndsForwarding (config_for config.now printing.quiet files.wires) (outlet printing files.wires) (intake_of files is_terminal) (I.remaining input.old) result (W.contents output.old) (W.contents output.new) }
    ensures unread { (said : Config) (shown : Printing) (files : FileOptions) → SaysForward (map string_bytes words.now) said shown files
        → reads_script (intake_of files is_terminal) ≡ false → input.new ≡ input.old }
{
    match files_of(alloc, words) {
        Ok(files) => {
            let wires = files.wires.as_slice();
            let asked = Forwarding {
                config: &config_for(config, printing.quiet, wires),
                printing,
                intake: Intake {
                    sources: files.sources.as_slice(),
                    reading: files.reading,
                    is_terminal,
                },
                wires,
                explain,
            };
            captured::answer(rt, alloc, &asked, input, output, faults, screen)
        }
        Err(error) => tell(&error, output, faults),
    }
}

/// Prints the help or the error of `clap`, and returns the status.
fn tell<W: Write, E: Write>(error: &clap::Error, output: &mut W, faults: &mut E) -> u8
    ensures status { (result ≡ EXIT_SUCCESS) ⊎ (result ≡ EXIT_REFUSED) ⊎ (result ≡ EXIT_USAGE) }
    ensures done { result ≡ EXIT_SUCCESS → Keeps (E.contents faults.old) (E.contents faults.new) }
    ensures misused { result ≡ EXIT_USAGE → Keeps (W.contents output.old) (W.contents output.new) }
    ensures mistake { IsMistake (kind_of error.now) → result ≡ EXIT_USAGE }
    ensures memory { kind_of error.now ≡ OutOfMemory
        → (result ≡ EXIT_REFUSED) × Keeps (W.contents output.old) (W.contents output.new) }
{
    if error.kind() == ErrorKind::OutOfMemory {
        return refuse(faults, Refusal::Memory);
    }
    if error.use_stderr() {
        let _ = write!(faults, "{error}");
        return EXIT_USAGE;
    }
    match write!(output, "{error}").and_then(|()| output.flush()) {
        Ok(()) => EXIT_SUCCESS,
        Err(_) => refuse(faults, Refusal::Output),
    }
}
