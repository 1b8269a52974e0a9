//! Errors in the words of a command, with the usage of that command.
ghost use Rattle.std.specs.Prelude.{◌≡◌, ◌⊎◌, IfOk};
ghost use Rattle.clap.specs.Words.{kind_of};
ghost use Rattle.clap.specs.declared.error.kind.ErrorKind.TheVariants.{OutOfMemory};

use crate::arguments::Param;
use crate::building::{CommandEntry, made};
use crate::program::{first, program, second};
use clap::error::ErrorKind;
use clap::{Command, Error};
use std::alloc::{AllocError, Global};

/// The first and the last words of an error of `clap` that shows no usage.
const BEGIN: &str = "error: ";

const END: &str = "\n\nFor more information, try '--help'.\n";

/// The beginning of the usage.
const USAGE: &str = "\n\nUsage: ";

/// Returns an error of this kind in the words of a command, with the command's usage. Its kind is `OutOfMemory` if
/// memory is missing.
pub(crate) fn error_of(alloc: Global, command: &str, kind: ErrorKind, text: &str) -> Error
    ensures { (kind_of result ≡ kind) ⊎ (kind_of result ≡ OutOfMemory) }
{
    match told(alloc, command, kind, text) {
        Ok(error) => error,
        Err(memory) => Error::from(memory),
    }
}

/// Returns that error, if there is memory.
fn told(alloc: Global, command: &str, kind: ErrorKind, text: &str) -> Result<Error, AllocError>
    ensures { IfOk result (λ e. kind_of e ≡ kind) }
{
    let mut command = named(alloc, command)?;
    command.error(kind, text)
}

/// Builds the command with this name, or the program if there is none.
fn named<'a>(alloc: Global, name: &str) -> Result<Command<'a>, AllocError> {
    let Some(entry) = entry_of(name) else {
        return program(alloc);
    };
    let whole = format!(in alloc; "poll82599 {name}")?;
    made(alloc, entry)?.bin_name(whole.as_str())
}

/// Returns the entry of the command with this name.
fn entry_of(name: &str) -> Option<&'static CommandEntry<'static>> {
    match entry_in(first(), name) {
        Some(entry) => Some(entry),
        None => entry_in(second(), name),
    }
}

/// Returns the entry with this name among these.
fn entry_in(
    entries: &'static [CommandEntry<'static>],
    name: &str,
) -> Option<&'static CommandEntry<'static>> {
    for entry in entries {
        if entry.name == name {
            return Some(entry);
        }
    }
    None
}

/// Completes an error of `clap` in these words. An error about a value, which shows no usage, gets the command's. If
/// the value is not a number in the range of its option, the error also gets the option's help, which states the range.
pub(crate) fn completed(alloc: Global, words: &[String], error: Error) -> Error
    ensures { (kind_of result ≡ kind_of error) ⊎ (kind_of result ≡ OutOfMemory) }
{
    let kind = error.kind();
    let Some(name) = words.first() else {
        return error;
    };
    match value_text(alloc, name.as_str(), &error) {
        Ok(Some(text)) => error_of(alloc, name.as_str(), kind, text.as_str()),
        Ok(None) => error,
        Err(memory) => Error::from(memory),
    }
}

/// Returns the text of an error about a value of this command, and `None` for any other error.
fn value_text(alloc: Global, name: &str, error: &Error) -> Result<Option<String>, AllocError> {
    if !matches!(
        error.kind(),
        ErrorKind::ValueValidation | ErrorKind::InvalidValue
    ) {
        return Ok(None);
    }
    let whole = format!(in alloc; "{error}")?;
    let Some(text) = between(whole.as_str()) else {
        return Ok(None);
    };
    let text = match ranged(name, text) {
        Some((value, id, help)) => format!(in alloc; "{value}' for '--{id} <N>': {help}")?,
        None => String::from_str(alloc, text)?,
    };
    Ok(Some(text))
}

/// Returns what an error of `clap` says, if it shows no usage.
fn between(whole: &str) -> Option<&str> {
    let text = whole.strip_prefix(BEGIN)?.strip_suffix(END)?;
    if text.contains(USAGE) {
        return None;
    }
    Some(text)
}

/// If this text says that a value is not valid for an option with a number, returns the text before the end of the
/// value, the option, and its help.
fn ranged<'t>(name: &str, text: &'t str) -> Option<(&'t str, &'t str, &'static str)> {
    let (value, rest) = text.rsplit_once("' for '--")?;
    let (id, _) = rest.split_once(" <N>': ")?;
    let help = help_of(entry_of(name)?, id)?;
    Some((value, id, help))
}

/// Returns the help of an option with a number.
fn help_of(entry: &'static CommandEntry<'static>, option: &str) -> Option<&'static str> {
    for param in entry.params {
        match *param {
            Param::Number { id, help, .. } | Param::Said { id, help } | Param::Share { id, help } =>
                {
                    if id == option {
                        return Some(help);
                    }
                }
            _ => {}
        }
    }
    None
}
