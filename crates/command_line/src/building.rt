//! Builds commands step by step. Each step takes the result of the previous one, which may be an allocation failure,
//! and returns the next. No step drops what another has built.
ghost use Rattle.std.specs.Prelude.{◌≡◌, false, IfOk};
ghost use Rattle.clap.specs.Words.{rule_of};
ghost use Rattle.command_line.specs.Building.{Grows, IsNew, Joins, entry_app};

use crate::arguments::Param;
use clap::{Arg, Command};
use std::alloc::{AllocError, Global};

/// A command of the program: its name, its help and its parameters.
pub(crate) struct CommandEntry<'a> {
    pub(crate) name: &'a str,
    pub(crate) about: &'a str,
    pub(crate) examples: &'a str,
    pub(crate) params: &'a [Param<'a>],
}

/// Builds the command of an entry.
pub(crate) fn made<'a>(alloc: Global, entry: &CommandEntry<'a>) -> Result<Command<'a>, AllocError>
    ensures { IfOk result (IsNew (entry_app entry.now)) }
{
    let mut command = Ok(
        Command::new(alloc, entry.name)
            .about(entry.about)
            .after_help(entry.examples),
    );
    for param in entry.params {
        command = with(command, param.arg(alloc));
    }
    command
}

/// Adds an option or argument to a command.
fn with<'a>(
    command: Result<Command<'a>, AllocError>,
    arg: Arg<'a>,
) -> Result<Command<'a>, AllocError>
    requires { arg.global ≡ false }
    ensures { IfOk result (Grows (rule_of arg.entry) command.entry) }
{
    command?.arg(arg)
}

/// Adds a command to a program.
pub(crate) fn having<'a>(
    program: Result<Command<'a>, AllocError>,
    command: Result<Command<'a>, AllocError>,
) -> Result<Command<'a>, AllocError>
    ensures { IfOk result (Joins program.entry command.entry) }
{
    let command = command?;
    program?.subcommand(command)
}
