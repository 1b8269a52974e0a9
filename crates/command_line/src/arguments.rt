//! The options and arguments of a command as data, and the `clap` argument for each.
ghost use Rattle.std.specs.Prelude.{◌≡◌, false, true};
ghost use Rattle.clap.specs.Words.{new_rule, rule_of};
ghost use Rattle.command_line.specs.CaptureWords.{port_rule, queue_rule};
ghost use Rattle.command_line.specs.CommandLine.{choice_rule, hex_rule};
ghost use Rattle.command_line.specs.FileWords.{file_rule};
ghost use Rattle.command_line.specs.OptionWords.{flag_rule, named_rule, number_rule, optional_rule, word_rule};
ghost use Rattle.command_line.specs.Params.{rule_for};
ghost use Rattle.command_line.specs.ScheduleWords.{said_rule, share_rule};

use clap::{Arg, ArgAction, value_parser};
use std::alloc::Global;

/// An option or an argument of a command.
pub(crate) enum Param<'a> {
    /// An option with a number, and its default.
    Number {
        id: &'a str,
        default: &'a str,
        help: &'a str,
    },
    /// An option with a number and no default.
    Said {
        id: &'a str,
        help: &'a str,
    },
    /// An option with a percentage, 0 by default.
    Share {
        id: &'a str,
        help: &'a str,
    },
    /// An option whose value may be omitted, and the value that it then has.
    Optional {
        id: &'a str,
        name: &'a str,
        value: &'a str,
        help: &'a str,
    },
    /// A flag: an option without a value.
    Flag {
        id: &'a str,
        help: &'a str,
    },
    /// An option with a word, and no default.
    Word {
        id: &'a str,
        name: &'a str,
        help: &'a str,
    },
    /// An option with a file name, which may be repeated.
    File {
        id: &'a str,
        name: &'a str,
        help: &'a str,
    },
    /// An argument of hex digits.
    Hex {
        help: &'a str,
    },
    /// An argument with one of these words.
    Choice {
        id: &'a str,
        name: &'a str,
        words: &'a [&'a str],
        help: &'a str,
    },
    /// A port, 0 or 1.
    Port {
        help: &'a str,
    },
    /// A queue, 0 to 7.
    Queue {
        help: &'a str,
    },
}

impl<'a> Param<'a> {
    /// Returns the `clap` argument.
    pub(crate) fn arg(&self, alloc: Global) -> Arg<'a>
        ensures rule { rule_of result ≡ rule_for self.now }
        ensures local { result.global ≡ false }
    {
        match *self {
            Param::Number { id, default, help } => number(alloc, id, default, help),
            Param::Said { id, help } => said(alloc, id, help),
            Param::Share { id, help } => share(alloc, id, help),
            Param::Optional {
                id,
                name,
                value,
                help,
            } => optional(alloc, id, name, value, help),
            Param::Flag { id, help } => flag(alloc, id, help),
            Param::Word { id, name, help } => word(alloc, id, name, help),
            Param::File { id, name, help } => file(alloc, id, name, help),
            Param::Hex { help } => hex(alloc, help),
            Param::Choice {
                id,
                name,
                words,
                help,
            } => choice(alloc, id, name, words, help),
            Param::Port { help } => port(alloc, help),
            Param::Queue { help } => queue(alloc, help),
        }
    }
}

/// An option with this name.
fn named<'a>(alloc: Global, id: &'a str, help: &'a str) -> Arg<'a>
    ensures rule { rule_of result ≡ named_rule id.entry.now }
    ensures local { result.global ≡ false }
{
    Arg::new(alloc, id).long(id).help(help)
}

/// An option whose value is called N in help.
fn numeric<'a>(alloc: Global, id: &'a str, help: &'a str) -> Arg<'a>
    ensures rule { rule_of result ≡ record (named_rule id.entry.now) { value_names = 1 } }
    ensures local { result.global ≡ false }
{
    named(alloc, id, help).value_name("N")
}

fn number<'a>(alloc: Global, id: &'a str, default: &'a str, help: &'a str) -> Arg<'a>
    ensures rule { rule_of result ≡ number_rule id.entry.now default.entry.now }
    ensures local { result.global ≡ false }
{
    numeric(alloc, id, help)
        .value_parser(value_parser!(u32))
        .default_value(default)
}

fn said<'a>(alloc: Global, id: &'a str, help: &'a str) -> Arg<'a>
    ensures rule { rule_of result ≡ said_rule id.entry.now }
    ensures local { result.global ≡ false }
{
    numeric(alloc, id, help).value_parser(value_parser!(u32))
}

fn share<'a>(alloc: Global, id: &'a str, help: &'a str) -> Arg<'a>
    ensures rule { rule_of result ≡ share_rule id.entry.now }
    ensures local { result.global ≡ false }
{
    numeric(alloc, id, help)
        .value_parser(value_parser!(u32).range(0..=100))
        .default_value("0")
}

fn optional<'a>(alloc: Global, id: &'a str, name: &'a str, value: &'a str, help: &'a str) -> Arg<'a>
    ensures rule { rule_of result ≡ optional_rule id.entry.now value.entry.now }
    ensures local { result.global ≡ false }
{
    named(alloc, id, help)
        .num_args(0..=1)
        .value_name(name)
        .default_missing_value(value)
}

fn flag<'a>(alloc: Global, id: &'a str, help: &'a str) -> Arg<'a>
    ensures rule { rule_of result ≡ flag_rule id.entry.now }
    ensures local { result.global ≡ false }
{
    named(alloc, id, help).action(ArgAction::SetTrue)
}

fn word<'a>(alloc: Global, id: &'a str, name: &'a str, help: &'a str) -> Arg<'a>
    ensures rule { rule_of result ≡ word_rule id.entry.now }
    ensures local { result.global ≡ false }
{
    named(alloc, id, help).value_name(name)
}

fn file<'a>(alloc: Global, id: &'a str, name: &'a str, help: &'a str) -> Arg<'a>
    ensures rule { rule_of result ≡ file_rule id.entry.now }
    ensures local { result.global ≡ false }
{
    named(alloc, id, help)
        .action(ArgAction::Append)
        .value_name(name)
}

/// A required argument.
fn required<'a>(alloc: Global, id: &'a str, name: &'a str, help: &'a str) -> Arg<'a>
    ensures rule { rule_of result ≡ record (new_rule id.entry.now) { value_names = 1; required = true } }
    ensures local { result.global ≡ false }
{
    Arg::new(alloc, id)
        .required(true)
        .value_name(name)
        .help(help)
}

fn hex<'a>(alloc: Global, help: &'a str) -> Arg<'a>
    ensures rule { rule_of result ≡ hex_rule }
    ensures local { result.global ≡ false }
{
    required(alloc, "hex", "HEX", help)
}

fn choice<'a>(
    alloc: Global,
    id: &'a str,
    name: &'a str,
    words: &'a [&'a str],
    help: &'a str,
) -> Arg<'a>
    ensures rule { rule_of result ≡ choice_rule id.entry.now words.entry }
    ensures local { result.global ≡ false }
{
    required(alloc, id, name, help).value_parser(words)
}

fn port<'a>(alloc: Global, help: &'a str) -> Arg<'a>
    ensures rule { rule_of result ≡ port_rule }
    ensures local { result.global ≡ false }
{
    required(alloc, "port", "PORT", help).value_parser(value_parser!(u8).range(0..=1))
}

fn queue<'a>(alloc: Global, help: &'a str) -> Arg<'a>
    ensures rule { rule_of result ≡ queue_rule }
    ensures local { result.global ≡ false }
{
    required(alloc, "queue", "QUEUE", help).value_parser(value_parser!(u8).range(0..=7))
}
