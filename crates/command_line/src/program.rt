//! The program's commands and their parameters.
ghost use Rattle.std.specs.Prelude.{◌≡◌, IfOk, map};
ghost use Rattle.std.specs.String.{string_bytes};
ghost use Rattle.clap.specs.Words.{App, app_of};
ghost use Rattle.command_line.specs.Building.{BeginProgram, CompleteProgram, IsJoined};
ghost use Rattle.command_line.specs.CommandLine.{AreParsed, IsBeginning, IsProgram, bare_app};

use crate::arguments::Param;
use crate::building::{CommandEntry, having, made};
use clap::{ArgMatches, Command, Error};
use std::alloc::{AllocError, Global};

/// The version that `--version` prints.
const VERSION: &str = "0.1.0";

/// One example of each command.
const EXAMPLES: &str =
    "Examples:\n  poll82599 once 000102030405060708090a0b0c0d\n  poll82599 decode rx back 0000000000000000030000003c000000\n  echo 'r0 A1 5' | poll82599 replay --ring 16\n  echo '0 0 fill 60 01' | poll82599 forward\n  poll82599 from-capture 0 0 < x.pcap | poll82599 forward | poll82599 to-capture 1 > y.pcap\n  poll82599 schedules --seed 1 --moves 4\n  poll82599 schedules --cover --device-only-real --expect";

/// How many descriptors each queue of a list of moves has.
const RING: Param = Param::Number {
    id: "ring",
    default: "8",
    help: "Descriptors per ring, a power of two from 8 to 4,096",
};

/// How many queue pairs a list of moves has.
const PAIRS: Param = Param::Number {
    id: "pairs",
    default: "1",
    help: "Receive and transmit queues, 1 to 8 each",
};

/// That the queues of a list of moves begin disabled.
const OFF: Param = Param::Flag {
    id: "off",
    help: "Start with disabled queues",
};

/// How the transmit queues of a list of moves report.
const HEAD: Param = Param::Flag {
    id: "head",
    help: "Report transmitted descriptors by head write-back instead of DD",
};

/// That a refusal is explained, whatever standard error is.
const EXPLAIN: Param = Param::Flag {
    id: "explain",
    help: "Explain a refusal in a second line; the default on a terminal",
};

/// The commands, each with its parameters.
const FIRST: &[CommandEntry] = &[
    CommandEntry {
        name: "once",
        about: "Pass one frame through a receive ring of 8 descriptors and print it",
        examples: "Example:\n  poll82599 once 000102030405060708090a0b0c0d\n  prints 000102030405060708090a0b0c0d",
        params: &[
            Param::Hex {
                help: "A frame of 14 to 14,336 bytes, two hex digits per byte",
            },
            EXPLAIN,
        ],
    },
    CommandEntry {
        name: "decode",
        about: "Decode the 16 bytes of a descriptor",
        examples: "Example:\n  poll82599 decode rx back 0000000000000000030000003c000000\n  prints dd 1 eop 1 length 60",
        params: &[
            Param::Choice {
                id: "ring",
                name: "RING",
                words: &["rx", "tx"],
                help: "Receive or transmit ring",
            },
            Param::Choice {
                id: "format",
                name: "FORMAT",
                words: &["read", "back"],
                help: "Format: read (as the driver posts it) or back (as the controller writes it back)",
            },
            Param::Hex {
                help: "The 16 bytes of the descriptor, two hex digits per byte",
            },
            EXPLAIN,
        ],
    },
    CommandEntry {
        name: "replay",
        about: "Make the moves of a list on model queues and print the result of each. The list is read from standard input, one move per line",
        examples: "Example:\n  echo 'r0 A1 5' | poll82599 replay --ring 16\n  prints r0 A1 place 0\n  and moves 1 of 1",
        params: &[
            RING,
            PAIRS,
            OFF,
            HEAD,
            Param::Flag {
                id: "lists",
                help: "Start over with new queues after each line `# end`, with a count for each list, so that the output of schedules can be replayed as it is",
            },
            Param::Flag {
                id: "json",
                help: "Print each result as a JSON object",
            },
            Param::Flag {
                id: "registers",
                help: "Print head, tail and ENABLE of the queue after each move",
            },
            Param::Optional {
                id: "picture",
                name: "WHICH",
                value: "each",
                help: "Draw the queue after each move, one line per place; with =last only after the last move. Not with --json",
            },
            Param::Flag {
                id: "page",
                help: "Print an HTML page that shows the queues after each move. Not with --json, --registers and --picture",
            },
            EXPLAIN,
        ],
    },
];

/// The commands that forward or convert frames, or print lists of moves.
const SECOND: &[CommandEntry] = &[
    CommandEntry {
        name: "forward",
        about: "Forward the frames of a script between two ports, and print the frames that left and the counts of each flow. The script is read from standard input, one frame per line; with --capture, only if standard input is not a terminal and no capture",
        examples: "Examples:\n  echo '0 0 fill 14 05' | poll82599 forward\n  prints 1 0 0506050505050505050505050505\n  and flow 0 0 offered 1 stored 1 dropped 0 oversize 0 taken 1 posted 1 tx-dropped 0 wire 1 left 0 ended drained\n  and flow 1 0 offered 0 stored 0 dropped 0 oversize 0 taken 0 posted 0 tx-dropped 0 wire 0 left 0 ended drained\n\n  echo '1 0 fill 9000 00' | poll82599 forward --ring 8 --bsize 1024\n  prints flow 0 0 offered 0 stored 0 dropped 0 oversize 0 taken 0 posted 0 tx-dropped 0 wire 0 left 0 ended drained\n  and flow 1 0 offered 1 stored 0 dropped 0 oversize 1 taken 0 posted 0 tx-dropped 0 wire 0 left 0 ended drained",
        params: &[
            Param::Number {
                id: "pairs",
                default: "1",
                help: "Queue pairs per port, 1 to 8",
            },
            Param::Number {
                id: "ring",
                default: "512",
                help: "Descriptors per ring, a power of two from 8 to 4,096",
            },
            Param::Number {
                id: "buffers",
                default: "4096",
                help: "Buffers in the pool, 16 to 65,536, and at least 32 per queue pair",
            },
            Param::Number {
                id: "bsize",
                default: "2048",
                help: "Bytes to which a receive buffer is filled, 1,024 or 2,048",
            },
            Param::Number {
                id: "batch",
                default: "32",
                help: "Most packets that a driver takes at once, 1 to 32",
            },
            Param::Number {
                id: "rs-every",
                default: "32",
                help: "Frames per transmit report that a driver requests, 1 to 4,096",
            },
            Param::Number {
                id: "workers",
                default: "1",
                help: "Driver threads, and as many controller threads, 1 to twice the number of queue pairs",
            },
            Param::Number {
                id: "turns",
                default: "0",
                help: "Cut a flow after this many turns of its driver, 0 to 4,294,967,295; 0 means never",
            },
            Param::Number {
                id: "repeat",
                default: "1",
                help: "Offer the frames this many times, 1 to 1,000,000",
            },
            Param::Flag {
                id: "drop",
                help: "Drop frames that find too few free receive descriptors (default: hold them)",
            },
            Param::Flag {
                id: "no-retry",
                help: "Drop packets that do not fit into the transmit ring (default: keep them)",
            },
            Param::Flag {
                id: "head",
                help: "Report transmitted descriptors by head write-back (default: by DD in the descriptors)",
            },
            Param::Flag {
                id: "quiet",
                help: "Do not print the frames that left",
            },
            Param::Flag {
                id: "json",
                help: "Print the counts of each flow and of each port as JSON objects",
            },
            Param::Flag {
                id: "progress",
                help: "Show progress on standard error once a second, with --json as a JSON object",
            },
            Param::Flag {
                id: "rate",
                help: "Print frames, bytes, seconds, Mpps and Gbit/s on standard error at the end, with --json as a JSON object",
            },
            Param::File {
                id: "capture",
                name: "P:Q=FILE",
                help: "Forward the frames of the capture FILE, which enter port P, queue Q, before those of a script; may be repeated",
            },
            Param::Flag {
                id: "skip",
                help: "Leave out records of captures that are truncated, cut by a snap length, longer than 15,000 or shorter than 14 bytes, and report how many",
            },
            Param::Said {
                id: "limit",
                help: "Read at most this many frames of each capture, 0 to 4,294,967,295",
            },
            Param::File {
                id: "wire-capture",
                name: "P=FILE",
                help: "Write what leaves port P to the capture FILE, queue by queue, frame k at k microseconds; may be repeated",
            },
            EXPLAIN,
        ],
    },
    CommandEntry {
        name: "from-capture",
        about: "Print the frames of a capture as lines of a script. The capture (pcap or pcapng, Ethernet) is read from standard input",
        examples: "Example:\n  poll82599 from-capture 0 3 < x.pcap | poll82599 forward --pairs 4\n  forwards the frames of x.pcap, which enter port 0, queue 3",
        params: &[
            Param::Port {
                help: "Port that the frames enter, 0 or 1",
            },
            Param::Queue {
                help: "Queue of that port, 0 to 7",
            },
            Param::Flag {
                id: "skip",
                help: "Leave out records that are truncated, cut by a snap length, longer than 15,000 or shorter than 14 bytes, and report on standard error how many",
            },
            Param::Said {
                id: "limit",
                help: "Read at most this many frames, 0 to 4,294,967,295",
            },
            EXPLAIN,
        ],
    },
    CommandEntry {
        name: "to-capture",
        about: "Write the frames of one port as a capture. The frames are read from standard input: a script, or the output of forward. Frame k has the time k microseconds",
        examples: "Example:\n  echo '0 0 fill 60 05' | poll82599 forward | poll82599 to-capture 1 | tcpdump -r -\n  shows what left port 1",
        params: &[
            Param::Port {
                help: "Port whose frames are written, 0 or 1",
            },
            EXPLAIN,
        ],
    },
    CommandEntry {
        name: "schedules",
        about: "Print lists of moves for testing a driver or an emulator: drawn from a seed, the same on every machine, or covering everything that one queue can do",
        examples: "Examples:\n  poll82599 schedules --seed 1 --moves 4\n  prints r0 A1 50788\n  and t0 B1 4685 14 0 0 31\n  and t0 B1 44665 17 1 1 31\n  and t0 B7\n  and # end\n\n  poll82599 schedules --cover --device-only-real\n  prints first # r0 A4 driver On controller serving: not enabled\n  and r0 A4\n  and # end\n\nWhich lists to use:\n  The covering lists (--cover) are short. Each meets one pair of a state and a move on a queue of 8, so they miss mistakes that show\n  only late in a long list. Of 14 mistakes in an emulator that was written from the documentation alone, they found 5; drawn\n  lists of the size of --recommended, without and with --head, from other seeds found 13; drawn lists without refused moves found 5.",
        params: &[
            Param::Said {
                id: "seed",
                help: "Select the lists, 0 to 4,294,967,295; required without --cover and --recommended",
            },
            Param::Said {
                id: "moves",
                help: "Moves per list, 0 to 4,294,967,295; required without --cover and --recommended",
            },
            Param::Number {
                id: "count",
                default: "1",
                help: "Number of lists, 0 to 4,294,967,295",
            },
            RING,
            PAIRS,
            OFF,
            HEAD,
            Param::Share {
                id: "refused",
                help: "Of a hundred moves, at most this many are not enabled, 0 to 100",
            },
            Param::Flag {
                id: "expect",
                help: "Print the output of replay after each list",
            },
            Param::Flag {
                id: "json",
                help: "With --expect, print each result as a JSON object, like replay --json",
            },
            Param::Flag {
                id: "registers",
                help: "With --expect, print head, tail and ENABLE of the queue after each move, like replay --registers",
            },
            Param::Flag {
                id: "page",
                help: "Print an HTML page that shows the lists, like replay --page. Not with --expect, its forms and --cover",
            },
            Param::Flag {
                id: "device-only-real",
                help: "Use only moves that a real 82599 and its driver make",
            },
            Param::Flag {
                id: "cover",
                help: "Print lists that together cover everything that a queue of 8 can do, each after a comment that names what it covers. Allows only --head, --expect with its forms, and --device-only-real beside it. Shows progress on standard error",
            },
            Param::Word {
                id: "driver",
                name: "FIELDS",
                help: "Draw lists that DPDK's ixgbe driver can follow. FIELDS are its thresholds, refill=F,report=R,clean=T, for rx_free_thresh, tx_rs_thresh and tx_free_thresh, which have to fit --ring of at least 32. Cannot be combined with --off, --head, --refused, --device-only-real, --cover or --recommended",
            },
            Param::Flag {
                id: "recommended",
                help: "Print the recommended lists: 4 lists of 2,000 moves from a fixed seed, of which at most 10 in 100 are not enabled. Run it without and with --head. Cannot be combined with --seed, --moves, --count, --refused, --cover or --driver",
            },
            EXPLAIN,
        ],
    },
];

/// The first commands. No other function names the list, because the prover writes it out in each that does.
pub(crate) fn first() -> &'static [CommandEntry<'static>]
    ensures { BeginProgram result.now }
{
    FIRST
}

/// The other commands, likewise.
pub(crate) fn second() -> &'static [CommandEntry<'static>]
    ensures { CompleteProgram result.now }
{
    SECOND
}

/// Parses the words after the program's name. Returns an error of `clap` if they are mistaken, if they ask for help or
/// the version, or if memory is missing.
pub(crate) fn matches_of<'a>(alloc: Global, words: &'a [String]) -> Result<ArgMatches<'a>, Error>
    ensures { AreParsed (map string_bytes words.entry.now) result }
{
    program(alloc)?.try_get_matches_from(words)
}

/// Builds the program with all its commands.
pub(crate) fn program<'a>(alloc: Global) -> Result<Command<'a>, AllocError>
    ensures { IfOk result (λ c. IsProgram (app_of c)) }
{
    joined(alloc, beginning(alloc), second())
}

/// Builds the program with its first commands.
fn beginning<'a>(alloc: Global) -> Result<Command<'a>, AllocError>
    ensures { IfOk result (λ c. IsBeginning (app_of c)) }
{
    joined(alloc, bare(alloc), first())
}

/// Adds these commands to a program.
fn joined<'a>(
    alloc: Global,
    start: Result<Command<'a>, AllocError>,
    entries: &[CommandEntry<'a>],
) -> Result<Command<'a>, AllocError>
    ensures { (app : App) → IfOk start.entry (λ c. app_of c ≡ app) → IfOk result (IsJoined app entries.now) }
{
    let mut program = start;
    for entry in entries {
        program = having(program, made(alloc, entry));
    }
    program
}

/// Builds the program without its commands.
fn bare<'a>(alloc: Global) -> Result<Command<'a>, AllocError>
    ensures { IfOk result (λ c. app_of c ≡ bare_app) }
{
    let named = Command::new(alloc, "poll82599").bin_name("poll82599")?;
    Ok(
        named
            .about(
                "A packet forwarder over the descriptor rings of the Intel 82599, with emulated NIC and poll-mode driver",
            )
            .version(VERSION)
            .after_help(EXAMPLES)
            .no_binary_name(true)
            .subcommand_required(true),
    )
}
