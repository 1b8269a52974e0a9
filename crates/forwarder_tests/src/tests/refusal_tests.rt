//! The line of each refusal, also of those that no test brings about.

use crate::tests::wanted::same;
use buffer_pool::PoolError;
use commands::Refusal::{
    self, Descriptor, FileNotRead, FileNotWritten, Forward, FrameLength, Hex, Input, Machine,
    Output, Ring, SameFile, Stock,
};
use commands::{EXIT_REFUSED, refuse};
use descriptor::DescError;
use forwarding::ForwardError;
use ring_machine::MachineError;
use rx_ring::RingError;
use std::alloc::Global;
use std::process::Abort;
use wire_script::ScriptError::{self, Bytes, Fields, Port, Queue, TooMany};

const LINES: &[(Refusal, &str)] = &[
    (Descriptor(DescError::Length), "refused 1 length\n"),
    (Descriptor(DescError::Reserved), "refused 2 reserved\n"),
    (Descriptor(DescError::Kind), "refused 3 type\n"),
    (Descriptor(DescError::Size), "refused 4 size\n"),
    (
        Machine(MachineError::NotEnabled),
        "refused 11 not enabled\n",
    ),
    (
        Machine(MachineError::RingLength),
        "refused 12 ring length\n",
    ),
    (Machine(MachineError::Memory), "refused 13 memory\n"),
    (Refusal::Move { line: 7 }, "line 7: refused 14 move\n"),
    (Ring(RingError::RingLength), "refused 21 ring length\n"),
    (Ring(RingError::Memory), "refused 22 memory\n"),
    (Stock(PoolError::Memory), "refused 31 memory\n"),
    (Stock(PoolError::Count), "refused 34 count\n"),
    (FrameLength, "refused 41 frame length\n"),
    (Forward(ForwardError::Memory), "refused 61 memory\n"),
    (Forward(ForwardError::Gate), "refused 62 gate\n"),
    (Forward(ForwardError::Thread), "refused 63 thread\n"),
    (Refusal::Thread, "refused 63 thread\n"),
    (Forward(ForwardError::Config), "refused 64 config\n"),
    (Hex, "refused 81 hex\n"),
    (Input, "refused 82 input\n"),
    (Refusal::Memory, "refused 83 memory\n"),
    (Output, "refused 84 output\n"),
    (FileNotRead { code: None }, "refused 85 file not read\n"),
    (
        FileNotWritten { code: Some(28) },
        "refused 86 file not written\n",
    ),
    (SameFile, "refused 87 same file\n"),
];

/// Each refusal of a script, and its line.
const OF_SCRIPTS: &[(ScriptError, &str)] = &[
    (Fields { line: 1 }, "line 1: refused 71 fields\n"),
    (Port { line: 2 }, "line 2: refused 72 port\n"),
    (Queue { line: 3 }, "line 3: refused 73 queue\n"),
    (Bytes { line: 4 }, "line 4: refused 74 bytes\n"),
    (
        ScriptError::FrameLength { line: 5 },
        "line 5: refused 75 frame length\n",
    ),
    (
        TooMany { line: 1_000_001 },
        "line 1000001: refused 76 too many\n",
    ),
    (ScriptError::Memory, "refused 77 memory\n"),
];

/// A refusal is printed as this line.
fn has_line<R: Abort>(rt: &R, alloc: Global, refusal: Refusal, line: &str) {
    let mut faults = Vec::new(alloc);
    let status = refuse(&mut faults, refusal);
    same(
        rt,
        (status, faults.as_slice()),
        (EXIT_REFUSED, line.as_bytes()),
    );
}

#[test]
fn refusals_have_their_words(rt: HostRuntime) {
    for (refusal, line) in LINES {
        has_line(&rt, rt.alloc(), *refusal, line);
    }
    for (error, line) in OF_SCRIPTS {
        has_line(&rt, rt.alloc(), Refusal::Script(*error), line);
    }
}
