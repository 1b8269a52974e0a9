//! Failing streams and allocations of `from-capture` and `to-capture`.

use crate::tests::failing::{each_beginning, each_cut};
use crate::tests::streams::{Input, Output, Screen};
use crate::tests::wanted::{holds, same};
use capture::ReadOptions;
use forward_io::piped::perform;
use requests::CaptureRequest;
use std::alloc::Global;
use std::process::Abort;

const TO: &[&str] = &["to-capture", "1"];

const FROM: &[&str] = &["from-capture", "0", "0"];

const SCRIPT: &str = "1 0 0506050505050505050505050505\n";

/// Its capture: the header of the file, little-endian, with microseconds, version 2.4, a snap length of 65,535 and Ethernet;
/// that of a record of 14 bytes at 0; and the frame.
const CAPTURE: &[u8] = b"\xd4\xc3\xb2\xa1\x02\x00\x04\x00\0\0\0\0\0\0\0\0\xff\xff\0\0\x01\0\0\0\
\0\0\0\0\0\0\0\0\x0e\0\0\0\x0e\0\0\0\x05\x06\x05\x05\x05\x05\x05\x05\x05\x05\x05\x05\x05\x05";

#[test]
fn an_output_that_fails_has_a_beginning(rt: HostRuntime) {
    let rooms = [0, 1, 23, 24, 25, 40];
    each_beginning(&rt, rt.alloc(), (TO, SCRIPT), CAPTURE, &rooms)
}

/// The part of the input that can be read: nothing, the header of a capture, a line, and the beginning of a line.
const CUT: &[(&[&str], &[u8])] = &[
    (TO, b""),
    (
        TO,
        b"\xd4\xc3\xb2\xa1\x02\x00\x04\x00\0\0\0\0\0\0\0\0\xff\xff\0\0\x01\0\0\0",
    ),
    (TO, b"1 0 0506050505050505050505050505\n"),
    (TO, b"flow "),
    (FROM, b""),
    (
        FROM,
        b"\xd4\xc3\xb2\xa1\x02\x00\x04\x00\0\0\0\0\0\0\0\0\xff\xff\0\0\x01\0\0\0",
    ),
    (FROM, b"1 0 0506050505050505050505050505\n"),
    (FROM, b"flow "),
];

#[test]
fn an_input_that_fails_in_mid_stream_is_refused(rt: HostRuntime) {
    each_cut(&rt, rt.alloc(), CUT)
}

/// The output of `to-capture`, or nothing if an allocation fails.
fn capture_written<A: Abort>(rt: &A, alloc: Global) -> Vec<u8> {
    let mut output = Output::narrow(alloc, 400);
    let request = CaptureRequest::ToCapture { port: 1 };
    let mut why = String::new(alloc);
    match perform(
        alloc,
        request,
        &mut Input::of(SCRIPT.as_bytes()),
        &mut output,
        &mut Screen::new(alloc, false),
        &mut why,
    ) {
        Ok(()) => same(rt, output.taken.len(), 54),
        Err(refusal) => {
            holds(rt, [77, 83, 84].contains(&refusal.number()));
            holds(rt, output.taken.is_empty());
        }
    }
    output.taken
}

/// `from-capture` converts that capture back to the line, or writes nothing.
fn line_is_written<A: Abort>(rt: &A, alloc: Global, capture: &[u8]) {
    let mut output = Output::narrow(alloc, 400);
    let reading = ReadOptions::default();
    let request = CaptureRequest::FromCapture {
        port: 1,
        queue: 0,
        reading,
    };
    let mut screen = Screen::new(alloc, false);
    let mut why = String::new(alloc);
    match perform(
        alloc,
        request,
        &mut Input::of(capture),
        &mut output,
        &mut screen,
        &mut why,
    ) {
        Ok(()) => same(rt, output.taken.as_slice(), SCRIPT.as_bytes()),
        Err(refusal) => {
            holds(rt, [83, 84, 91, 97].contains(&refusal.number()));
            holds(rt, output.taken.is_empty());
        }
    }
}

// This also passes when any one allocation fails, as with `rt try --test --fail-alloc N`.
#[test]
fn want_of_memory(rt: HostRuntime) {
    let capture = capture_written(&rt, rt.alloc());
    line_is_written(&rt, rt.alloc(), capture.as_slice());
}
