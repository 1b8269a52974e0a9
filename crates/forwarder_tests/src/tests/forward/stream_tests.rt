//! Failing streams and allocations.

use crate::tests::failing::{each_beginning, each_cut, is_refused};
use crate::tests::forward::forty::{FORTY_WORDS, forty, forty_forwarded};
use crate::tests::runs::Host;
use crate::tests::streams::{Input, Output, PIECE, Screen};
use crate::tests::wanted::{holds, same};
use forwarder::Config;
use program::perform;
use requests::Printing;
use std::alloc::Global;

const WORDS: &[&str] = &["forward"];

const SCRIPT: &str = "0 0 fill 14 05\n";

/// The output of the script.
const PRINTED: &str = "1 0 0506050505050505050505050505\n\
     flow 0 0 offered 1 stored 1 dropped 0 oversize 0 taken 1 posted 1 tx-dropped 0 wire 1 left 0 ended drained\n\
     flow 1 0 offered 0 stored 0 dropped 0 oversize 0 taken 0 posted 0 tx-dropped 0 wire 0 left 0 ended drained\n";

#[test]
fn an_output_that_fails_has_a_beginning(rt: HostRuntime) {
    let rooms = [0, 1, 32, 33, 34, 200];
    each_beginning(&rt, rt.alloc(), (WORDS, SCRIPT), PRINTED.as_bytes(), &rooms)
}

/// Words, and the part of the input that can be read.
const CUT: &[(&[&str], &[u8])] = &[
    (WORDS, b""),
    (WORDS, b"0 0 fill 14 05\n"),
    (WORDS, b"0 0 fill 14 05\n2 0 00\n"),
];

#[test]
fn an_input_that_fails_in_mid_stream_is_refused(rt: HostRuntime) {
    each_cut(&rt, rt.alloc(), CUT)
}

/// When `pieces` pieces of the output of the 40 frames can be written, these are written.
fn stops_writing<R: Host>(rt: &R, alloc: Global, (script, printed): (&str, &str), pieces: usize) {
    let streams = (
        Input::of(script.as_bytes()),
        Output::of_pieces(alloc, pieces),
    );
    let taken = is_refused(rt, alloc, FORTY_WORDS, streams, "refused 84 output\n");
    let beginning = printed.as_bytes().get(..pieces.saturating_mul(PIECE));
    same(rt, Some(taken.as_slice()), beginning);
}

#[test]
fn each_write_that_fails_leaves_a_beginning(rt: HostRuntime) {
    let script = forty(rt.alloc()).expect(&rt, "memory");
    let printed = forty_forwarded(rt.alloc()).expect(&rt, "memory");
    let texts = (script.as_str(), printed.as_str());
    for pieces in 0..printed.len().div_ceil(PIECE) {
        stops_writing(&rt, rt.alloc(), texts, pieces);
    }
}

/// When only `pieces` pieces of the script of the 40 frames can be read, nothing is written.
fn stops_reading<R: Host>(rt: &R, alloc: Global, script: &str, pieces: usize) {
    let streams = (
        Input::of_pieces(script.as_bytes(), pieces),
        Output::new(alloc),
    );
    let taken = is_refused(rt, alloc, FORTY_WORDS, streams, "refused 82 input\n");
    holds(rt, taken.is_empty());
}

#[test]
fn each_read_that_fails_is_refused(rt: HostRuntime) {
    let script = forty(rt.alloc()).expect(&rt, "memory");
    for pieces in 0..=script.len().div_ceil(PIECE) {
        stops_reading(&rt, rt.alloc(), script.as_str(), pieces);
    }
}

// This also passes when any one allocation fails, as with `rt try --test --fail-alloc N`.
#[test]
fn want_of_memory(rt: HostRuntime) {
    let mut input = Input::of(SCRIPT.as_bytes());
    let mut output = Output::narrow(rt.alloc(), 400);
    let mut screen = Screen::new(rt.alloc(), false);
    match perform(
        &rt,
        rt.alloc(),
        &Config::default(),
        Printing::default(),
        &mut input,
        &mut output,
        &mut screen,
    ) {
        Ok(()) => same(&rt, output.taken.as_slice(), PRINTED.as_bytes()),
        Err(refusal) => {
            let number = refusal.number();
            holds(&rt, [61, 63, 77, 83, 84].contains(&number));
            holds(&rt, output.taken.is_empty());
        }
    }
}
