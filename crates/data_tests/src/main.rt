//! A test program for files: captures made by other programs, and the C header of the library.
//! Depends on `capture`, and the crates whose constants the header has.
//! Guarantees nothing; the gate compares its output.
//!
//! `data_tests read FILE..` prints each file's name. Of a capture it prints a line for each frame: its time, its length
//! on the wire and its bytes, as `tshark` prints them; or the refusal. Of a header it prints each constant that has the
//! library's value, and each that does not. The gate runs it on the files in `data/` and compares its output with the
//! output of `tshark`; `checks/header` runs it on `include/poll82599.h`. `data_tests write FROM TO` rewrites a capture
//! with times in microseconds; it is run by hand. `part_tests` has further tests of captures.
#![tactic(auto)]

mod header;
mod rewritten;
mod told;

use anyhow::{Result, bail};
use header::tell_header;
use rewritten::rewritten;
use std::env::Args;
use std::rt::{Env, Files};
use std::{env, fs};
use told::tell_capture;

fn tell<R: Files + Print + AllocGlobal>(rt: &R, name: &str) -> Result<()> {
    let bytes = fs::read(rt, name)?;
    println!(rt; "{name}")?;
    if name.ends_with(".h") {
        return tell_header(rt, bytes.as_slice());
    }
    tell_capture(rt, bytes.as_slice())
}

fn copy<R: Files + AllocGlobal>(rt: &R, from: &str, to: &str) -> Result<()> {
    let bytes = fs::read(rt, from)?;
    let written = rewritten(rt.alloc(), bytes.as_slice())?;
    fs::write(rt, to, written.as_slice())?;
    Ok(())
}

fn tell_each<R: Files + Print + AllocGlobal>(rt: &R, names: Args) -> Result<()> {
    for name in names {
        tell(rt, name.as_str())?;
    }
    Ok(())
}

fn copy_named<R: Files + AllocGlobal>(rt: &R, mut names: Args) -> Result<()> {
    let (Some(from), Some(to)) = (names.next(), names.next()) else {
        bail!("FROM or TO is missing");
    };
    copy(rt, from.as_str(), to.as_str())
}

// Whether the command after the program's name is `read`, if there is one.
fn asks_to_read(words: &mut Args) -> Option<bool> {
    let command = words.nth(1)?;
    Some(command.as_str() == "read")
}

fn run<R: Env + Files + Print + AllocGlobal>(rt: &R) -> Result<()> {
    let mut words = env::args(rt)?;
    match asks_to_read(&mut words) {
        None => bail!("usage: data_tests read FILE.. | write FROM TO"),
        Some(true) => tell_each(rt, words),
        Some(false) => copy_named(rt, words),
    }
}

fn main(rt: HostRuntime) -> Result<()> {
    run(&rt)
}
