//! Compares the constants of the C header with those of the library.

use anyhow::Result;
use buffer_pool::STASH_BUFFERS;
use driver::MOST_BATCH;
use limits::{
    BUFFER_BYTES, FEWEST_BUFFERS, LEAST_FRAME, LEAST_RING, MOST_FRAME, MOST_PAIRS, MOST_RING,
    MOST_RS_EVERY, MOST_SEGMENTS,
};
use ring_machine::{QUEUE_STRIDE, RDH, RDT, RXDCTL, TDH, TDT, TXDCTL};
use shared_ring::Control;
use std::str;

/// The header's constants that are the library's, with their values in the library.
fn constants() -> [(&'static str, usize); 15] {
    [
        ("LEAST_RING", LEAST_RING),
        ("MOST_RING", MOST_RING),
        ("BUFFER_BYTES", BUFFER_BYTES),
        ("LEAST_FRAME", LEAST_FRAME),
        ("MOST_FRAME", MOST_FRAME),
        ("MOST_SEGMENTS", MOST_SEGMENTS),
        ("MOST_PAIRS", MOST_PAIRS),
        ("LEAST_BUFFERS", FEWEST_BUFFERS as usize),
        ("MOST_BUFFERS", STASH_BUFFERS),
        ("MOST_BATCH", MOST_BATCH),
        ("MOST_RS_EVERY", usize::from(MOST_RS_EVERY)),
        ("OFF", usize::from(Control::Disabled.word())),
        ("ENABLE_ASKED", usize::from(Control::EnableAsked.word())),
        ("ON", usize::from(Control::Enabled.word())),
        ("DISABLE_ASKED", usize::from(Control::DisableAsked.word())),
    ]
}

/// The header's registers, with their offsets in the library.
fn offsets() -> [(&'static str, u32); 7] {
    [
        ("RDH", RDH),
        ("RDT", RDT),
        ("RXDCTL", RXDCTL),
        ("TDH", TDH),
        ("TDT", TDT),
        ("TXDCTL", TXDCTL),
        ("QUEUE_STRIDE", QUEUE_STRIDE),
    ]
}

/// Whether the header has this text, with no letter or digit after it.
fn says(header: &str, wanted: &str) -> bool {
    match header.split_once(wanted) {
        Some((_, behind)) => {
            let next = behind.as_bytes().first();
            next.is_none_or(|byte| !byte.is_ascii_alphanumeric())
        }
        None => false,
    }
}

/// Prints the text if the header has it, otherwise says that the header lacks it.
fn tell_line<R: Print>(rt: &R, header: &str, wanted: &str) -> Result<()> {
    if says(header, wanted) {
        println!(rt; "{wanted}")?;
    } else {
        println!(rt; "the header does not say {wanted}")?;
    }
    Ok(())
}

/// Prints a line for each of `constants`.
fn tell_constants<R: Print + AllocGlobal>(rt: &R, header: &str) -> Result<()> {
    for (name, value) in constants() {
        let wanted = format!(in rt.alloc(); "POLL82599_{name} = {value}")?;
        tell_line(rt, header, wanted.as_str())?;
    }
    Ok(())
}

/// Prints a line for each of `offsets`.
fn tell_offsets<R: Print + AllocGlobal>(rt: &R, header: &str) -> Result<()> {
    for (name, offset) in offsets() {
        let wanted = format!(in rt.alloc(); "POLL82599_{name} = {offset:#x}")?;
        tell_line(rt, header, wanted.as_str())?;
    }
    Ok(())
}

/// Prints a line for each constant and register: that the header has the library's value, or that it lacks it.
pub fn tell_header<R: Print + AllocGlobal>(rt: &R, bytes: &[u8]) -> Result<()> {
    let header = str::from_utf8(bytes).unwrap_or("");
    tell_constants(rt, header)?;
    tell_offsets(rt, header)
}
