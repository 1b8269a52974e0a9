//! A script of 40 frames on one flow of four, over rings of 8, and its output.

use std::alloc::{AllocError, Global};

/// Two pairs, and rings that are filled several times.
pub const FORTY_WORDS: &[&str] = &["forward", "--pairs", "2", "--ring", "8"];

/// Each of the 40 frames is 60 times one byte: 0x00 to this one, and 0xff.
const LAST: u8 = 0x26;

/// The line of the flow with the 40 frames, and those of the other flows.
const FLOWS: &str =
    "flow 0 0 offered 0 stored 0 dropped 0 oversize 0 taken 0 posted 0 tx-dropped 0 wire 0 left 0 ended drained\n\
     flow 0 1 offered 40 stored 40 dropped 0 oversize 0 taken 40 posted 40 tx-dropped 0 wire 40 left 0 ended drained\n\
     flow 1 0 offered 0 stored 0 dropped 0 oversize 0 taken 0 posted 0 tx-dropped 0 wire 0 left 0 ended drained\n\
     flow 1 1 offered 0 stored 0 dropped 0 oversize 0 taken 0 posted 0 tx-dropped 0 wire 0 left 0 ended drained\n";

/// A script of 40 frames that come in at port 0, queue 1.
pub fn forty(alloc: Global) -> Result<String, AllocError> {
    let mut script = String::new(alloc);
    for byte in 0..=LAST {
        writeln!(script, "0 1 fill 60 {byte:02x}")?;
    }
    writeln!(script, "0 1 fill 60 ff")?;
    Ok(script)
}

/// Writes the line of an outgoing frame: 60 times a byte, the second of which is one greater.
fn write_touched(text: &mut String, byte: u8) -> Result<(), AllocError> {
    let touched = byte.wrapping_add(1);
    write!(text, "1 1 {byte:02x}{touched:02x}")?;
    for _ in 0..58 {
        write!(text, "{byte:02x}")?;
    }
    text.push('\n')
}

/// The output of the script.
pub fn forty_forwarded(alloc: Global) -> Result<String, AllocError> {
    let mut text = String::new(alloc);
    for byte in 0..=LAST {
        write_touched(&mut text, byte)?;
    }
    write_touched(&mut text, 0xff)?;
    text.push_str(FLOWS)?;
    Ok(text)
}
