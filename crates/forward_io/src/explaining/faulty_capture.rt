//! Explains faults of a capture.

use capture::{
    CaptureError, Fault, FaultyRecord, Lengths, fault_details, is_gzip, link_type_name,
    link_type_of,
};
use limits::{LEAST_FRAME, MOST_FRAME, MOST_SCRIPT_FRAMES};
use requests::Excerpt;
use std::alloc::{AllocError, Global};

/// The number of bytes at the beginning of a file that determine its format.
const MAGIC: usize = 4;

/// Explains a fault of the capture with these bytes.
pub(crate) fn explain_capture(
    alloc: Global,
    why: &mut String,
    bytes: &[u8],
    fault: CaptureError,
) -> Result<(), AllocError> {
    match fault {
        CaptureError::NotCapture if is_gzip(bytes) => why.push_str(
            "the capture is compressed with gzip; decompress it first, for example by gzip -dc in a pipe",
        ),
        CaptureError::NotCapture => explain_format(why, bytes),
        CaptureError::LinkType => explain_link_type(why, bytes),
        CaptureError::CutShort { number }
        | CaptureError::CapturedShort { number }
        | CaptureError::FrameLength { number } => explain_record(alloc, why, bytes, number),
        CaptureError::TooMany { .. } => {
            write!(
                why,
                "at most {MOST_SCRIPT_FRAMES} frames are forwarded at once; --limit reads fewer"
            )
        }
        CaptureError::Memory => Ok(()),
    }
}

/// Explains why bytes are not a capture.
fn explain_format(why: &mut String, bytes: &[u8]) -> Result<(), AllocError> {
    let shown = bytes.get(..MAGIC).unwrap_or(bytes);
    write!(
        why,
        "the file's length in bytes is {}, and it begins with {}; a capture is pcap of version 2.4, or pcapng of version 1 with \
         whole blocks",
        bytes.len(),
        Excerpt(shown)
    )
}

/// Explains a refused link type.
fn explain_link_type(why: &mut String, bytes: &[u8]) -> Result<(), AllocError> {
    match link_type_of(bytes) {
        Some(found) => write!(
            why,
            "the link type is {found} ({}), but must be 1 (Ethernet)",
            link_type_name(found).unwrap_or("unknown")
        ),
        None => why.push_str(
            "a packet is of an interface that is not described, or not Ethernet (link type 1)",
        ),
    }
}

/// Explains the fault of a record.
fn explain_record(
    alloc: Global,
    why: &mut String,
    bytes: &[u8],
    number: u64,
) -> Result<(), AllocError> {
    match fault_details(alloc, bytes, number) {
        Ok(
            Some(
                FaultyRecord {
                    fault,
                    lengths: Some(lengths),
                },
            ),
        ) => explain_lengths(why, fault, lengths),
        _ => why.push_str("the file ends within the record's header; --skip leaves it out"),
    }
}

/// Explains the fault of a record with these lengths.
fn explain_lengths(why: &mut String, fault: Fault, lengths: Lengths) -> Result<(), AllocError> {
    let Lengths { captured, wire } = lengths;
    match fault {
        Fault::Truncated => write!(
            why,
            "the record's length in bytes is {captured}, but the file or its block ends before that; --skip leaves it out"
        ),
        Fault::Snapped => write!(
            why,
            "{captured} of {wire} bytes were captured; --skip leaves such records out, and a larger snap length \
             (tcpdump -s 0) captures whole frames"
        ),
        Fault::Long | Fault::Short => write!(
            why,
            "the frame's length in bytes is {captured}, but must be {LEAST_FRAME} to {MOST_FRAME}; --skip leaves such records out"
        ),
    }
}
