//! Reading and writing Ethernet captures, as tcpdump and Wireshark write them: classic pcap 2.4 and pcapng version 1.
//! Depends on `wire_script`, `limits`, `refusals` and `byteorder`.
//! Guarantees that, unless memory is refused, the bytes determine the result of [`read`], and that it returns the
//! records that [`write`] wrote, up to its limit on their number.
//!
//! A classic capture is a header of 24 bytes, followed by records. A record is a header of 16 bytes (time, captured
//! length, length on the wire), followed by the captured bytes. The first four bytes of the file determine the byte
//! order of all these numbers, and whether times are in microseconds or nanoseconds.
//!
//! A pcapng capture is a list of blocks. A section header block determines the byte order up to the next one. An
//! interface description block describes one interface of its section, and each packet block names its interface.
//!
//! [`read`] returns all records of a capture, or its first fault. [`read_with`] can leave out and count faulty
//! records, and stop after a number of frames. [`write`] writes records as classic pcap: little-endian, in
//! microseconds, with a snap length of 65,535.
//!
//! [`lines_at`] prints the frames of a capture as lines of a script, at one port and queue. [`capture_of`] writes the
//! frames of a script's port as a capture, in the script's order. A script has no times, so frame `k`, counted from
//! 0, gets a time of `k` microseconds.
#![tactic(auto)]

mod blocks;
mod content;
mod cursor;
mod details;
mod entry;
mod fields;
mod from_capture;
mod gathered;
mod header;
mod options;
mod piece;
mod reading;
mod record;
mod telling;
mod to_capture;
mod writing;

pub use content::Capture;
pub use details::fault_details;
pub use entry::{Fault, FaultyRecord, Lengths};
pub use from_capture::lines_at;
pub use header::TimeUnit;
pub use options::{ReadOptions, Skipped};
pub use reading::{read, read_with};
pub use record::CaptureRecord;
pub use refusals::CaptureError;
pub use telling::{is_gzip, link_type_name, link_type_of};
pub use to_capture::capture_of;
pub use writing::{write, write_header, write_record};
