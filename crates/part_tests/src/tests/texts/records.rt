//! The times and lengths of captured records, which runs of the program do not print. The bytes follow the formats' drafts.

use crate::tests::wanted::same;
use capture::{CaptureRecord, TimeUnit, read};
use std::alloc::{AllocError, Global};
use std::process::Abort;

/// Headers of pcap: in microseconds in each byte order, and in nanoseconds.
const LITTLE: &[u8] = b"\xd4\xc3\xb2\xa1\x02\x00\x04\x00\0\0\0\0\0\0\0\0\xff\xff\0\0\x01\0\0\0";

const BIG: &[u8] = b"\xa1\xb2\xc3\xd4\x00\x02\x00\x04\0\0\0\0\0\0\0\0\0\0\xff\xff\0\0\0\x01";

const BIG_NANOS: &[u8] = b"\xa1\xb2\x3c\x4d\x00\x02\x00\x04\0\0\0\0\0\0\0\0\0\0\xff\xff\0\0\0\x01";

/// Headers of records at 1 second and a fraction of 2: 14 bytes of 14, in each order; and 14 bytes of 3.
const WHOLE: &[u8] = b"\x01\0\0\0\x02\0\0\0\x0e\0\0\0\x0e\0\0\0";

const WHOLE_BIG: &[u8] = b"\0\0\0\x01\0\0\0\x02\0\0\0\x0e\0\0\0\x0e";

const LESS_ON_WIRE: &[u8] = b"\x01\0\0\0\x02\0\0\0\x0e\0\0\0\x03\0\0\0";

const FRAME: &[u8] = b"abcdefghijklmn";

/// Section headers of pcapng in each byte order.
const SECTION: &[u8] =
    b"\x0a\x0d\x0d\x0a\x1c\0\0\0M\x3c\x2b\x1a\x01\0\0\0\xff\xff\xff\xff\xff\xff\xff\xff\x1c\0\0\0";

const SECTION_BIG: &[u8] =
    b"\x0a\x0d\x0d\x0a\0\0\0\x1c\x1a\x2b\x3cM\0\x01\0\0\xff\xff\xff\xff\xff\xff\xff\xff\0\0\0\x1c";

/// Interfaces: Ethernet in both orders; with a name and times in nanoseconds; with times in 1,024ths of a second.
const ETHERNET: &[u8] = b"\x01\0\0\0\x14\0\0\0\x01\0\0\0\0\0\0\0\x14\0\0\0";

const ETHERNET_BIG: &[u8] = b"\0\0\0\x01\0\0\0\x14\0\x01\0\0\0\0\0\0\0\0\0\x14";

const NANOS: &[u8] =
    b"\x01\0\0\0\x2c\0\0\0\x01\0\0\0\0\0\0\0\x02\0\x05\0eth0x\0\0\0\x09\0\x01\0\x09\0\0\0\0\0\0\0\x2c\0\0\0";

const BINARY: &[u8] =
    b"\x01\0\0\0\x20\0\0\0\x01\0\0\0\0\0\0\0\x09\0\x01\0\x8a\0\0\0\0\0\0\0\x20\0\0\0";

/// Enhanced packets at 1,700,000,000 seconds and a microsecond after 1970, in both orders.
const PACKET: &[u8] =
    b"\x06\0\0\00\0\0\0\0\0\0\0\x24\x0a\x06\0\x01\x40\x1e\x18\x0e\0\0\0\x0e\0\0\0abcdefghijklmn\0\00\0\0\0";

const PACKET_BIG: &[u8] =
    b"\0\0\0\x06\0\0\00\0\0\0\0\0\x06\x0a\x24\x18\x1e\x40\x01\0\0\0\x0e\0\0\0\x0eabcdefghijklmn\0\0\0\0\00";

/// The same at 1,700,000,000.999999999 seconds, in ticks of a nanosecond, with a comment.
const PACKET_NANOS: &[u8] =
    b"\x06\0\0\0\x3c\0\0\0\0\0\0\0\xfe\x9c\x97\x17\xff\xc9\xc4q\x0e\0\0\0\x0e\0\0\0abcdefghijklmn\0\0\x01\0\x04\0seen\0\0\0\0\x3c\0\0\0";

/// A simple packet, which has no time.
const SIMPLE: &[u8] = b"\x03\0\0\0\x20\0\0\0\x0e\0\0\0abcdefghijklmn\0\0\x20\0\0\0";

/// Parts of a file of one record, its unit of time, and the record's seconds, fraction and length on the wire.
type Row = (&'static [&'static [u8]], TimeUnit, (u32, u32, u32));

/// A time in 1,024ths of a second is read as 0.
const RECORDS: &[Row] = &[
    (&[LITTLE, WHOLE, FRAME], TimeUnit::Micros, (1, 2, 14)),
    (&[BIG, WHOLE_BIG, FRAME], TimeUnit::Micros, (1, 2, 14)),
    (&[BIG_NANOS, WHOLE_BIG, FRAME], TimeUnit::Nanos, (1, 2, 14)),
    (&[LITTLE, LESS_ON_WIRE, FRAME], TimeUnit::Micros, (1, 2, 3)),
    (
        &[SECTION, ETHERNET, PACKET],
        TimeUnit::Nanos,
        (1_700_000_000, 1_000, 14),
    ),
    (
        &[SECTION_BIG, ETHERNET_BIG, PACKET_BIG],
        TimeUnit::Nanos,
        (1_700_000_000, 1_000, 14),
    ),
    (
        &[SECTION, NANOS, PACKET_NANOS],
        TimeUnit::Nanos,
        (1_700_000_000, 999_999_999, 14),
    ),
    (&[SECTION, BINARY, PACKET], TimeUnit::Nanos, (0, 0, 14)),
    (&[SECTION, ETHERNET, SIMPLE], TimeUnit::Nanos, (0, 0, 14)),
];

// Joins the parts of a file.
fn joined(alloc: Global, parts: &[&[u8]]) -> Result<Vec<u8>, AllocError> {
    let mut bytes = Vec::new(alloc);
    for part in parts {
        bytes.extend_from_slice(part)?;
    }
    Ok(bytes)
}

// Checks a record's seconds, fraction and length on the wire, and that it has the frame.
fn is_record<R: Abort>(rt: &R, found: &CaptureRecord<'_>, wanted: (u32, u32, u32)) {
    let told = (found.seconds(), found.fraction(), found.wire_len());
    same(rt, told, wanted);
    same(rt, found.frame(), FRAME);
}

// Checks that the file has one record, and which.
fn has_record<R: Abort>(rt: &R, alloc: Global, (parts, unit, wanted): Row) {
    let bytes = joined(alloc, parts).expect(rt, "memory");
    let capture = read(alloc, bytes.as_slice()).expect(rt, "a capture");
    let told = (capture.unit(), capture.records().len());
    same(rt, (parts, told), (parts, (unit, 1)));
    for found in capture.records() {
        is_record(rt, found, wanted);
    }
}

#[test]
fn a_record_has_its_time_and_its_lengths(rt: HostRuntime) {
    for row in RECORDS {
        has_record(&rt, rt.alloc(), *row);
    }
}
