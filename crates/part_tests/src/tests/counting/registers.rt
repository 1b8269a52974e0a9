//! Registers: what is written is read, none falls, and a reader in another thread follows the writer.

use crate::tests::wanted::{holds, same};
use counters::{RegisterReader, RegisterWriter};
use std::thread;

/// The numbers that are written to each register, and the reads of each.
const NUMBERS: u64 = 100_000;

/// Whether all numbers are written, first to register 0 and then to register 1.
fn write_all(mut writer: RegisterWriter) -> bool {
    for number in 0..NUMBERS {
        if !writer.set(0, number) || !writer.set(1, number) {
            return false;
        }
    }
    true
}

/// Whether register 1 never falls, and register 0, when it is read next, is not below it.
fn read_all(mut reader: RegisterReader) -> bool {
    let mut last = 0;
    for _ in 0..NUMBERS {
        match (reader.get(1), reader.get(0)) {
            (Some(second), Some(first)) if last <= second && second <= first => last = second,
            _ => return false,
        }
    }
    true
}

#[test]
fn a_reader_follows_its_writer(rt: HostRuntime) {
    let mut writer = RegisterWriter::new(rt.alloc(), 2).expect(&rt, "registers");
    let reader = writer.reader().expect(&rt, "a reader");
    let (written, read) = thread::join(&rt, || write_all(writer), || read_all(reader));
    holds(&rt, written && read);
}

#[test]
fn no_register_falls(rt: HostRuntime) {
    let mut writer = RegisterWriter::new(rt.alloc(), 2).expect(&rt, "registers");
    let mut reader = writer.reader().expect(&rt, "a reader");
    same(&rt, reader.get(0), Some(0));
    same(&rt, (writer.set(0, 5), writer.set(0, 5)), (true, true));
    same(&rt, (writer.set(0, 4), writer.set(2, 6)), (false, false));
    let mut later = writer.reader().expect(&rt, "another reader");
    drop(writer);
    let told = (reader.get(0), reader.get(1), reader.get(2));
    same(&rt, told, (Some(5), Some(0), None));
    same(&rt, later.get(0), Some(5));
}
