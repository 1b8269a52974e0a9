//! The exports of counters that one thread writes and others read. A call loads or stores one counter and never waits.
ghost use Rattle.std.specs.Prelude.{◌≡◌, ◌≢◌, None, Some, IfErr, IfOk, negsuc, pos};
ghost use Rattle.poll82599_c.specs.Counting.{AreNew, TriedGet, TriedSet};
ghost use Rattle.poll82599_c.specs.Handles.{as_counter_reader, as_counters};
ghost use Rattle.poll82599_c.specs.Held.{Between, Both, Of, There};

use crate::call::{NO_OPERATION, UNHELD};
use crate::end::End;
use crate::handle::Handle;
use crate::makings::{Unmade, boxed, put_one};
use counters::RegisterWriter;
use std::alloc::Global;

/// How many counters a set has.
const COUNTERS: usize = 8;

/// Makes a set of 8 counters, all 0, which this handle may write. Returns 0: done; 2: memory was refused; 5: the handle
/// holds an object. Only 0 changes the handle.
#[unsafe(no_mangle)]
pub extern "C" fn poll82599_counters_new(alloc: Global, counters: &mut Handle) -> i32
    ensures made { (result ≡ pos 0) → There AreNew (as_counters counters.new.held) }
    ensures was_empty { (result ≡ pos 0) → counters.old.held ≡ None }
    ensures in_use { (result ≡ pos 5) → (counters.old.held ≢ None) × (counters.new.held ≡ counters.old.held) }
    ensures kept { (result ≢ pos 0) → (result ≢ pos 5) → counters.new ≡ counters.old }
{
    put_one(new_counters(alloc), counters)
}

/// Makes a reader of counters, which knows all that was written to them. Returns 0: done; 2: memory was refused; 4: the
/// first handle may not write counters; 5: `reader` holds an object. Only 0 changes a handle, which is `reader`.
#[unsafe(no_mangle)]
pub extern "C" fn poll82599_counters_reader(
    alloc: Global,
    counters: &mut Handle,
    reader: &mut Handle,
) -> i32
    ensures made { (result ≡ pos 0) → Both (λ written read. read ≡ written) (as_counters counters.old.held) (as_counter_reader reader.new.held) }
    ensures other { (result ≡ pos 4) → as_counters counters.old.held ≡ None }
    ensures was_empty { (result ≡ pos 0) → reader.old.held ≡ None }
    ensures in_use { (result ≡ pos 5) → (reader.old.held ≢ None) × (reader.new.held ≡ reader.old.held) }
    ensures kept { (result ≢ pos 0) → (result ≢ pos 5) → reader.new ≡ reader.old }
    ensures same { counters.new.held ≡ counters.old.held }
{
    let made = reader_of(alloc, counters);
    put_one(made, reader)
}

/// Writes counter `at`. The thread of the handle that may write calls it. Returns 1: done; 0: `at` is not below 8, or the
/// counter is above `number`.
#[unsafe(no_mangle)]
pub extern "C" fn poll82599_counters_set(counters: &mut Handle, at: usize, number: u64) -> u32
    ensures other { as_counters counters.old.held ≡ None → (result ≡ 4294967295) × (counters.new.held ≡ counters.old.held) }
    ensures step { Between (TriedSet result at number) (as_counters counters.old.held) (as_counters counters.new.held) }
{
    step!(counters, Counters(held) => u32::from(held.set(at, number)))
}

/// Reads counter `at` into `number`. The reader's thread calls it. Returns 1: done; 0: `at` is not below 8.
#[unsafe(no_mangle)]
pub extern "C" fn poll82599_counters_get(reader: &mut Handle, at: usize, number: &mut u64) -> u32
    ensures other { as_counter_reader reader.old.held ≡ None → (result ≡ 4294967295) × (reader.new.held ≡ reader.old.held) }
    ensures step { Between (TriedGet result at number.new) (as_counter_reader reader.old.held) (as_counter_reader reader.new.held) }
    ensures kept { (result ≢ 1) → number.new ≡ number.old }
{
    step!(reader, CounterReader(held) => match held.get(at) {
        Some(found) => {
            *number = found;
            1
        }
        None => 0,
    })
}

/// Closes the handle that may write counters, or a reader of them. The set is freed with its last handle. Returns 0, or -2
/// if the handle is empty or of another kind, and leaves it then.
#[unsafe(no_mangle)]
pub extern "C" fn poll82599_counters_close(alloc: Global, counters: &mut Handle) -> i64
    ensures writer { Of (λ _. (result ≡ pos 0) × (counters.new.held ≡ None)) (as_counters counters.old.held) }
    ensures reader { Of (λ _. (result ≡ pos 0) × (counters.new.held ≡ None)) (as_counter_reader counters.old.held) }
    ensures other { as_counters counters.old.held ≡ None → as_counter_reader counters.old.held ≡ None → (result ≡ negsuc 1) × (counters.new.held ≡ counters.old.held) }
{
    let Some(end) = counters.take(alloc) else {
        return UNHELD;
    };
    match &*end {
        End::Counters(_) | End::CounterReader(_) => {
            drop(end);
            0
        }
        _ => {
            counters.put(end);
            UNHELD
        }
    }
}

fn new_counters(alloc: Global) -> Result<Box<End>, Unmade>
    ensures made { IfOk result (λ made. There AreNew (as_counters (Some made.value))) }
    ensures refusal { IfErr result (λ e. e ≡ Unmade.Memory) }
{
    match RegisterWriter::new(alloc, COUNTERS) {
        Ok(counters) => boxed(alloc, End::Counters(counters)),
        Err(_) => Err(Unmade::Memory),
    }
}

fn reader_of(alloc: Global, counters: &mut Handle) -> Result<Box<End>, Unmade>
    ensures made { IfOk result (λ made. Both (λ written read. read ≡ written) (as_counters counters.old.held) (as_counter_reader (Some made.value))) }
    ensures other { IfErr result (λ e. e ≡ Unmade.Settings → as_counters counters.old.held ≡ None) }
    ensures same { counters.new.held ≡ counters.old.held }
{
    let Some(end) = counters.lent() else {
        return Err(Unmade::Settings);
    };
    match end {
        End::Counters(held) => match held.reader() {
            Ok(reader) => boxed(alloc, End::CounterReader(reader)),
            Err(_) => Err(Unmade::Memory),
        },
        _ => Err(Unmade::Settings),
    }
}
