//! The cost of taking packets one by one from the front of a list of 32.
use anyhow::Result;
use arrayvec::ArrayVec;
use buffer_pool::{Buf, Packet};
use std::rt::Clock;
use std::time::{Duration, Instant};

/// The most packets of a list.
const LIST: usize = 32;

/// A packet with its buffers in the list itself, for comparison.
type Row = ArrayVec<Buf, 15>;

/// Times taking `turns` packets from the front and appending each again. Then does the same with rows of buffers.
pub fn compared<R: Clock>(rt: &R, turns: u32) -> Result<(Duration, Duration)> {
    let mut packets: ArrayVec<Packet, LIST> = full();
    let mut rows: ArrayVec<Row, LIST> = full();
    let start = Instant::now(rt)?;
    turn(&mut packets, turns);
    let packets_took = start.elapsed(rt)?;
    let start = Instant::now(rt)?;
    turn(&mut rows, turns);
    Ok((packets_took, start.elapsed(rt)?))
}

/// Makes a full list of default values.
fn full<T: Default + Drop>() -> ArrayVec<T, LIST> {
    let mut list = ArrayVec::new();
    for _ in 0..LIST {
        if !list.is_full() {
            list.push(T::default());
        }
    }
    list
}

/// Moves the first of a list to its end, `turns` times.
fn turn<T: Default + Drop>(list: &mut ArrayVec<T, LIST>, turns: u32) {
    for _ in 0..turns {
        if let Some(first) = list.pop_at(0) {
            if !list.is_full() {
                list.push(first);
            }
        }
    }
}
