//! Spare buffers, and the counting of their numbers.
ghost use Rattle.std.specs.Prelude.{◌≡◌, ◌≤◌, length};
ghost use Rattle.buffer_pool.specs.Buffer.{buffer};
ghost use Rattle.limits.specs.declared.profile.TheConstants.{BUFFER_BYTES};

use buffer_pool::{Buf, PoolError, Stash, Stock};
use limits::BUFFER_BYTES;
use std::alloc::Global;

/// The number of buffers of a ring that a test compares with its machine.
pub const BUFFERS: u32 = 32;

/// Makes a stash of the buffers `0` to `count - 1`, 16 to 256 of them. The last comes out first.
pub fn full_stash(alloc: Global, count: u32) -> Result<Stash, PoolError> {
    let mut stock = Stock::new(alloc, 0, count)?;
    let mut stash = Stash::new();
    for _ in 0..count {
        if let Some(buf) = stock.take() {
            put_back(&mut stash, buf);
        }
    }
    Ok(stash)
}

/// Puts a buffer with full capacity into a stash that is not full; drops any other.
pub fn put_back(stash: &mut Stash, buf: Buf) {
    if buf.capacity() == BUFFER_BYTES {
        let _ = stash.put(buf);
    }
}

/// Returns the buffer filled with `len` bytes, each the last byte of `k`.
pub fn filled(mut buf: Buf, len: u16, k: u32) -> Buf
    requires room { buf.capacity ≡ BUFFER_BYTES }
    requires fits { len ≤ BUFFER_BYTES }
    ensures real { result ≡ buffer buf.number result.bytes }
    ensures len { length result.bytes ≡ len }
{
    let bytes = [last_byte(k); BUFFER_BYTES];
    buf.fill(&bytes[..usize::from(len)]);
    buf
}

fn last_byte(k: u32) -> u8 {
    (k % 256) as u8
}

/// Whether each byte of the buffer is the last byte of `k`.
pub fn is_filled(buf: &Buf, k: u32) -> bool {
    let wanted = last_byte(k);
    for byte in buf.bytes() {
        if *byte != wanted {
            return false;
        }
    }
    true
}

/// The buffers that a closed ring and its ends returned.
#[derive(Drop)]
pub struct Closed {
    /// The buffers in the slots, by place.
    pub slots: Vec<Option<Buf>>,
    /// The spare buffers.
    pub spare: Stash,
    /// The buffer that the controller held.
    pub held: Option<Buf>,
}

impl Closed {
    /// Collects these buffers.
    pub fn of(slots: Vec<Option<Buf>>, spare: Stash, held: Option<Buf>) -> Closed {
        Closed { slots, spare, held }
    }

    /// Whether each of the buffers `0` to `count - 1`, at most 256, is there once, and no other.
    pub fn has_each_once(self, count: usize) -> bool {
        let Closed {
            slots,
            mut spare,
            held,
        } = self;
        let mut numbers = Numbers::new();
        for buf in slots.iter().flatten() {
            numbers.count(buf.number());
        }
        for _ in 0..spare.len() {
            if let Some(buf) = spare.take() {
                numbers.count(buf.number());
            }
        }
        if let Some(buf) = held {
            numbers.count(buf.number());
        }
        numbers.are_each_once(count)
    }

    /// Returns the number of places with a buffer.
    pub fn lying(&self) -> usize {
        self.slots.iter().flatten().count()
    }
}

// The counted numbers below 256.
#[derive(Drop)]
struct Numbers {
    counted: [bool; 256],
    twice: bool,
}

impl Numbers {
    fn new() -> Numbers {
        Numbers {
            counted: [false; 256],
            twice: false,
        }
    }

    fn count(&mut self, number: u16) {
        match self.counted.get_mut(usize::from(number)) {
            Some(counted) if !*counted => *counted = true,
            _ => self.twice = true,
        }
    }

    // Whether each number below `count` was counted once, and no other.
    fn are_each_once(&self, count: usize) -> bool {
        for (number, counted) in self.counted.iter().enumerate() {
            if *counted != (number < count) {
                return false;
            }
        }
        !self.twice
    }
}
