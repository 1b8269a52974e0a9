use crate::tests::wanted::{holds, same};
use buffer_pool::{Buf, PoolError, Stash, Stock};
use std::alloc::Global;
use std::process::Abort;

#[test]
fn a_buffer_has_the_bytes_of_the_last_fill(rt: HostRuntime) {
    let mut stock = Stock::new(rt.alloc(), 100, 16).expect(&rt, "a stock");
    let mut buf = stock.take().expect(&rt, "a buffer");
    let told = (buf.number(), buf.capacity(), buf.is_empty());
    same(&rt, told, (100, 2_048, true));
    let full = [0xab; 2_048];
    buf.fill(&full);
    same(&rt, buf.bytes(), full.as_slice());
    buf.fill(&[1, 2, 3]);
    same(&rt, (buf.len(), buf.bytes()), (3, [1, 2, 3].as_slice()));
    buf.clear();
    same(&rt, buf.bytes(), [].as_slice());
}

fn is_blank<R: Abort>(rt: &R, buf: &Buf) {
    let told = (buf.number(), buf.capacity(), buf.bytes());
    same(rt, told, (0, 0, [].as_slice()));
}

#[test]
fn the_default_buffer_is_a_blank(rt: HostRuntime) {
    let mut blanks = Buf::blanks(rt.alloc(), 4_095).expect(&rt, "blanks");
    blanks.push(Buf::default()).expect(&rt, "a blank");
    same(&rt, blanks.len(), 4_096);
    for blank in &blanks {
        is_blank(&rt, blank);
    }
}

// The number of the stock's next buffer, which is dropped.
fn next_number(stock: &mut Stock) -> Option<u16> {
    let buf = stock.take()?;
    Some(buf.number())
}

#[test]
fn a_stock_hands_out_each_number_once(rt: HostRuntime) {
    let mut stock = Stock::new(rt.alloc(), 7, 16).expect(&rt, "a stock");
    for number in 7..23 {
        same(&rt, next_number(&mut stock), Some(number));
    }
    same(&rt, stock.len(), 0);
    same(&rt, next_number(&mut stock), None);
}

#[test]
fn a_given_buffer_comes_out_first_and_empty(rt: HostRuntime) {
    let mut stock = Stock::new(rt.alloc(), 0, 16).expect(&rt, "a stock");
    let mut buf = stock.take().expect(&rt, "a buffer");
    buf.fill(&[5; 60]);
    stock.give(buf);
    same(&rt, stock.len(), 16);
    let again = stock.take().expect(&rt, "a buffer");
    same(&rt, (again.number(), again.is_empty()), (0, true));
    holds(&rt, !stock.is_empty());
}

// The first number and the count of a stock, and the refusal.
const COUNTS: &[(u32, u32, Option<u8>)] = &[
    (0, 15, Some(34)),
    (0, 16, None),
    (65_520, 16, None),
    (65_521, 16, Some(34)),
    (65_536, 16, Some(34)),
    (u32::MAX, 16, Some(34)),
    (16, u32::MAX, Some(34)),
    (0, 65_537, Some(34)),
    (1, 65_536, Some(34)),
    (0, 4_096, None),
    (61_440, 4_096, None),
    (61_441, 4_096, Some(34)),
    (0, 65_536, None),
];

// The number of the refusal of such a stock.
fn refusal(alloc: Global, first: u32, count: u32) -> Option<u8> {
    let refused = Stock::new(alloc, first, count).err()?;
    Some(refused.number())
}

#[test]
fn only_lawful_counts_are_made(rt: HostRuntime) {
    for (first, count, wanted) in COUNTS {
        let told = refusal(rt.alloc(), *first, *count);
        same(&rt, (*first, *count, told), (*first, *count, *wanted));
    }
}

// Also passes if the first or a later allocation is refused, as by `rt try --test --fail-alloc`.
#[test]
fn without_memory_no_stock_is_made(rt: HostRuntime) {
    let refusal = Stock::new(rt.alloc(), 0, 16).err();
    holds(&rt, matches!(refusal, None | Some(PoolError::Memory)));
}

const REFUSALS: &[(PoolError, &str)] = &[
    (PoolError::Memory, "31 memory"),
    (PoolError::Empty, "32 empty"),
    (PoolError::StashFull, "33 stash full"),
    (PoolError::Count, "34 count"),
];

// Checks the printed number and text of a refusal.
fn reads<R: Abort>(rt: &R, alloc: Global, refusal: &PoolError, wanted: &str) {
    let number = refusal.number();
    let text = format!(in alloc; "{number} {refusal}").expect(rt, "a text");
    same(rt, text.as_str(), wanted);
}

#[test]
fn refusals_have_a_number_and_a_text(rt: HostRuntime) {
    for (refusal, wanted) in REFUSALS {
        reads(&rt, rt.alloc(), refusal, wanted);
    }
}

// Puts the stock's next buffer, filled, into a stash that has `len` buffers and room for it.
fn is_put<R: Abort>(rt: &R, stash: &mut Stash, stock: &mut Stock, len: usize) {
    let mut buf = stock.take().expect(rt, "a buffer");
    buf.fill(&[7; 60]);
    same(rt, (stash.len(), stash.is_full()), (len, false));
    holds(rt, stash.put(buf).is_ok());
}

// Checks that a full stash hands the stock's next buffer back unchanged.
fn is_handed_back<R: Abort>(rt: &R, stash: &mut Stash, stock: &mut Stock) {
    let mut last = stock.take().expect(rt, "a buffer");
    last.fill(&[1, 2, 3]);
    match stash.put(last) {
        Ok(()) => holds(rt, false),
        Err((refusal, back)) => {
            let told = (refusal, back.number(), back.bytes());
            same(rt, told, (PoolError::StashFull, 256, [1, 2, 3].as_slice()));
        }
    }
}

// The number of the stash's next buffer, and whether it is empty. It is dropped.
fn next_of(stash: &mut Stash) -> Option<(u16, bool)> {
    let buf = stash.take()?;
    Some((buf.number(), buf.is_empty()))
}

#[test]
fn a_stash_takes_256_empty_buffers(rt: HostRuntime) {
    let mut stock = Stock::new(rt.alloc(), 0, 257).expect(&rt, "a stock");
    let mut stash = Stash::new();
    same(&rt, next_of(&mut stash), None);
    for len in 0..256 {
        is_put(&rt, &mut stash, &mut stock, len);
    }
    same(&rt, (stash.len(), stash.is_full()), (256, true));
    is_handed_back(&rt, &mut stash, &mut stock);
    for number in (0..256).rev() {
        same(&rt, next_of(&mut stash), Some((number, true)));
    }
    holds(&rt, stash.is_empty());
}
