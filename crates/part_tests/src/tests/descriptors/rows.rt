//! Descriptors in bytes, both ways. `checks/runs` and `checks/fields` have the bytes that are refused, and the printed text.

use crate::tests::wanted::{holds, same};
use descriptor::{DescError, Descriptor, RxBack, RxRead, TxBack, TxRead};
use std::fmt::Debug;
use std::process::Abort;

// A written-back descriptor: 60 bytes with EOP.
const RX_BACK: [u8; 16] = [0, 0, 0, 0, 0, 0, 0, 0, 3, 0, 0, 0, 60, 0, 0, 0];

// Buffer 5 with a complete frame of 60 bytes and RS.
const TX_READ: [u8; 16] = [
    0, 0x28, 0, 0, 0, 0, 0, 0, 0x3c, 0, 0x30, 0x2b, 0, 0, 0x0f, 0,
];

// Buffer 65,535.
const RX_READ: [u8; 16] = [0, 0xf8, 0xff, 7, 0, 0, 0, 0, 0, 0, 0, 0, 0, 0, 0, 0];

const TX_BACK: [u8; 16] = [0, 0, 0, 0, 0, 0, 0, 0, 0, 0, 0, 0, 1, 0, 0, 0];

// A written-back descriptor: 2,048 bytes without EOP.
const FULL_RX_BACK: [u8; 16] = [0, 0, 0, 0, 0, 0, 0, 0, 1, 0, 0, 0, 0, 8, 0, 0];

// Buffer 65,535 with the last 2,048 bytes of a frame of 15,000, and RS.
const GREATEST_TX_READ: [u8; 16] = [
    0, 0xf8, 0xff, 7, 0, 0, 0, 0, 0, 8, 0x30, 0x2b, 0, 0, 0xa6, 0x0e,
];

// Checks that the descriptor has these bytes, and these bytes the descriptor.
fn is_coded<R: Abort, D: Descriptor + PartialEq + Debug + Copy + Drop>(
    rt: &R,
    descriptor: D,
    bytes: [u8; 16],
) {
    same(rt, descriptor.to_bytes(), bytes);
    same(rt, D::from_bytes(&bytes), Ok(descriptor));
}

#[test]
fn each_form_is_coded_both_ways(rt: HostRuntime) {
    is_coded(&rt, RxBack::new(60, true), RX_BACK);
    is_coded(&rt, RxBack::new(2_048, false), FULL_RX_BACK);
    is_coded(&rt, TxRead::new(5, 60, true, true, 60), TX_READ);
    let greatest = TxRead::new(65_535, 2_048, true, true, 15_000);
    is_coded(&rt, greatest, GREATEST_TX_READ);
    is_coded(&rt, RxRead { number: 65_535 }, RX_READ);
    is_coded(&rt, TxBack, TX_BACK);
}

#[test]
fn status_words_are_read(rt: HostRuntime) {
    let word = RxBack::new(2_048, true).second_word();
    same(&rt, word, 0x800_0000_0003);
    holds(&rt, RxBack::is_done(word) && RxBack::ends_frame(word));
    same(&rt, RxBack::data_len(word), 2_048);
    same(
        &rt,
        RxBack::from_second_word(word),
        Ok(RxBack::new(2_048, true)),
    );
    holds(
        &rt,
        !RxBack::ends_frame(RxBack::new(1, false).second_word()),
    );
    let posted = RxRead { number: 9 };
    holds(&rt, !RxBack::is_done(posted.second_word()));
    same(
        &rt,
        RxBack::from_second_word(posted.second_word()),
        Err(DescError::Reserved),
    );
    holds(&rt, TxBack::is_done(TxBack.second_word()));
    holds(
        &rt,
        !TxBack::is_done(TxRead::new(9, 2_048, true, true, 15_000).second_word()),
    );
}
