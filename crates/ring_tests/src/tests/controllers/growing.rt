//! Wires that grow by many frames.
ghost use Rattle.std.specs.Prelude.{◌≤◌};

use crate::tests::controllers::transmit::Transmit;
use controller::{CtlError, Turn};

/// The length of frame `k` of a wire.
pub(crate) fn len_of(k: usize) -> usize
    ensures { result ≤ 2048 }
{
    14 + k % 300 * 6
}

/// Posts frame `k` and has it sent, by the second call if memory was refused to the first. Returns whether it was sent
/// and its buffer cleaned.
fn is_sent(transmit: &mut Transmit, k: usize) -> bool {
    let mut good = transmit.post(len_of(k), k, 2_048, true);
    let turned = transmit.turn();
    if turned == Err(CtlError::Memory) {
        good &= transmit.sent() == k && transmit.turn() == Ok(Turn::Sent);
    } else {
        good &= turned == Ok(Turn::Sent);
    }
    good && transmit.is_cleaned()
}

/// Sends the first `count` frames, and returns how many were sent up to the first that was not.
pub(crate) fn send(transmit: &mut Transmit, count: u32) -> u32 {
    for k in 0..count {
        if !is_sent(transmit, k as usize) {
            return k;
        }
    }
    count
}

/// Whether a frame of 60 bytes from place `from` is sent by the first call, and its buffer cleaned.
fn is_sent_at_once(transmit: &mut Transmit, from: usize) -> bool {
    transmit.post(60, from, 2_048, true)
        && transmit.turn() == Ok(Turn::Sent)
        && transmit.is_cleaned()
}

/// Sends `count` frames of 60 bytes, each by the first call. Returns how many were sent up to the first that was not,
/// or until the list of frames or the block of their bytes has allocated more than `most` times.
pub(crate) fn send_seldom_growing(transmit: &mut Transmit, count: u32, most: u32) -> u32 {
    let (mut entries, mut bytes) = (0_u32, 0_u32);
    for k in 0..count {
        let before = transmit.capacity();
        if !is_sent_at_once(transmit, k as usize % 20_000) {
            return k;
        }
        let after = transmit.capacity();
        entries = entries.saturating_add(u32::from(after.0 != before.0));
        bytes = bytes.saturating_add(u32::from(after.1 != before.1));
        if entries > most || bytes > most {
            return k;
        }
    }
    count
}
