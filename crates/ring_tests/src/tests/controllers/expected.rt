//! The results of steps of a controller, or of the driver beside it.

use crate::{Random, YesOrNo};
use controller::{CtlError, Offer, Turn};
use std::alloc::Global;
use std::process::Abort;

/// The result of a step.
#[derive(Clone, Copy, PartialEq, Drop)]
pub(crate) enum Expected {
    True,
    False,
    Count(u32),
    /// The outcome of an offered frame.
    Offered(Offer),
    /// The outcome of a turn.
    Turned(Turn),
    Refused(CtlError),
}

impl YesOrNo for Expected {
    const YES: Expected = Expected::True;

    const NO: Expected = Expected::False;
}

/// How many rows had their results, and whether the controller's end was between two frames of an enabled queue
/// afterwards.
#[derive(Clone, Copy)]
pub(crate) struct Walked {
    pub told: usize,
    pub ends_between_frames: bool,
}

/// Adds rows, each a step and its expected result.
pub(crate) fn add<R: Abort, S: Copy>(
    rt: &R,
    rows: &mut Vec<(S, Expected)>,
    more: &[(S, Expected)],
) {
    rows.extend_from_slice(more).expect(rt, "memory");
}

/// Random bytes, of which frames are parts.
#[derive(Drop)]
pub(crate) struct Bytes(Vec<u8>);

impl Bytes {
    /// 20,300 bytes.
    pub(crate) fn new<R: Abort>(rt: &R, alloc: Global) -> Bytes {
        let mut random = Random::new(82_599);
        let mut bytes = Vec::with_capacity(alloc, 20_300).expect(rt, "memory");
        for _ in 0..20_300 {
            bytes.push(random.below(256) as u8).expect(rt, "memory");
        }
        Bytes(bytes)
    }

    /// `len` bytes from place `from` on.
    pub(crate) fn frame(&self, from: usize, len: usize) -> &[u8] {
        self.0.get(from..from.saturating_add(len)).unwrap_or(&[])
    }

    /// Whether these bytes are those from place `from` on.
    pub(crate) fn are_at(&self, from: usize, bytes: &[u8]) -> bool {
        self.frame(from, bytes.len()) == bytes
    }
}

/// Takes buffers back from a disabled queue, at most 32, and counts them; if it is not disabled, the calling method returns
/// `None`. For a struct with fields `ring`, `driver` and `spare`.
#[macro_export]
macro_rules! taken_back {
    ($queue:expr) => {{
        let mut count = 0_u32;
        for _ in 0..32 {
            if !$queue.driver.is_stopped() {
                return None;
            }
            let Some(buf) = $queue.driver.reclaim(&$queue.ring) else {
                break;
            };
            put_back(&mut $queue.spare, buf);
            count = count.saturating_add(1);
        }
        count
    }};
}

/// Makes the rows' steps on a queue, a struct with a field `controller`: their results, and the state of the
/// controller's end afterwards, which `is_busy` tests.
#[macro_export]
macro_rules! walked {
    ($queue:expr, $rows:expr, $is_busy:ident) => {{
        let told = told_so(&mut $queue, $rows);
        let end = $queue.controller.into_end();
        Walked {
            told,
            ends_between_frames: end.is_serving() && end.is_between_frames() && !end.$is_busy(),
        }
    }};
}
