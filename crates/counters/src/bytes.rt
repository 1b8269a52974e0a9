//! The frames and bytes of a queue.

use crate::snapshot::Snapshot;
use crossbeam_utils::atomic::seq_cell::Words;
use limits::{LEAST_FRAME, MOST_FRAME};

/// The frames of a queue and their bytes, `LEAST_FRAME` to `MOST_FRAME` each.
#[derive(Clone, Copy, Debug, PartialEq, Eq)]
pub struct Bytes {
    /// The number of frames.
    pub frames: u64,
    /// The number of bytes of all frames.
    pub bytes: u64,
}

impl Words<2> for Bytes {
    ghost use Rattle.std.specs.Prelude.{[], ◌∷◌};

    ghost words = { λ x. x.frames ∷ x.bytes ∷ [] };

    fn to_words(self) -> [u64; 2] {
        [self.frames, self.bytes]
    }

    fn from_words(bits: &[u64; 2]) -> Self {
        Bytes {
            frames: bits[0],
            bytes: bits[1],
        }
    }
}

impl Snapshot<2> for Bytes {
    ghost use Rattle.counters.specs.Kinds.{FillFrames, no_bytes};

    ghost lawful = { FillFrames };

    ghost opening = { no_bytes };

    fn opening() -> Self {
        Bytes {
            frames: 0,
            bytes: 0,
        }
    }

    fn is_lawful(&self) -> bool {
        let least = u128::from(self.frames) * LEAST_FRAME as u128;
        let most = u128::from(self.frames) * MOST_FRAME as u128;
        (least..=most).contains(&u128::from(self.bytes))
    }
}
