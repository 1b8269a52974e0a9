//! The outcomes of the frames offered to a queue.

use crate::snapshot::Snapshot;
use crate::totals::Totals;
use crossbeam_utils::atomic::seq_cell::Words;

/// How many numbers [`Tally`] has.
pub const TALLY_NUMBERS: usize = 4;

/// The outcomes of the frames offered to a receive queue: `offered` is the sum of the other three.
#[derive(Clone, Copy, Debug, PartialEq, Eq, Default)]
pub struct Tally {
    /// The frames that were offered and counted.
    pub offered: u64,
    /// The frames that were stored.
    pub stored: u64,
    /// The frames that were dropped because too few descriptors were free.
    pub dropped: u64,
    /// The frames that need more descriptors than the ring can have free.
    pub oversize: u64,
}

impl Words<TALLY_NUMBERS> for Tally {
    ghost use Rattle.counters.specs.Kinds.{tally_words};

    ghost words = { tally_words };

    fn to_words(self) -> [u64; TALLY_NUMBERS] {
        [self.offered, self.stored, self.dropped, self.oversize]
    }

    fn from_words(bits: &[u64; TALLY_NUMBERS]) -> Self {
        Tally {
            offered: bits[0],
            stored: bits[1],
            dropped: bits[2],
            oversize: bits[3],
        }
    }
}

impl Snapshot<TALLY_NUMBERS> for Tally {
    ghost use Rattle.counters.specs.Kinds.{AddsUp, nothing};

    ghost lawful = { AddsUp };

    ghost opening = { nothing };

    fn opening() -> Self {
        Tally::default()
    }

    fn is_lawful(&self) -> bool {
        let kept = self.stored.checked_add(self.dropped);
        let all = kept.and_then(|kept| kept.checked_add(self.oversize));
        all == Some(self.offered)
    }
}

impl Totals<TALLY_NUMBERS> for Tally {
    ghost use Rattle.std.proofs.Common.{rules};
    ghost use Rattle.counters.specs.Kinds.{tally_sum};

    ghost sum = { tally_sum };

    fn plus(self, more: Tally) -> Option<Tally> {
        Some(Tally {
            offered: self.offered.checked_add(more.offered)?,
            stored: self.stored.checked_add(more.stored)?,
            dropped: self.dropped.checked_add(more.dropped)?,
            oversize: self.oversize.checked_add(more.oversize)?,
        })
    }

    ghost rises = { Prim.search rules };

    ghost adds_nothing = { Prim.search rules };

    ghost begins = { Prim.search rules };
}
