//! A driver's counts of the frames of a flow.
ghost use Rattle.std.specs.Prelude.{◌≡◌, ◌+◌, ◌≤◌};
ghost use Rattle.limits.specs.declared.profile.TheConstants.{MOST_BATCH};
ghost use Rattle.counters.specs.Kinds.{counted, driven_words};
ghost use Rattle.counters.specs.Snapshots.{NoneFalls};

use crate::snapshot::Snapshot;
use crate::totals::Totals;
use crossbeam_utils::atomic::seq_cell::Words;
use limits::MOST_BATCH;

/// How many numbers [`Driven`] has.
pub const DRIVEN_NUMBERS: usize = 3;

/// The frames of a driver: `posted + tx_dropped` is at most `taken`.
///
/// The counts are exact until one of them might exceed `u64::MAX`; from then on all of them stay unchanged.
#[derive(Clone, Copy, Debug, PartialEq, Eq, Default)]
pub struct Driven {
    /// The frames that were taken.
    pub taken: u64,
    /// The taken frames that were posted.
    pub posted: u64,
    /// The taken frames that were dropped because the transmit ring was full.
    pub tx_dropped: u64,
}

/// The greatest number of taken frames at which the counts still change.
const MOST_EXACT: u64 = u64::MAX - MOST_BATCH as u64;

impl Driven {
    /// These counts plus those of one more turn.
    #[inline]
    pub fn counted(self, taken: usize, posted: usize, dropped: usize) -> Driven
        requires rule { self.posted + self.tx_dropped ≤ self.taken }
        requires taken { taken ≤ MOST_BATCH }
        requires posted { posted ≤ MOST_BATCH }
        requires dropped { dropped ≤ MOST_BATCH }
        ensures value { result ≡ counted self taken posted dropped }
        ensures none_falls { NoneFalls (driven_words self) (driven_words result) }
    {
        if self.taken > MOST_EXACT {
            return self;
        }
        Driven {
            taken: self.taken + taken as u64,
            posted: self.posted + posted as u64,
            tx_dropped: self.tx_dropped + dropped as u64,
        }
    }
}

impl Words<DRIVEN_NUMBERS> for Driven {
    ghost use Rattle.counters.specs.Kinds.{driven_words};

    ghost words = { driven_words };

    fn to_words(self) -> [u64; DRIVEN_NUMBERS] {
        [self.taken, self.posted, self.tx_dropped]
    }

    fn from_words(bits: &[u64; DRIVEN_NUMBERS]) -> Self {
        Driven {
            taken: bits[0],
            posted: bits[1],
            tx_dropped: bits[2],
        }
    }
}

impl Snapshot<DRIVEN_NUMBERS> for Driven {
    ghost use Rattle.counters.specs.Kinds.{WasTaken, none_taken};

    ghost lawful = { WasTaken };

    ghost opening = { none_taken };

    fn opening() -> Self {
        Driven::default()
    }

    fn is_lawful(&self) -> bool {
        self.posted <= self.taken && self.tx_dropped <= self.taken - self.posted
    }
}

impl Totals<DRIVEN_NUMBERS> for Driven {
    ghost use Rattle.std.proofs.Common.{rules};
    ghost use Rattle.counters.specs.Kinds.{driven_sum};

    ghost sum = { driven_sum };

    fn plus(self, more: Driven) -> Option<Driven> {
        Some(Driven {
            taken: self.taken.checked_add(more.taken)?,
            posted: self.posted.checked_add(more.posted)?,
            tx_dropped: self.tx_dropped.checked_add(more.tx_dropped)?,
        })
    }

    ghost rises = { Prim.search rules };

    ghost adds_nothing = { Prim.search rules };

    ghost begins = { Prim.search rules };
}
