//! Counts of offered frames by outcome.
ghost use Rattle.std.specs.Prelude.{◌≡◌};
ghost use Rattle.counters.specs.Kinds.{AddsUp};
ghost use Rattle.controller.specs.Tallying.{counted};

use crate::offer::Offer;
use counters::Tally;

/// The tally with one more outcome. A frame that is held, or offered to a queue that is off, is not counted.
///
/// The counts are exact until one of them would exceed `u64::MAX`; from then on the whole tally stays unchanged.
#[inline]
pub(crate) fn counted(tally: Tally, offer: Offer) -> Tally
    requires { AddsUp tally }
    ensures value { result ≡ counted tally offer }
    ensures adds { AddsUp result }
{
    if tally.offered == u64::MAX {
        return tally;
    }
    match offer {
        Offer::Stored => Tally {
            offered: tally.offered + 1,
            stored: tally.stored + 1,
            ..tally
        },
        Offer::Dropped => Tally {
            offered: tally.offered + 1,
            dropped: tally.dropped + 1,
            ..tally
        },
        Offer::Oversize => Tally {
            offered: tally.offered + 1,
            oversize: tally.oversize + 1,
            ..tally
        },
        Offer::Off | Offer::Held => tally,
    }
}
