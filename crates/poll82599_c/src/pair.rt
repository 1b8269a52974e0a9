//! The pairs of objects that are closed together.
ghost use Rattle.std.specs.Prelude.{◌≡◌, true, false, Some};
ghost use Rattle.poll82599_c.specs.Pairs.{IsPair, LacksOne};

use crate::end::End;

/// A kind of pair: a ring's driver and controller, or a queue's driver and device.
#[derive(Clone, Copy)]
pub(crate) enum HandlePair {
    RxRing,
    TxRing,
    RxQueue,
    TxQueue,
}

impl HandlePair {
    /// Whether two objects are such a pair.
    pub(crate) fn is(self, one: &End, other: &End) -> bool
        ensures are { result ≡ true → IsPair self one.now other.now }
        ensures lacks { result ≡ false → LacksOne self (Some one.now) (Some other.now) }
    {
        match (self, one, other) {
            (HandlePair::RxRing, End::RxDriver(_), End::RxController(_)) => true,
            (HandlePair::TxRing, End::TxDriver(_), End::TxController(_)) => true,
            (HandlePair::RxQueue, End::RxQueue(_), End::RxDevice(_)) => true,
            (HandlePair::TxQueue, End::TxQueue(_), End::TxDevice(_)) => true,
            _ => false,
        }
    }
}
