//! Two new rings with their ends.
ghost use Rattle.rx_ring.specs.Meeting.{MadeSeats as MadeRx};
ghost use Rattle.tx_ring.specs.Meeting.{MadeSeats as MadeTx};

use crate::tests::threads::frames::{Frames, Lens};
use crate::tests::threads::side::Shared;
use rx_ring::{RxControllerEnd, RxDriverEnd, RxRing};
use std::alloc::Global;
use std::process::Abort;
use tx_ring::{Completion, TxControllerEnd, TxDriverEnd, TxRing};

/// The data that both sides share, and the ends of each side.
#[derive(Drop)]
pub(crate) struct Rings {
    pub shared: Shared,
    /// The ends of the receive ring.
    pub takes: RxDriverEnd,
    pub stores: RxControllerEnd,
    /// The ends of the transmit ring.
    pub posts: TxDriverEnd,
    pub sends: TxControllerEnd,
    n: u32,
    completion: Completion,
    ghost receives: { MadeRx n shared.from takes stores },
    ghost transmits: { MadeTx n completion shared.to posts sends },
}

impl Rings {
    /// Rings of `n` places, and the frames that pass them.
    pub(crate) fn new<R: Abort>(
        rt: &R,
        alloc: Global,
        n: u32,
        completion: Completion,
        lens: Lens,
    ) -> Rings {
        let frames = Frames::new(alloc, lens).expect(rt, "frames");
        let (from, takes, stores) = RxRing::new(alloc, n).expect(rt, "a ring");
        let (to, posts, sends) = TxRing::new_with(alloc, n, completion).expect(rt, "a ring");
        Rings {
            shared: Shared { from, to, frames },
            takes,
            stores,
            posts,
            sends,
            n,
            completion,
        }
    }
}
