//! The two halves of a new ring of either direction.
ghost use Rattle.std.specs.Prelude.{◌≡◌, ◌≢◌, ◌⊎◌, IfErr, IfOk};
ghost use Rattle.limits.specs.RingLength.{IsRingLength};
ghost use Rattle.ring_model.specs.declared.states.Completion.TheVariants as by;
ghost use Rattle.rx_ring.specs.Meeting as rx;
ghost use Rattle.tx_ring.specs.Meeting as tx;

use crate::half::{Half, OfRing};
use crate::makings::Unmade;
use crate::makings::owners::shared;
use rx_ring::{RxControllerEnd, RxDriverEnd, RxRing};
use shared_ring::SharedRing;
use std::alloc::Global;
use tx_ring::{Completion, TxControllerEnd, TxDriverEnd, TxRing};

/// How a transmit ring reports: by DD in its descriptors, or by a head word if `by_head` is not 0.
pub(crate) fn completion_of(by_head: u32) -> Completion
    ensures status { by_head ≡ 0 → result ≡ by.Status }
    ensures head { by_head ≢ 0 → result ≡ by.Head }
{
    if by_head == 0 {
        Completion::Status
    } else {
        Completion::Head
    }
}

/// Makes a receive ring of `ring` descriptors, and returns its two halves: each an end with an owner of the ring.
pub(crate) fn rx_halves(
    alloc: Global,
    ring: u32,
) -> Result<(Half<RxRing, RxDriverEnd>, Half<RxRing, RxControllerEnd>), Unmade>
    ensures made { IfOk result (λ r. rx.MadeSeats ring r.0.table r.0 r.1) }
    ensures length { IfErr result (λ e. e ≡ Unmade.Length → ¬ IsRingLength ring) }
    ensures refusals { IfErr result (λ e. (e ≡ Unmade.Length) ⊎ (e ≡ Unmade.Memory)) }
{
    match RxRing::new(alloc, ring) {
        Ok((ring, driver, controller)) => halves(alloc, ring, driver, controller),
        Err(why) => Err(Unmade::of(why)),
    }
}

/// Makes a transmit ring of `ring` descriptors, which reports by `completion`, and returns its two halves.
pub(crate) fn tx_halves(
    alloc: Global,
    ring: u32,
    completion: Completion,
) -> Result<(Half<TxRing, TxDriverEnd>, Half<TxRing, TxControllerEnd>), Unmade>
    ensures made { IfOk result (λ r. tx.MadeSeats ring completion r.0.table r.0 r.1) }
    ensures length { IfErr result (λ e. e ≡ Unmade.Length → ¬ IsRingLength ring) }
    ensures refusals { IfErr result (λ e. (e ≡ Unmade.Length) ⊎ (e ≡ Unmade.Memory)) }
{
    match TxRing::new_with(alloc, ring, completion) {
        Ok((ring, driver, controller)) => halves(alloc, ring, driver, controller),
        Err(why) => Err(Unmade::of(why)),
    }
}

/// Pairs each end of a ring with an owner of it.
fn halves<R: SharedRing + Drop, D: OfRing + Drop, C: OfRing + Drop>(
    alloc: Global,
    ring: R,
    driver: D,
    controller: C,
) -> Result<(Half<R, D>, Half<R, C>), Unmade>
    requires driver { D.table driver ≡ R.table ring }
    requires controller { C.table controller ≡ R.table ring }
    ensures driver { IfOk result (λ r. r.0 ≡ driver) }
    ensures controller { IfOk result (λ r. r.1 ≡ controller) }
    ensures refusal { IfErr result (λ e. e ≡ Unmade.Memory) }
{
    let (ring, other) = shared(alloc, ring)?;
    Ok((Half::of(ring, driver), Half::of(other, controller)))
}
