//! The two ends of a new ring, step by step.
ghost use Rattle.std.specs.Prelude.{◌≡◌, ◌≢◌, ◌<◌, ◌⊎◌, Some, IfErr, IfOk};
ghost use Rattle.limits.specs.RingLength.{IsRingLength};
ghost use Rattle.poll82599_c.specs.Handles.{as_rx_controller, as_rx_driver, as_tx_controller, as_tx_driver};
ghost use Rattle.poll82599_c.specs.rings.RxEnds as rx;
ghost use Rattle.poll82599_c.specs.rings.TxEnds as tx;

use crate::end::End;
use crate::makings::{Unmade, both_boxed, rx_halves, stash_of, tx_halves};
use crate::rings::{PartialFrame, RxDriving, RxServing, TxDriving, TxServing};
use buffer_pool::Stash;
use std::alloc::Global;
use tx_ring::Completion;

/// Makes a receive ring of `ring` descriptors: its driver, with `buffers` empty buffers, and its controller.
pub(crate) fn rx_ends(
    alloc: Global,
    ring: u32,
    buffers: u32,
) -> Result<(Box<End>, Box<End>), Unmade>
    ensures made { IfOk result (λ r. rx.AreMade ring (as_rx_driver (Some r.0.value)) (as_rx_controller (Some r.1.value))) }
    ensures length { IfErr result (λ e. e ≡ Unmade.Length → ¬ IsRingLength ring) }
    ensures buffers { IfErr result (λ e. e ≡ Unmade.Buffers → (buffers < 16) ⊎ (256 < buffers)) }
    ensures refusals { IfErr result (λ e. e ≢ Unmade.Settings) }
{
    let stash = stash_of(alloc, buffers)?;
    let (driving, serving) = rx_of(alloc, ring, stash)?;
    both_boxed(alloc, End::RxDriver(driving), End::RxController(serving))
}

/// Makes the two ends of a new receive ring. The driver gets these buffers.
fn rx_of(alloc: Global, ring: u32, stash: Stash) -> Result<(RxDriving, RxServing), Unmade>
    ensures made { IfOk result (λ r. rx.AreMade ring (Some r.0) (Some r.1)) }
    ensures length { IfErr result (λ e. e ≡ Unmade.Length → ¬ IsRingLength ring) }
    ensures refusals { IfErr result (λ e. (e ≡ Unmade.Length) ⊎ (e ≡ Unmade.Memory)) }
{
    match rx_halves(alloc, ring) {
        Ok((driver, controller)) => Ok((
            RxDriving {
                ring: driver.ring,
                end: driver.end,
                stash,
                reclaiming: false,
            },
            RxServing {
                ring: controller.ring,
                end: controller.end,
                begun: PartialFrame::none(),
            },
        )),
        Err(why) => {
            drop(stash);
            Err(why)
        }
    }
}

/// Makes a transmit ring of `ring` descriptors, which reports by `completion`: its driver, with `buffers` empty
/// buffers, and its controller.
pub(crate) fn tx_ends(
    alloc: Global,
    ring: u32,
    buffers: u32,
    completion: Completion,
) -> Result<(Box<End>, Box<End>), Unmade>
    ensures made { IfOk result (λ r. tx.AreMade ring completion (as_tx_driver (Some r.0.value)) (as_tx_controller (Some r.1.value))) }
    ensures length { IfErr result (λ e. e ≡ Unmade.Length → ¬ IsRingLength ring) }
    ensures buffers { IfErr result (λ e. e ≡ Unmade.Buffers → (buffers < 16) ⊎ (256 < buffers)) }
    ensures refusals { IfErr result (λ e. e ≢ Unmade.Settings) }
{
    let stash = stash_of(alloc, buffers)?;
    let (driving, serving) = tx_of(alloc, ring, stash, completion)?;
    both_boxed(alloc, End::TxDriver(driving), End::TxController(serving))
}

/// Makes the two ends of a new transmit ring. The driver gets these buffers.
fn tx_of(
    alloc: Global,
    ring: u32,
    stash: Stash,
    completion: Completion,
) -> Result<(TxDriving, TxServing), Unmade>
    ensures made { IfOk result (λ r. tx.AreMade ring completion (Some r.0) (Some r.1)) }
    ensures length { IfErr result (λ e. e ≡ Unmade.Length → ¬ IsRingLength ring) }
    ensures refusals { IfErr result (λ e. (e ≡ Unmade.Length) ⊎ (e ≡ Unmade.Memory)) }
{
    match tx_halves(alloc, ring, completion) {
        Ok((driver, serving)) => Ok((
            TxDriving {
                ring: driver.ring,
                end: driver.end,
                stash,
                begun: PartialFrame::none(),
                paylen: 0,
            },
            serving,
        )),
        Err(why) => {
            drop(stash);
            Err(why)
        }
    }
}
