//! The driver and the device of a new queue.
ghost use Rattle.std.specs.Prelude.{◌≡◌, ◌≢◌, ◌<◌, ◌⊎◌, Some, [], IfErr, IfOk};
ghost use Rattle.limits.specs.RingLength.{IsRingLength};
ghost use Rattle.limits.specs.FillSize.{IsFillSize};
ghost use Rattle.poll82599_c.specs.Handles.{as_rx_device, as_rx_queue, as_sender, as_tx_device, as_tx_queue};
ghost use Rattle.poll82599_c.specs.Held.{There};
ghost use Rattle.poll82599_c.specs.batches.Receiving as rx_queue;
ghost use Rattle.poll82599_c.specs.batches.Transmitting as tx_queue;

use crate::batches::Sender;
use crate::end::End;
use crate::half::Half;
use crate::makings::{Unmade, both_boxed, rx_halves, tx_halves};
use controller::{RxController, TxController, is_fill_size};
use driver::{MOST_BATCH, MOST_RS_EVERY, RxDriver, TxDriver};
use std::alloc::Global;
use tx_ring::Completion;

/// Makes a receive queue of `ring` descriptors. Its driver takes up to `batch` packets at once. Its device fills
/// buffers to `fill` bytes. If too few descriptors are free, it drops a frame if `drop_en`, otherwise it holds it.
pub(crate) fn rx_queue(
    alloc: Global,
    ring: u32,
    batch: usize,
    fill: usize,
    drop_en: bool,
) -> Result<(Box<End>, Box<End>), Unmade>
    ensures made { IfOk result (λ r. rx_queue.AreMade ring batch fill drop_en (as_rx_queue (Some r.0.value)) (as_rx_device (Some r.1.value))) }
    ensures length { IfErr result (λ e. e ≡ Unmade.Length → ¬ IsRingLength ring) }
    ensures settings { IfErr result (λ e. e ≡ Unmade.Settings → ((batch ≡ 0) ⊎ (32 < batch)) ⊎ ¬ IsFillSize fill) }
    ensures refusals { IfErr result (λ e. e ≢ Unmade.Buffers) }
{
    if batch == 0 || MOST_BATCH < batch || !is_fill_size(fill) {
        return Err(Unmade::Settings);
    }
    let (driver, controller) = rx_halves(alloc, ring)?;
    let queue = Half::of(driver.ring, RxDriver::new(driver.end, batch));
    let serving = RxController::new(controller.end, fill, drop_en);
    let device = Half::of(controller.ring, serving);
    both_boxed(alloc, End::RxQueue(queue), End::RxDevice(device))
}

/// Makes a transmit queue of `ring` descriptors, which reports by `completion`. Its driver asks for a report with each
/// `every`th frame.
pub(crate) fn tx_queue(
    alloc: Global,
    ring: u32,
    every: u16,
    completion: Completion,
) -> Result<(Box<End>, Box<End>), Unmade>
    ensures made { IfOk result (λ r. tx_queue.AreMade ring every completion (as_tx_queue (Some r.0.value)) (as_tx_device (Some r.1.value))) }
    ensures none_waits { IfOk result (λ r. There (λ s. s.waiting ≡ []) (as_sender (Some r.1.value))) }
    ensures length { IfErr result (λ e. e ≡ Unmade.Length → ¬ IsRingLength ring) }
    ensures settings { IfErr result (λ e. e ≡ Unmade.Settings → (every ≡ 0) ⊎ (4096 < every)) }
    ensures refusals { IfErr result (λ e. e ≢ Unmade.Buffers) }
{
    if every == 0 || MOST_RS_EVERY < every {
        return Err(Unmade::Settings);
    }
    let (driver, controller) = tx_halves(alloc, ring, completion)?;
    let queue = Half::of(driver.ring, TxDriver::new(driver.end, every));
    let serving = Sender::new(alloc, TxController::new(controller.end));
    let device = Half::of(controller.ring, serving);
    both_boxed(alloc, End::TxQueue(queue), End::TxDevice(device))
}
