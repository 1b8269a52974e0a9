//! The exports that close a ring, a queue, a worker's packets or a pool.
//!
//! No other thread may use a handle that is closed. Both handles of a pair must hold the ends of one ring.
ghost use Rattle.std.specs.Prelude.{◌≡◌, ◌≢◌, ◌⊎◌, Some, None, length, IfErr, IfOk, OnErr, negsuc};
ghost use Rattle.poll82599_c.specs.Handles.{as_packets, as_pool, as_rx_controller, as_rx_device, as_rx_driver, as_rx_queue, as_tx_controller, as_tx_device, as_tx_driver, as_tx_queue};
ghost use Rattle.poll82599_c.specs.Pairs.{IsPair, LacksOne};
ghost use Rattle.poll82599_c.specs.Held.{AreClosed, Of};
ghost use Rattle.poll82599_c.specs.batches.Packets.{HadPackets};
ghost use Rattle.poll82599_c.specs.batches.Receiving as rx_queue;
ghost use Rattle.poll82599_c.specs.batches.Transmitting as tx_queue;
ghost use Rattle.poll82599_c.specs.rings.RxEnds as rx;
ghost use Rattle.poll82599_c.specs.rings.Steps.{AreOfOne};
ghost use Rattle.poll82599_c.specs.rings.TxEnds as tx;

use crate::batches::{RxDevice, RxQueue, TxDevice, TxQueue};
use crate::call::UNHELD;
use crate::end::End;
use crate::half::Half;
use crate::handle::{Handle, take_both};
use crate::makings::{lying, sole, unclosed};
use crate::pair::HandlePair;
use crate::rings::{RxDriving, RxServing, TxDriving, TxServing};
use rx_ring::{RxControllerEnd, RxDriverEnd, RxRing, meet_rx};
use std::alloc::Global;
use tx_ring::{TxControllerEnd, TxDriverEnd, TxRing, meet_tx};

/// Closes the two objects that a pair of handles holds. The value is that of the closing, or the refusal of `take_pair`.
macro_rules! close {
    (
        $alloc:ident, $one:ident, $other:ident, $pair:ident,
        $kind:ident($driving:ident), $with:ident($serving:ident) => $closing:expr
    ) => {
        match take_pair($alloc, $one, $other, HandlePair::$pair) {
            Err(unheld) => unheld,
            Ok((one, other)) => {
                let End::$kind($driving) = one else {
                    unreachable!()
                };
                let End::$with($serving) = other else {
                    unreachable!()
                };
                $closing
            }
        }
    };
}

/// Closes a receive ring by its two ends. Returns how many buffers it held, or -1 if the ring has another owner; both
/// handles are then empty. Returns -2 if a handle is empty or of another kind, and leaves both.
#[unsafe(no_mangle)]
pub extern "C" fn poll82599_rx_close(
    alloc: Global,
    driver: &mut Handle,
    controller: &mut Handle,
) -> i64
    requires { AreOfOne (as_rx_driver driver.old.held) (as_rx_controller controller.old.held) }
    ensures lawful { rx.AreLawful (as_rx_driver driver.old.held) (as_rx_controller controller.old.held) }
    ensures told { rx.AreTold (as_rx_driver driver.old.held) (as_rx_controller controller.old.held) }
    ensures other { (as_rx_driver driver.old.held ≡ None) ⊎ (as_rx_controller controller.old.held ≡ None) → (result ≡ negsuc 1) × (driver.new.held ≡ driver.old.held) × (controller.new.held ≡ controller.old.held) }
    ensures closed { AreClosed (as_rx_driver driver.old.held) (as_rx_controller controller.old.held) result driver.new.held controller.new.held }
{
    close!(alloc, driver, controller, RxRing, RxDriver(driving), RxController(serving) => {
        rx_closed(driving, serving)
    })
}

/// Closes a transmit ring by its two ends. Returns how many buffers it held, or -1 if the ring has another owner;
/// both handles are then empty. Returns -2 if a handle is empty or of another kind, and leaves both.
#[unsafe(no_mangle)]
pub extern "C" fn poll82599_tx_close(
    alloc: Global,
    driver: &mut Handle,
    controller: &mut Handle,
) -> i64
    requires { AreOfOne (as_tx_driver driver.old.held) (as_tx_controller controller.old.held) }
    ensures lawful { tx.AreLawful (as_tx_driver driver.old.held) (as_tx_controller controller.old.held) }
    ensures told { tx.AreTold (as_tx_driver driver.old.held) (as_tx_controller controller.old.held) }
    ensures other { (as_tx_driver driver.old.held ≡ None) ⊎ (as_tx_controller controller.old.held ≡ None) → (result ≡ negsuc 1) × (driver.new.held ≡ driver.old.held) × (controller.new.held ≡ controller.old.held) }
    ensures closed { AreClosed (as_tx_driver driver.old.held) (as_tx_controller controller.old.held) result driver.new.held controller.new.held }
{
    close!(alloc, driver, controller, TxRing, TxDriver(driving), TxController(serving) => {
        tx_closed(driving, serving)
    })
}

/// Closes a receive queue by its driver and its device. Returns how many buffers its ring held, or -1 if the ring has
/// another owner; both handles are then empty. Returns -2 if a handle is empty or of another kind, and leaves both.
#[unsafe(no_mangle)]
pub extern "C" fn poll82599_rx_queue_close(
    alloc: Global,
    queue: &mut Handle,
    device: &mut Handle,
) -> i64
    requires { rx_queue.AreOfOne (as_rx_queue queue.old.held) (as_rx_device device.old.held) }
    ensures lawful { rx_queue.AreLawful (as_rx_queue queue.old.held) (as_rx_device device.old.held) }
    ensures told { rx_queue.AreTold (as_rx_queue queue.old.held) (as_rx_device device.old.held) }
    ensures other { (as_rx_queue queue.old.held ≡ None) ⊎ (as_rx_device device.old.held ≡ None) → (result ≡ negsuc 1) × (queue.new.held ≡ queue.old.held) × (device.new.held ≡ device.old.held) }
    ensures closed { AreClosed (as_rx_queue queue.old.held) (as_rx_device device.old.held) result queue.new.held device.new.held }
{
    close!(alloc, queue, device, RxQueue, RxQueue(driving), RxDevice(serving) => {
        rx_queue_closed(driving, serving)
    })
}

/// Closes a transmit queue by its driver and its device. Returns how many buffers its ring held, or -1 if the ring
/// has another owner; both handles are then empty. Returns -2 if a handle is empty or of another kind, and leaves both.
#[unsafe(no_mangle)]
pub extern "C" fn poll82599_tx_queue_close(
    alloc: Global,
    queue: &mut Handle,
    device: &mut Handle,
) -> i64
    requires { tx_queue.AreOfOne (as_tx_queue queue.old.held) (as_tx_device device.old.held) }
    ensures lawful { tx_queue.AreLawful (as_tx_queue queue.old.held) (as_tx_device device.old.held) }
    ensures told { tx_queue.AreTold (as_tx_queue queue.old.held) (as_tx_device device.old.held) }
    ensures other { (as_tx_queue queue.old.held ≡ None) ⊎ (as_tx_device device.old.held ≡ None) → (result ≡ negsuc 1) × (queue.new.held ≡ queue.old.held) × (device.new.held ≡ device.old.held) }
    ensures closed { AreClosed (as_tx_queue queue.old.held) (as_tx_device device.old.held) result queue.new.held device.new.held }
{
    close!(alloc, queue, device, TxQueue, TxQueue(driving), TxDevice(serving) => {
        tx_queue_closed(driving, serving)
    })
}

/// Frees a worker's packets and empty buffers. Returns how many packets there were, or `usize::MAX` if the handle is
/// empty or of another kind, and leaves it then.
#[unsafe(no_mangle)]
pub extern "C" fn poll82599_packets_close(alloc: Global, packets: &mut Handle) -> usize
    ensures count { HadPackets result (as_packets packets.old.held) }
    ensures empty { Of (λ _. packets.new.held ≡ None) (as_packets packets.old.held) }
    ensures other { as_packets packets.old.held ≡ None → (result ≡ 18446744073709551615) × (packets.new.held ≡ packets.old.held) }
{
    let Some(end) = packets.take(alloc) else {
        return usize::MAX;
    };
    let count = match &*end {
        End::Packets(held) => held.list.len(),
        _ => {
            packets.put(end);
            return usize::MAX;
        }
    };
    drop(end);
    count
}

/// Frees a pool's buffers. Returns how many there were, or `usize::MAX` if the handle is empty or of another kind, and
/// leaves it then.
#[unsafe(no_mangle)]
pub extern "C" fn poll82599_pool_close(alloc: Global, pool: &mut Handle) -> usize
    ensures count { Of (λ numbers. result ≡ length numbers) (as_pool pool.old.held) }
    ensures empty { Of (λ _. pool.new.held ≡ None) (as_pool pool.old.held) }
    ensures other { as_pool pool.old.held ≡ None → (result ≡ 18446744073709551615) × (pool.new.held ≡ pool.old.held) }
{
    let Some(end) = pool.take(alloc) else {
        return usize::MAX;
    };
    let count = match &*end {
        End::Pool(held) => held.len(),
        _ => {
            pool.put(end);
            return usize::MAX;
        }
    };
    drop(end);
    count
}

/// Takes the two objects of a pair out of their handles. Refuses with -2 if they hold no such pair, and leaves both.
fn take_pair(
    alloc: Global,
    one: &mut Handle,
    other: &mut Handle,
    pair: HandlePair,
) -> Result<(End, End), i64>
    ensures one { IfOk result (λ r. one.old.held ≡ Some r.0) }
    ensures other { IfOk result (λ r. other.old.held ≡ Some r.1) }
    ensures pair { IfOk result (λ r. IsPair pair r.0 r.1) }
    ensures left { IfOk result (λ _. (one.new.held ≡ None) × (other.new.held ≡ None)) }
    ensures unheld { IfErr result (λ answer. answer ≡ negsuc 1) }
    ensures lacks { OnErr result (LacksOne pair one.old.held other.old.held) }
    ensures kept { OnErr result ((one.new.held ≡ one.old.held) × (other.new.held ≡ other.old.held)) }
{
    let Some((first, second)) = take_both(alloc, one, other) else {
        return Err(UNHELD);
    };
    if pair.is(&first, &second) {
        return Ok((Box::into_inner(first), Box::into_inner(second)));
    }
    one.put(first);
    other.put(second);
    Err(UNHELD)
}

/// Closes a receive ring by its driver and its controller.
fn rx_closed(driving: RxDriving, serving: RxServing) -> i64
    requires { driving.table ≡ serving.table }
    ensures lawful { rx.AreLawful (Some driving) (Some serving) }
    ensures told { rx.AreTold (Some driving) (Some serving) }
    ensures closed { result ≢ negsuc 1 }
{
    let RxDriving {
        ring,
        end,
        stash,
        ..
    } = driving;
    drop(stash);
    let serving = Half::of(serving.ring, serving.end);
    rx_close(Half::of(ring, end), serving)
}

/// Closes a transmit ring by its driver and its controller.
fn tx_closed(driving: TxDriving, serving: TxServing) -> i64
    requires { driving.table ≡ serving.table }
    ensures lawful { tx.AreLawful (Some driving) (Some serving) }
    ensures told { tx.AreTold (Some driving) (Some serving) }
    ensures closed { result ≢ negsuc 1 }
{
    let TxDriving {
        ring,
        end,
        stash,
        ..
    } = driving;
    drop(stash);
    tx_close(Half::of(ring, end), serving)
}

/// Closes a receive queue by its driver and its device.
fn rx_queue_closed(queue: RxQueue, device: RxDevice) -> i64
    requires { queue.end.table ≡ device.end.table }
    ensures lawful { rx_queue.AreLawful (Some queue) (Some device) }
    ensures told { rx_queue.AreTold (Some queue) (Some device) }
    ensures closed { result ≢ negsuc 1 }
{
    let (end, chain) = queue.end.into_end();
    drop(chain);
    let serving = Half::of(device.ring, device.end.into_end());
    rx_close(Half::of(queue.ring, end), serving)
}

/// Closes a transmit queue by its driver and its device.
fn tx_queue_closed(queue: TxQueue, device: TxDevice) -> i64
    requires { queue.end.table ≡ device.end.table }
    ensures lawful { tx_queue.AreLawful (Some queue) (Some device.end) }
    ensures told { tx_queue.AreTold (Some queue) (Some device.end) }
    ensures closed { result ≢ negsuc 1 }
{
    let driving = Half::of(queue.ring, queue.end.into_end());
    let controller = device.end.into_controller();
    let serving = Half::of(device.ring, controller.into_end());
    tx_close(driving, serving)
}

/// Closes a receive ring by its two halves. Returns how many buffers it held, or -1 if the ring has another owner.
fn rx_close(driving: Half<RxRing, RxDriverEnd>, serving: Half<RxRing, RxControllerEnd>) -> i64
    requires { driving.table ≡ serving.table }
    ensures lawful { rx.AreLawful (Some driving) (Some serving) }
    ensures told { rx.AreTold (Some driving) (Some serving) }
    ensures closed { result ≢ negsuc 1 }
{
    let (ring, mut driver) = driving.parts();
    let (other, mut controller) = serving.parts();
    meet_rx(&other, &mut driver, &mut controller);
    match sole(ring, other) {
        Some(ring) => lying(rx_ring::close(ring, driver, controller)),
        None => unclosed(driver, controller),
    }
}

/// Closes a transmit ring by its two halves. Returns how many buffers it held, or -1 if the ring has another owner.
fn tx_close(driving: Half<TxRing, TxDriverEnd>, serving: Half<TxRing, TxControllerEnd>) -> i64
    requires { driving.table ≡ serving.table }
    ensures lawful { tx.AreLawful (Some driving) (Some serving) }
    ensures told { tx.AreTold (Some driving) (Some serving) }
    ensures closed { result ≢ negsuc 1 }
{
    let (ring, mut driver) = driving.parts();
    let (other, mut controller) = serving.parts();
    meet_tx(&other, &mut driver, &mut controller);
    match sole(ring, other) {
        Some(ring) => lying(tx_ring::close(ring, driver, controller)),
        None => unclosed(driver, controller),
    }
}
