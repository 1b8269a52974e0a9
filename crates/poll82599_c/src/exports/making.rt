//! The exports that make a ring, a queue or a worker's packets. Any thread may call them.
ghost use Rattle.std.specs.Prelude.{◌≡◌, ◌≢◌, ◌<◌, ◌⊎◌, [], None, pos};
ghost use Rattle.limits.specs.RingLength.{IsRingLength};
ghost use Rattle.limits.specs.FillSize.{IsFillSize};
ghost use Rattle.ring_model.specs.declared.states.Completion.TheVariants as by;
ghost use Rattle.ffi_handle.specs.Words.{is_set};
ghost use Rattle.poll82599_c.specs.Handles.{as_packets, as_pool, as_rx_controller, as_rx_device, as_rx_driver, as_rx_queue, as_sender, as_tx_controller, as_tx_device, as_tx_driver, as_tx_queue};
ghost use Rattle.poll82599_c.specs.Held.{There};
ghost use Rattle.poll82599_c.specs.Stashes.{AreBuffers};
ghost use Rattle.poll82599_c.specs.batches.Packets.{IsMade};
ghost use Rattle.poll82599_c.specs.batches.Receiving as rx_queue;
ghost use Rattle.poll82599_c.specs.batches.Transmitting as tx_queue;
ghost use Rattle.poll82599_c.specs.rings.RxEnds as rx;
ghost use Rattle.poll82599_c.specs.rings.TxEnds as tx;

use crate::batches::{fresh_packets, fresh_pool};
use crate::handle::Handle;
use crate::makings::{completion_of, put_both, put_one, rx_ends, rx_queue, tx_ends, tx_queue};
use ffi_handle::is_set;
use std::alloc::Global;

/// Makes a receive ring of `descriptors` descriptors: its driver with `buffers` empty buffers, and its controller.
/// Returns 0: done; 1: the length is not a power of two from 8 to 4,096; 2: memory was refused; 3: `buffers` is not 16 to
/// 256; 5: a handle holds an object. Only 0 changes the handles.
#[unsafe(no_mangle)]
pub extern "C" fn poll82599_rx_new(
    alloc: Global,
    descriptors: u32,
    buffers: u32,
    driver: &mut Handle,
    controller: &mut Handle,
) -> i32
    ensures made { (result ≡ pos 0) → rx.AreMade descriptors (as_rx_driver driver.new.held) (as_rx_controller controller.new.held) }
    ensures length { (result ≡ pos 1) → ¬ IsRingLength descriptors }
    ensures buffers { (result ≡ pos 3) → (buffers < 16) ⊎ (256 < buffers) }
    ensures settings { result ≢ pos 4 }
    ensures was_empty { (result ≡ pos 0) → (driver.old.held ≡ None) × (controller.old.held ≡ None) }
    ensures in_use { (result ≡ pos 5) → (driver.old.held ≢ None) ⊎ (controller.old.held ≢ None) }
    ensures kept { (result ≡ pos 5) → (driver.new.held ≡ driver.old.held) × (controller.new.held ≡ controller.old.held) }
    ensures driver { (result ≢ pos 0) → (result ≢ pos 5) → driver.new ≡ driver.old }
    ensures controller { (result ≢ pos 0) → (result ≢ pos 5) → controller.new ≡ controller.old }
{
    put_both(rx_ends(alloc, descriptors, buffers), driver, controller)
}

/// Makes a transmit ring of `descriptors` descriptors: its driver with `buffers` empty buffers, and its controller. The
/// ring reports by DD in its descriptors, or by a head word if `by_head` is not 0. Returns 0: done; 1: the length is no
/// power of two from 8 to 4,096; 2: memory was refused; 3: `buffers` is not 16 to 256; 5: a handle holds an object. Only
/// 0 changes the handles.
#[unsafe(no_mangle)]
pub extern "C" fn poll82599_tx_new(
    alloc: Global,
    descriptors: u32,
    buffers: u32,
    by_head: u32,
    driver: &mut Handle,
    controller: &mut Handle,
) -> i32
    ensures status { (result ≡ pos 0) → (by_head ≡ 0) → tx.AreMade descriptors by.Status (as_tx_driver driver.new.held) (as_tx_controller controller.new.held) }
    ensures head { (result ≡ pos 0) → (by_head ≢ 0) → tx.AreMade descriptors by.Head (as_tx_driver driver.new.held) (as_tx_controller controller.new.held) }
    ensures length { (result ≡ pos 1) → ¬ IsRingLength descriptors }
    ensures buffers { (result ≡ pos 3) → (buffers < 16) ⊎ (256 < buffers) }
    ensures settings { result ≢ pos 4 }
    ensures was_empty { (result ≡ pos 0) → (driver.old.held ≡ None) × (controller.old.held ≡ None) }
    ensures in_use { (result ≡ pos 5) → (driver.old.held ≢ None) ⊎ (controller.old.held ≢ None) }
    ensures kept { (result ≡ pos 5) → (driver.new.held ≡ driver.old.held) × (controller.new.held ≡ controller.old.held) }
    ensures driver { (result ≢ pos 0) → (result ≢ pos 5) → driver.new ≡ driver.old }
    ensures controller { (result ≢ pos 0) → (result ≢ pos 5) → controller.new ≡ controller.old }
{
    let made = tx_ends(alloc, descriptors, buffers, completion_of(by_head));
    put_both(made, driver, controller)
}

/// Makes a receive queue of `descriptors` descriptors. Its driver takes up to `batch` packets at once. Its device fills
/// buffers to `fill` bytes. If too few descriptors are free, it drops a frame, or holds it if `drop_en` is 0. Returns
/// 0: done; 1: the length is not a power of two from 8 to 4,096; 2: memory was refused; 4: `batch` is not 1 to 32, or
/// `fill` is not 1,024 or 2,048; 5: a handle holds an object. Only 0 changes the handles.
#[unsafe(no_mangle)]
pub extern "C" fn poll82599_rx_queue_new(
    alloc: Global,
    descriptors: u32,
    batch: usize,
    fill: usize,
    drop_en: u32,
    queue: &mut Handle,
    device: &mut Handle,
) -> i32
    ensures made { (result ≡ pos 0) → rx_queue.AreMade descriptors batch fill (is_set drop_en) (as_rx_queue queue.new.held) (as_rx_device device.new.held) }
    ensures length { (result ≡ pos 1) → ¬ IsRingLength descriptors }
    ensures settings { (result ≡ pos 4) → ((batch ≡ 0) ⊎ (32 < batch)) ⊎ ¬ IsFillSize fill }
    ensures buffers { result ≢ pos 3 }
    ensures was_empty { (result ≡ pos 0) → (queue.old.held ≡ None) × (device.old.held ≡ None) }
    ensures in_use { (result ≡ pos 5) → (queue.old.held ≢ None) ⊎ (device.old.held ≢ None) }
    ensures kept { (result ≡ pos 5) → (queue.new.held ≡ queue.old.held) × (device.new.held ≡ device.old.held) }
    ensures queue { (result ≢ pos 0) → (result ≢ pos 5) → queue.new ≡ queue.old }
    ensures device { (result ≢ pos 0) → (result ≢ pos 5) → device.new ≡ device.old }
{
    put_both(
        rx_queue(alloc, descriptors, batch, fill, is_set(drop_en)),
        queue,
        device,
    )
}

/// Makes a transmit queue of `descriptors` descriptors, and its device. The queue reports by DD in its descriptors, or
/// by a head word if `by_head` is not 0. Its driver asks for a report with each `every`th frame. Returns 0: done; 1:
/// the length is not a power of two from 8 to 4,096; 2: memory was refused; 4: `every` is not 1 to 4,096; 5: a handle
/// holds an object. Only 0 changes the handles.
#[unsafe(no_mangle)]
pub extern "C" fn poll82599_tx_queue_new(
    alloc: Global,
    descriptors: u32,
    every: u16,
    by_head: u32,
    queue: &mut Handle,
    device: &mut Handle,
) -> i32
    ensures status { (result ≡ pos 0) → (by_head ≡ 0) → tx_queue.AreMade descriptors every by.Status (as_tx_queue queue.new.held) (as_tx_device device.new.held) }
    ensures head { (result ≡ pos 0) → (by_head ≢ 0) → tx_queue.AreMade descriptors every by.Head (as_tx_queue queue.new.held) (as_tx_device device.new.held) }
    ensures none_waits { (result ≡ pos 0) → There (λ s. s.waiting ≡ []) (as_sender device.new.held) }
    ensures length { (result ≡ pos 1) → ¬ IsRingLength descriptors }
    ensures settings { (result ≡ pos 4) → (every ≡ 0) ⊎ (4096 < every) }
    ensures buffers { result ≢ pos 3 }
    ensures was_empty { (result ≡ pos 0) → (queue.old.held ≡ None) × (device.old.held ≡ None) }
    ensures in_use { (result ≡ pos 5) → (queue.old.held ≢ None) ⊎ (device.old.held ≢ None) }
    ensures kept { (result ≡ pos 5) → (queue.new.held ≡ queue.old.held) × (device.new.held ≡ device.old.held) }
    ensures queue { (result ≢ pos 0) → (result ≢ pos 5) → queue.new ≡ queue.old }
    ensures device { (result ≢ pos 0) → (result ≢ pos 5) → device.new ≡ device.old }
{
    let made = tx_queue(alloc, descriptors, every, completion_of(by_head));
    put_both(made, queue, device)
}

/// Makes a worker's packets: none, and `buffers` empty buffers. Returns 0: done; 2: memory was refused; 3: `buffers` is
/// not 16 to 256; 5: the handle holds an object. Only 0 changes the handle.
#[unsafe(no_mangle)]
pub extern "C" fn poll82599_packets_new(alloc: Global, buffers: u32, packets: &mut Handle) -> i32
    ensures made { (result ≡ pos 0) → IsMade buffers (as_packets packets.new.held) }
    ensures buffers { (result ≡ pos 3) → (buffers < 16) ⊎ (256 < buffers) }
    ensures was_empty { (result ≡ pos 0) → packets.old.held ≡ None }
    ensures in_use { (result ≡ pos 5) → (packets.old.held ≢ None) × (packets.new.held ≡ packets.old.held) }
    ensures kept { (result ≢ pos 0) → (result ≢ pos 5) → packets.new ≡ packets.old }
{
    put_one(fresh_packets(alloc, buffers), packets)
}

/// Makes a pool of `buffers` empty buffers. Returns 0: done; 2: memory was refused; 3: `buffers` is not 16 to 65,536; 5:
/// the handle holds an object. Only 0 changes the handle.
#[unsafe(no_mangle)]
pub extern "C" fn poll82599_pool_new(alloc: Global, buffers: u32, pool: &mut Handle) -> i32
    ensures made { (result ≡ pos 0) → There (AreBuffers buffers) (as_pool pool.new.held) }
    ensures buffers { (result ≡ pos 3) → (buffers < 16) ⊎ (65536 < buffers) }
    ensures was_empty { (result ≡ pos 0) → pool.old.held ≡ None }
    ensures in_use { (result ≡ pos 5) → (pool.old.held ≢ None) × (pool.new.held ≡ pool.old.held) }
    ensures kept { (result ≢ pos 0) → (result ≢ pos 5) → pool.new ≡ pool.old }
{
    put_one(fresh_pool(alloc, buffers), pool)
}
