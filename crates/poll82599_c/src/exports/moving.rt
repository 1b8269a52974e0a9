//! The exports that move buffers between a queue and a worker. The driver's thread calls them. Each returns 1: done, or a
//! number that is listed, or `0xFFFF_FFFF`: a handle is empty or of another kind; nothing changes.
ghost use Rattle.std.specs.Prelude.{◌≡◌, ◌⊎◌, None};
ghost use Rattle.poll82599_c.specs.Handles.{as_packets, as_rx_queue, as_tx_queue};
ghost use Rattle.poll82599_c.specs.Held.{Among};
ghost use Rattle.poll82599_c.specs.batches.Packets.{MovedBuffers};
ghost use Rattle.poll82599_c.specs.batches.Queues.{SameQueue, TriedReclaim};
ghost use Rattle.poll82599_c.specs.batches.Receiving.{receiver};
ghost use Rattle.poll82599_c.specs.batches.Receiving as rx_queue;
ghost use Rattle.poll82599_c.specs.batches.Transmitting.{transmitter};
ghost use Rattle.poll82599_c.specs.batches.Transmitting as tx_queue;

use crate::batches::{BatchQueue, Found};
use crate::call::NO_OPERATION;
use crate::end::End;
use crate::handle::Handle;

/// Takes a batch of `count` packets from a receive queue, and posts `posted` empty buffers. 0: the queue was not seen on, or
/// was seen off.
#[unsafe(no_mangle)]
pub extern "C" fn poll82599_rx_queue_batch(
    queue: &mut Handle,
    packets: &mut Handle,
    count: &mut usize,
    posted: &mut usize,
) -> u32
    ensures other { (as_rx_queue queue.old.held ≡ None) ⊎ (as_packets packets.old.held ≡ None) → (result ≡ 4294967295) × (queue.new.held ≡ queue.old.held) × (packets.new.held ≡ packets.old.held) × (count.new ≡ 0) × (posted.new ≡ posted.old) }
    ensures own { SameQueue receiver (as_rx_queue queue.old.held) (as_rx_queue queue.new.held) }
    ensures step { Among (rx_queue.TriedBatch result count.new) (as_rx_queue queue.old.held) (as_packets packets.old.held) (as_rx_queue queue.new.held) (as_packets packets.new.held) }
    ensures buffers { Among (λ _ had _ has. MovedBuffers posted.new had has) (as_rx_queue queue.old.held) (as_packets packets.old.held) (as_rx_queue queue.new.held) (as_packets packets.new.held) }
{
    let none = Found::nothing(NO_OPERATION);
    let found = step_both!(queue, packets, none, RxQueue(receiving), Packets(held) => {
        let had = held.stash.len();
        let found = receiving.batch(held);
        *posted = held.moved_since(had);
        found
    });
    *count = found.count;
    found.answer
}

/// Takes `count` buffers of a disabled receive queue back into the stash. 0: some are
/// left, because the stash is full; 2: it was not seen disabled.
#[unsafe(no_mangle)]
pub extern "C" fn poll82599_rx_queue_reclaim(
    queue: &mut Handle,
    packets: &mut Handle,
    count: &mut usize,
) -> u32
    ensures other { (as_rx_queue queue.old.held ≡ None) ⊎ (as_packets packets.old.held ≡ None) → (result ≡ 4294967295) × (queue.new.held ≡ queue.old.held) × (packets.new.held ≡ packets.old.held) × (count.new ≡ 0) }
    ensures own { SameQueue receiver (as_rx_queue queue.old.held) (as_rx_queue queue.new.held) }
    ensures step { Among (TriedReclaim receiver result count.new) (as_rx_queue queue.old.held) (as_packets packets.old.held) (as_rx_queue queue.new.held) (as_packets packets.new.held) }
    ensures some { (result ≡ 0) → Among (λ _ had _ has. MovedBuffers count.new had has) (as_rx_queue queue.old.held) (as_packets packets.old.held) (as_rx_queue queue.new.held) (as_packets packets.new.held) }
{
    let none = Found::nothing(NO_OPERATION);
    let found = step_both!(queue, packets, none, RxQueue(receiving), Packets(held) => {
        receiving.reclaim(held)
    });
    *count = found.count;
    found.answer
}

/// Takes `cleaned` reported buffers of a transmit queue back, and posts `count` packets. 0: the queue was not seen on, or was
/// seen off; 3: the oldest packet is too long.
#[unsafe(no_mangle)]
pub extern "C" fn poll82599_tx_queue_batch(
    queue: &mut Handle,
    packets: &mut Handle,
    count: &mut usize,
    cleaned: &mut usize,
) -> u32
    ensures other { (as_tx_queue queue.old.held ≡ None) ⊎ (as_packets packets.old.held ≡ None) → (result ≡ 4294967295) × (queue.new.held ≡ queue.old.held) × (packets.new.held ≡ packets.old.held) × (count.new ≡ 0) × (cleaned.new ≡ cleaned.old) }
    ensures own { SameQueue transmitter (as_tx_queue queue.old.held) (as_tx_queue queue.new.held) }
    ensures step { Among (tx_queue.TriedBatch result count.new) (as_tx_queue queue.old.held) (as_packets packets.old.held) (as_tx_queue queue.new.held) (as_packets packets.new.held) }
    ensures buffers { Among (λ _ had _ has. MovedBuffers cleaned.new had has) (as_tx_queue queue.old.held) (as_packets packets.old.held) (as_tx_queue queue.new.held) (as_packets packets.new.held) }
{
    let none = Found::nothing(NO_OPERATION);
    let found = step_both!(queue, packets, none, TxQueue(sending), Packets(held) => {
        let had = held.stash.len();
        let found = sending.batch(held);
        *cleaned = held.moved_since(had);
        found
    });
    *count = found.count;
    found.answer
}

/// Takes `count` reported buffers of a transmit queue back. 0: the queue was not seen on, or was seen off.
#[unsafe(no_mangle)]
pub extern "C" fn poll82599_tx_queue_clean(
    queue: &mut Handle,
    packets: &mut Handle,
    count: &mut usize,
) -> u32
    ensures other { (as_tx_queue queue.old.held ≡ None) ⊎ (as_packets packets.old.held ≡ None) → (result ≡ 4294967295) × (queue.new.held ≡ queue.old.held) × (packets.new.held ≡ packets.old.held) × (count.new ≡ 0) }
    ensures own { SameQueue transmitter (as_tx_queue queue.old.held) (as_tx_queue queue.new.held) }
    ensures step { Among (tx_queue.TriedCleaning result count.new) (as_tx_queue queue.old.held) (as_packets packets.old.held) (as_tx_queue queue.new.held) (as_packets packets.new.held) }
{
    let none = Found::nothing(NO_OPERATION);
    let found = step_both!(queue, packets, none, TxQueue(sending), Packets(held) => {
        sending.clean(held)
    });
    *count = found.count;
    found.answer
}

/// Takes `count` buffers of a disabled transmit queue back into the stash. 0: some are
/// left, because the stash is full; 2: it was not seen disabled.
#[unsafe(no_mangle)]
pub extern "C" fn poll82599_tx_queue_reclaim(
    queue: &mut Handle,
    packets: &mut Handle,
    count: &mut usize,
) -> u32
    ensures other { (as_tx_queue queue.old.held ≡ None) ⊎ (as_packets packets.old.held ≡ None) → (result ≡ 4294967295) × (queue.new.held ≡ queue.old.held) × (packets.new.held ≡ packets.old.held) × (count.new ≡ 0) }
    ensures own { SameQueue transmitter (as_tx_queue queue.old.held) (as_tx_queue queue.new.held) }
    ensures step { Among (TriedReclaim transmitter result count.new) (as_tx_queue queue.old.held) (as_packets packets.old.held) (as_tx_queue queue.new.held) (as_packets packets.new.held) }
    ensures some { (result ≡ 0) → Among (λ _ had _ has. MovedBuffers count.new had has) (as_tx_queue queue.old.held) (as_packets packets.old.held) (as_tx_queue queue.new.held) (as_packets packets.new.held) }
{
    let none = Found::nothing(NO_OPERATION);
    let found = step_both!(queue, packets, none, TxQueue(sending), Packets(held) => {
        sending.reclaim(held)
    });
    *count = found.count;
    found.answer
}
