//! The exports that a device's thread calls.
ghost use Rattle.std.specs.Prelude.{◌≡◌, ◌≢◌, None};
ghost use Rattle.poll82599_c.specs.Handles.{as_rx_device, as_sender, as_tx_device};
ghost use Rattle.poll82599_c.specs.Held.{Between};
ghost use Rattle.poll82599_c.specs.batches.Receiving as rx_queue;
ghost use Rattle.poll82599_c.specs.batches.Transmitting as tx_queue;

use crate::call::{NO_OPERATION, Poll82599Counts};
use crate::end::End;
use crate::handle::Handle;

/// Offers a frame to a receive queue. Returns 1: it is stored; 0: it is held, offer it again; 2: no frame has this
/// length; 3: the queue is off or quiet; 4: it is oversize; 5: it is dropped.
#[unsafe(no_mangle)]
pub extern "C" fn poll82599_offer(device: &mut Handle, frame: &[u8]) -> u32
    ensures other { as_rx_device device.old.held ≡ None → (result ≡ 4294967295) × (device.new.held ≡ device.old.held) }
    ensures own { rx_queue.SameDevice (as_rx_device device.old.held) (as_rx_device device.new.held) }
    ensures step { Between (rx_queue.TriedOffer result frame.now) (as_rx_device device.old.held) (as_rx_device device.new.held) }
{
    step!(device, RxDevice(serving) => serving.offer(frame))
}

/// Loads a receive queue's control word and answers a request if it can. Returns the word, 0 to 3.
#[unsafe(no_mangle)]
pub extern "C" fn poll82599_rx_device_control(device: &mut Handle) -> u32
    ensures other { as_rx_device device.old.held ≡ None → (result ≡ 4294967295) × (device.new.held ≡ device.old.held) }
    ensures own { rx_queue.SameDevice (as_rx_device device.old.held) (as_rx_device device.new.held) }
    ensures step { Between (rx_queue.Turned result) (as_rx_device device.old.held) (as_rx_device device.new.held) }
{
    step!(device, RxDevice(serving) => serving.turn_control())
}

/// Says that no more is stored in a receive queue. Returns 1: done; 0: the queue is off, or this was said before.
#[unsafe(no_mangle)]
pub extern "C" fn poll82599_rx_device_finish(device: &mut Handle) -> u32
    ensures other { as_rx_device device.old.held ≡ None → (result ≡ 4294967295) × (device.new.held ≡ device.old.held) }
    ensures own { rx_queue.SameDevice (as_rx_device device.old.held) (as_rx_device device.new.held) }
    ensures step { Between (rx_queue.TriedFinish result) (as_rx_device device.old.held) (as_rx_device device.new.held) }
{
    step!(device, RxDevice(serving) => serving.finish())
}

/// Reads a receive queue's frame counts. Returns 1.
#[unsafe(no_mangle)]
pub extern "C" fn poll82599_rx_device_count(
    device: &mut Handle,
    counts: &mut Poll82599Counts,
) -> u32
    ensures other { as_rx_device device.old.held ≡ None → (result ≡ 4294967295) × (counts.new ≡ counts.old) }
    ensures told { rx_queue.AreCounts counts.new.offered counts.new.stored counts.new.dropped counts.new.oversize (as_rx_device device.old.held) }
    ensures done { as_rx_device device.old.held ≢ None → result ≡ 1 }
    ensures kept { device.new.held ≡ device.old.held }
{
    step!(device, RxDevice(serving) => {
        let tally = serving.tally();
        *counts = Poll82599Counts {
            offered: tally.offered,
            stored: tally.stored,
            dropped: tally.dropped,
            oversize: tally.oversize,
        };
        1
    })
}

/// Sends a transmit queue's next frame into `room`, with its length in `len`. Returns 1: done; 0: none is ready; 3: the
/// queue is off; 4: it was sent, and waits because it is longer than `room`: then the next call hands it out; 5: memory
/// was refused.
#[unsafe(no_mangle)]
pub extern "C" fn poll82599_turn(device: &mut Handle, room: &mut [u8], len: &mut usize) -> u32
    ensures other { as_tx_device device.old.held ≡ None → (result ≡ 4294967295) × (device.new.held ≡ device.old.held) × (room.new ≡ room.old) × (len.new ≡ len.old) }
    ensures own { tx_queue.SameDevice (as_tx_device device.old.held) (as_tx_device device.new.held) }
    ensures step { Between (tx_queue.TriedTurn result len.new room.old room.new) (as_sender device.old.held) (as_sender device.new.held) }
{
    step!(device, TxDevice(serving) => {
        let found = serving.turn(room);
        *len = found.count;
        found.answer
    })
}

/// Loads a transmit queue's control word and answers a request if it can. Returns the word, 0 to 3.
#[unsafe(no_mangle)]
pub extern "C" fn poll82599_tx_device_control(device: &mut Handle) -> u32
    ensures other { as_tx_device device.old.held ≡ None → (result ≡ 4294967295) × (device.new.held ≡ device.old.held) }
    ensures own { tx_queue.SameDevice (as_tx_device device.old.held) (as_tx_device device.new.held) }
    ensures step { Between (tx_queue.Turned result) (as_sender device.old.held) (as_sender device.new.held) }
{
    step!(device, TxDevice(serving) => serving.turn_control())
}
