//! The exports that make a step of a driver by its number.
//!
//! Each takes an operation's number in the call record and puts its result there. 1 means done; the other results are
//! listed. `0xFFFF_FFFF` means an unknown operation, or a handle that is empty or of another kind; nothing changes. A
//! handle is in one call at a time.
ghost use Rattle.std.specs.Prelude.{◌≡◌, ◌<◌, None};
ghost use Rattle.poll82599_c.specs.Handles.{as_rx_driver, as_rx_queue, as_tx_driver, as_tx_queue};
ghost use Rattle.poll82599_c.specs.Held.{Between};
ghost use Rattle.poll82599_c.specs.batches.Queues.{SameQueue};
ghost use Rattle.poll82599_c.specs.batches.Receiving.{receiver};
ghost use Rattle.poll82599_c.specs.batches.Receiving as rx_queue;
ghost use Rattle.poll82599_c.specs.batches.Transmitting.{transmitter};
ghost use Rattle.poll82599_c.specs.batches.Transmitting as tx_queue;
ghost use Rattle.poll82599_c.specs.rings.RxEnds as rx;
ghost use Rattle.poll82599_c.specs.rings.Steps.{SameDriven};
ghost use Rattle.poll82599_c.specs.rings.TxEnds as tx;

use crate::batches::BatchQueue;
use crate::call::{NO_OPERATION, Poll82599Call};
use crate::end::End;
use crate::handle::Handle;
use shared_ring::HandshakeStep;

/// Makes a step of a receive ring's driver that moves no segment. The driver's thread calls it. The operations:
/// - 0 stores the tail. 0: a disabling was asked for.
/// - 1 asks for an enabling. 0: one was asked for before.
/// - 2 loads the control word and returns it, 0 to 3.
/// - 3 asks for a disabling. 0: the queue is not on.
/// - 4 takes a buffer out of a disabled ring. 0: there is none; 2: it was not seen disabled.
/// - 5 renews a disabled ring. 0: it was not seen disabled, or a buffer is left in it.
/// - 6 counts in `count` the segments left in a disabled ring. 0: a buffer was taken out; 2: it was not seen disabled.
/// - 7 loads the quiet word and returns it, 0 or 1.
#[unsafe(no_mangle)]
pub extern "C" fn poll82599_rx_drive(driver: &mut Handle, call: &mut Poll82599Call)
    ensures other { as_rx_driver driver.old.held ≡ None → (call.new.answer ≡ 4294967295) × (driver.new.held ≡ driver.old.held) }
    ensures own { SameDriven (as_rx_driver driver.old.held) (as_rx_driver driver.new.held) }
    ensures step { Between (rx.Drove call.old.operation call.new.answer call.new.count) (as_rx_driver driver.old.held) (as_rx_driver driver.new.held) }
    ensures kept { (7 < call.old.operation) → driver.new.held ≡ driver.old.held }
{
    step_call!(driver, call, RxDriver(receiving) => match call.operation {
        0 => receiving.publish(),
        1 => receiving.control_step(HandshakeStep::AskEnable),
        2 => receiving.control_step(HandshakeStep::LoadControl),
        3 => receiving.control_step(HandshakeStep::AskDisable),
        4 => receiving.reclaim(),
        5 => receiving.renew(),
        6 => {
            let found = receiving.left();
            call.count = found.len as usize;
            found.answer
        }
        7 => receiving.is_quiet(),
        _ => NO_OPERATION,
    });
}

/// Makes a step of a transmit ring's driver that moves no segment. The driver's thread calls it. The operations:
/// - 0 stores the tail. 0: a disabling was asked for, or a frame is unfinished.
/// - 1 to 5 are those of [`poll82599_rx_drive`].
/// - 6 counts in `count` the segments not sent in a disabled ring. 2: it was not seen disabled.
/// - 7 loads the oldest outstanding report. 0: it is not made.
#[unsafe(no_mangle)]
pub extern "C" fn poll82599_tx_drive(driver: &mut Handle, call: &mut Poll82599Call)
    ensures other { as_tx_driver driver.old.held ≡ None → (call.new.answer ≡ 4294967295) × (driver.new.held ≡ driver.old.held) }
    ensures own { SameDriven (as_tx_driver driver.old.held) (as_tx_driver driver.new.held) }
    ensures step { Between (tx.Drove call.old.operation call.new.answer call.new.count) (as_tx_driver driver.old.held) (as_tx_driver driver.new.held) }
    ensures kept { (7 < call.old.operation) → driver.new.held ≡ driver.old.held }
{
    step_call!(driver, call, TxDriver(sending) => match call.operation {
        0 => sending.publish(),
        1 => sending.control_step(HandshakeStep::AskEnable),
        2 => sending.control_step(HandshakeStep::LoadControl),
        3 => sending.control_step(HandshakeStep::AskDisable),
        4 => sending.reclaim(),
        5 => sending.renew(),
        6 => {
            let found = sending.left();
            call.count = found.len as usize;
            found.answer
        }
        7 => sending.poll_report(),
        _ => NO_OPERATION,
    });
}

/// Steps a receive queue's driver. The driver's thread calls it. The operations:
/// - 0 asks for an enabling, if nothing was asked yet, and loads the control word. 0: not on yet; 2: seen disabled,
///   renew it first.
/// - 1 asks for a disabling. 0: the queue is not on.
/// - 2 looks whether the disabling is answered, and counts in `count` the segments left. 0: not yet, or 1 was returned
///   before.
/// - 3 renews a disabled queue. 0: it was not seen disabled, or a buffer is left in it.
/// - 4 loads the quiet word and returns it, 0 or 1.
#[unsafe(no_mangle)]
pub extern "C" fn poll82599_rx_queue_do(queue: &mut Handle, call: &mut Poll82599Call)
    ensures other { as_rx_queue queue.old.held ≡ None → (call.new.answer ≡ 4294967295) × (queue.new.held ≡ queue.old.held) }
    ensures own { SameQueue receiver (as_rx_queue queue.old.held) (as_rx_queue queue.new.held) }
    ensures step { Between (rx_queue.Did call.old.operation call.new.answer call.new.count) (as_rx_queue queue.old.held) (as_rx_queue queue.new.held) }
    ensures kept { (4 < call.old.operation) → queue.new.held ≡ queue.old.held }
{
    step_call!(queue, call, RxQueue(receiving) => match call.operation {
        0 => receiving.enable(),
        1 => receiving.ask_disable(),
        2 => {
            let found = receiving.finish_disable();
            call.count = found.count;
            found.answer
        }
        3 => receiving.renew(),
        4 => receiving.is_quiet(),
        _ => NO_OPERATION,
    });
}

/// Steps a transmit queue's driver. The driver's thread calls it. The operations are 0 to 3 of
/// [`poll82599_rx_queue_do`], and
/// - 4 counts in `count` the segments that were posted and have not come back.
#[unsafe(no_mangle)]
pub extern "C" fn poll82599_tx_queue_do(queue: &mut Handle, call: &mut Poll82599Call)
    ensures other { as_tx_queue queue.old.held ≡ None → (call.new.answer ≡ 4294967295) × (queue.new.held ≡ queue.old.held) }
    ensures own { SameQueue transmitter (as_tx_queue queue.old.held) (as_tx_queue queue.new.held) }
    ensures step { Between (tx_queue.Did call.old.operation call.new.answer call.new.count) (as_tx_queue queue.old.held) (as_tx_queue queue.new.held) }
    ensures kept { (3 < call.old.operation) → queue.new.held ≡ queue.old.held }
{
    step_call!(queue, call, TxQueue(sending) => match call.operation {
        0 => sending.enable(),
        1 => sending.ask_disable(),
        2 => {
            let found = sending.finish_disable();
            call.count = found.count;
            found.answer
        }
        3 => sending.renew(),
        4 => {
            let found = sending.outstanding();
            call.count = found.count;
            found.answer
        }
        _ => NO_OPERATION,
    });
}
