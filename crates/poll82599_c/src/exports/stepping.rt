//! The exports that move a segment of a ring, and the other steps of its controller.
//!
//! 1 means done; the other results are listed. `0xFFFF_FFFF` means a handle that is empty or of another kind; nothing
//! changes. A handle is in one call at a time.
ghost use Rattle.std.specs.Prelude.{◌≡◌, None};
ghost use Rattle.ffi_handle.specs.Words.{is_set};
ghost use Rattle.poll82599_c.specs.Handles.{as_rx_controller, as_rx_driver, as_tx_controller, as_tx_driver};
ghost use Rattle.poll82599_c.specs.Held.{Between, Tried};
ghost use Rattle.poll82599_c.specs.rings.RxEnds.{PostedOne, SaidNoMore, TriedPoll, TriedStore};
ghost use Rattle.poll82599_c.specs.rings.Steps.{SameDriven, SameServed, TriedAnswer};
ghost use Rattle.poll82599_c.specs.rings.TxEnds.{CleanedBuffer, PostedSegment, TriedSend};

use crate::call::NO_OPERATION;
use crate::end::End;
use crate::handle::Handle;
use crate::rings::Asking;
use ffi_handle::is_set;

/// Posts an empty buffer in a receive ring. Returns 1: done; 0: no free descriptor or buffer, or a disabling was asked
/// for.
#[unsafe(no_mangle)]
pub extern "C" fn poll82599_rx_post(driver: &mut Handle) -> u32
    ensures other { as_rx_driver driver.old.held ≡ None → (result ≡ 4294967295) × (driver.new.held ≡ driver.old.held) }
    ensures own { SameDriven (as_rx_driver driver.old.held) (as_rx_driver driver.new.held) }
    ensures step { Between (Tried PostedOne result) (as_rx_driver driver.old.held) (as_rx_driver driver.new.held) }
{
    step!(driver, RxDriver(receiving) => receiving.post())
}

/// Takes the next segment of a receive ring into `room`, with its length in `len` and 1 or 0 in `eop`. Returns 1: done;
/// 0: the next descriptor is not done; 2: nothing is posted; 3: the queue is off; 4: `room` is below 2,048.
#[unsafe(no_mangle)]
pub extern "C" fn poll82599_rx_poll(
    driver: &mut Handle,
    room: &mut [u8],
    len: &mut u32,
    eop: &mut u32,
) -> u32
    ensures other { as_rx_driver driver.old.held ≡ None → (result ≡ 4294967295) × (driver.new.held ≡ driver.old.held) × (room.new ≡ room.old) × (len.new ≡ len.old) × (eop.new ≡ eop.old) }
    ensures own { SameDriven (as_rx_driver driver.old.held) (as_rx_driver driver.new.held) }
    ensures step { Between (TriedPoll result len.new eop.new room.old room.new) (as_rx_driver driver.old.held) (as_rx_driver driver.new.held) }
{
    step!(driver, RxDriver(receiving) => {
        let taken = receiving.poll(room);
        *len = taken.len;
        *eop = taken.eop;
        taken.answer
    })
}

/// Stores a segment in a receive ring, which ends its frame unless `eop` is 0. Returns 1: done; 0: no descriptor is
/// free; 2: the segment cannot follow its frame so far; 3: the queue is off or quiet.
#[unsafe(no_mangle)]
pub extern "C" fn poll82599_rx_store_segment(
    controller: &mut Handle,
    segment: &[u8],
    eop: u32,
) -> u32
    ensures other { as_rx_controller controller.old.held ≡ None → (result ≡ 4294967295) × (controller.new.held ≡ controller.old.held) }
    ensures own { SameServed (as_rx_controller controller.old.held) (as_rx_controller controller.new.held) }
    ensures step { Between (TriedStore result segment.now (is_set eop)) (as_rx_controller controller.old.held) (as_rx_controller controller.new.held) }
{
    step!(controller, RxController(serving) => serving.store(segment, is_set(eop)))
}

/// Loads a receive ring's control word and answers a request. Returns 1: done; 0: there is none, or it has to wait for
/// the end of a frame.
#[unsafe(no_mangle)]
pub extern "C" fn poll82599_rx_answer(controller: &mut Handle) -> u32
    ensures other { as_rx_controller controller.old.held ≡ None → (result ≡ 4294967295) × (controller.new.held ≡ controller.old.held) }
    ensures own { SameServed (as_rx_controller controller.old.held) (as_rx_controller controller.new.held) }
    ensures step { Between (TriedAnswer result) (as_rx_controller controller.old.held) (as_rx_controller controller.new.held) }
{
    step!(controller, RxController(serving) => serving.answer())
}

/// Says that no more is stored in a receive ring. Returns 1: done; 0: the queue is off, or a frame is unfinished.
#[unsafe(no_mangle)]
pub extern "C" fn poll82599_rx_set_quiet(controller: &mut Handle) -> u32
    ensures other { as_rx_controller controller.old.held ≡ None → (result ≡ 4294967295) × (controller.new.held ≡ controller.old.held) }
    ensures own { SameServed (as_rx_controller controller.old.held) (as_rx_controller controller.new.held) }
    ensures step { Between (Tried SaidNoMore result) (as_rx_controller controller.old.held) (as_rx_controller controller.new.held) }
{
    step!(controller, RxController(serving) => serving.set_quiet())
}

/// Posts a segment in a transmit ring, with EOP unless `eop` is 0, RS unless `rs` is 0, and PAYLEN, its frame's length.
/// Returns 1: done; 0: no free descriptor or buffer, or a disabling was asked for; 2: the segment cannot follow its
/// frame so far.
#[unsafe(no_mangle)]
pub extern "C" fn poll82599_tx_post_segment(
    driver: &mut Handle,
    segment: &[u8],
    eop: u32,
    rs: u32,
    paylen: u32,
) -> u32
    ensures other { as_tx_driver driver.old.held ≡ None → (result ≡ 4294967295) × (driver.new.held ≡ driver.old.held) }
    ensures own { SameDriven (as_tx_driver driver.old.held) (as_tx_driver driver.new.held) }
    ensures step { Between (Tried (PostedSegment segment.now (is_set eop) (is_set rs) paylen) result) (as_tx_driver driver.old.held) (as_tx_driver driver.new.held) }
{
    step!(driver, TxDriver(sending) => {
        let ask = Asking {
            eop: is_set(eop),
            rs: is_set(rs),
            paylen,
        };
        sending.post(segment, &ask)
    })
}

/// Cleans a transmit ring's oldest descriptor that is seen reported, and takes its buffer back. Returns 1: done; 0: there
/// is none.
#[unsafe(no_mangle)]
pub extern "C" fn poll82599_tx_clean(driver: &mut Handle) -> u32
    ensures other { as_tx_driver driver.old.held ≡ None → (result ≡ 4294967295) × (driver.new.held ≡ driver.old.held) }
    ensures own { SameDriven (as_tx_driver driver.old.held) (as_tx_driver driver.new.held) }
    ensures step { Between (Tried CleanedBuffer result) (as_tx_driver driver.old.held) (as_tx_driver driver.new.held) }
{
    step!(driver, TxDriver(sending) => sending.clean())
}

/// Sends a transmit ring's next segment into `room`, with its length in `len` and 1 or 0 in `eop`, and reports it if it
/// asks for a report. Returns 1: done; 0: none is ready; 3: the queue is off; 4: `room` is below 2,048.
#[unsafe(no_mangle)]
pub extern "C" fn poll82599_tx_send(
    controller: &mut Handle,
    room: &mut [u8],
    len: &mut u32,
    eop: &mut u32,
) -> u32
    ensures other { as_tx_controller controller.old.held ≡ None → (result ≡ 4294967295) × (controller.new.held ≡ controller.old.held) × (room.new ≡ room.old) × (len.new ≡ len.old) × (eop.new ≡ eop.old) }
    ensures own { SameServed (as_tx_controller controller.old.held) (as_tx_controller controller.new.held) }
    ensures step { Between (TriedSend result len.new eop.new room.old room.new) (as_tx_controller controller.old.held) (as_tx_controller controller.new.held) }
{
    step!(controller, TxController(serving) => {
        let sent = serving.send(room);
        *len = sent.len;
        *eop = sent.eop;
        sent.answer
    })
}

/// Loads a transmit ring's control word and answers a request. Returns 1: done; 0: there is none, or it has to wait.
#[unsafe(no_mangle)]
pub extern "C" fn poll82599_tx_answer(controller: &mut Handle) -> u32
    ensures other { as_tx_controller controller.old.held ≡ None → (result ≡ 4294967295) × (controller.new.held ≡ controller.old.held) }
    ensures own { SameServed (as_tx_controller controller.old.held) (as_tx_controller controller.new.held) }
    ensures step { Between (TriedAnswer result) (as_tx_controller controller.old.held) (as_tx_controller controller.new.held) }
{
    step!(controller, TxController(serving) => serving.answer())
}
