//! Making a ring, the meeting of its ends, and closing it.
ghost use Rattle.std.specs.Prelude.{◌≡◌, ◌↔◌, ◌≤◌, length, IfOk};
ghost use Rattle.limits.specs.RingLength.{IsRingLength};
ghost use Rattle.ring_model.specs.declared.states.Completion.TheVariants as completion;
ghost use Rattle.ring_model.specs.transmit.Lawful.{IsLawfulTxLedger};
ghost use Rattle.ring_model.specs.shared.Frames.{Bytes};
ghost use Rattle.tx_ring.specs.Ends.{driver_size, posted, cleaned};
ghost use Rattle.tx_ring.specs.Meeting.{MadeSeats, ledger_of, sent_now, Met, told_left, IsTold, IsClosed, AllReal, AllCameBack};

use crate::controller::TxControllerEnd;
use crate::direction::TxShared;
use crate::driver::TxDriverEnd;
use crate::ring::TxRing;
use buffer_pool::Buf;
use limits::is_ring_length;
use ring_model::Completion;
use shared_ring::{DriverEnd, RingError};
use std::alloc::Global;

impl TxRing {
    /// Makes a ring of `n` descriptors that reports by its descriptors, disabled, with nothing posted. Returns
    /// `RingLength` if `n` is not a power of two from 8 to 4,096, and `Memory` only if memory was refused.
    pub fn new(alloc: Global, n: u32) -> Result<(TxRing, TxDriverEnd, TxControllerEnd), RingError>
        ensures refused { (result ≡ Err RingError.RingLength) ↔ ¬ (IsRingLength n) }
        ensures made { IfOk result (λ r. MadeSeats n completion.Status r.0 r.1 r.2) }
    {
        Self::new_with(alloc, n, Completion::Status)
    }

    /// Like `new`, for a ring that reports as `completion` says.
    pub fn new_with(
        alloc: Global,
        n: u32,
        completion: Completion,
    ) -> Result<(TxRing, TxDriverEnd, TxControllerEnd), RingError>
        ensures refused { (result ≡ Err RingError.RingLength) ↔ ¬ (IsRingLength n) }
        ensures made { IfOk result (λ r. MadeSeats n completion r.0 r.1 r.2) }
    {
        if !is_ring_length(n as usize) {
            return Err(RingError::RingLength);
        }
        let Ok(asks) = vec![in alloc; false; n as usize] else {
            return Err(RingError::Memory);
        };
        let Ok((ring, driver, controller)) = TxShared::deal(alloc, n as u16, completion) else {
            return Err(RingError::Memory);
        };
        Ok((
            TxRing(ring),
            TxDriverEnd::new(driver, asks.into_boxed_slice()),
            TxControllerEnd::new(controller),
        ))
    }
}

/// Establishes, with both ends in one place, that their records belong to one lawful ring. The ring and its ends do not
/// change, and no record keeps the loads.
///
/// The ledger is that of the driver's epoch: until the controller answers its enabling, nothing is sent in it. A number
/// that `left` returned is the number of postings not sent. If all postings are cleaned, all were sent.
pub fn meet_tx(ring: &TxRing, driver: &mut TxDriverEnd, controller: &mut TxControllerEnd)
    requires driver { driver.old.table ≡ ring.now }
    requires controller { controller.old.table ≡ ring.now }
    ensures same_driver { driver.new ≡ driver.old }
    ensures same_controller { controller.new ≡ controller.old }
    ensures lawful { IsLawfulTxLedger Bytes (driver_size driver.old) (ledger_of driver.old controller.old) }
    ensures places { Met driver.old controller.old }
    ensures left { IsTold (told_left driver.old) (length (sent_now driver.old controller.old)) (length (posted driver.old)) }
    ensures all { length (posted driver.old) ≤ length (cleaned driver.old) → sent_now driver.old controller.old ≡ posted driver.old }
{
    let _size = driver.size();
    ring.0.meet(&mut driver.seat, &mut controller.seat);
}

/// Closes a ring in any state of its two ends. Returns one entry for each place, with the buffer in its slot: posted,
/// published or sent. The entry is `None` for a place of the driver, and for one whose buffer the controller has
/// fetched. Each buffer that is out comes back once, except one that the controller holds; none is a blank. The list
/// uses the room that `new_with` reserved, so this takes no memory.
pub fn close(ring: TxRing, driver: TxDriverEnd, controller: TxControllerEnd) -> Vec<Option<Buf>>
    requires driver { driver.table ≡ ring }
    requires controller { controller.table ≡ ring }
    ensures places { IsClosed driver controller result.items }
    ensures real { AllReal result.items }
    ensures once { AllCameBack driver controller result.items }
{
    let _size = driver.size();
    let TxDriverEnd { seat, at, .. } = driver;
    let TxControllerEnd {
        seat: other,
        at: completed,
        ..
    } = controller;
    ring.0.take_apart(
        seat,
        other,
        at.next,
        at.out,
        completed.serve,
        completed.holding,
    )
}
