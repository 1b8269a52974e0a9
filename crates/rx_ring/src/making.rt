//! Making a ring, the meeting of its ends, and closing it.
ghost use Rattle.std.specs.Prelude.{◌≡◌, ◌↔◌, ◌<◌, true, length, IfOk};
ghost use Rattle.limits.specs.RingLength.{IsRingLength};
ghost use Rattle.ring_model.specs.receive.Lawful.{IsLawfulRxLedger};
ghost use Rattle.ring_model.specs.shared.Frames.{Bytes};
ghost use Rattle.rx_ring.specs.Ends.{driver_size, taken, saw_quiet, is_drained, is_quiet};
ghost use Rattle.rx_ring.specs.Calls.{told_left, IsTold};
ghost use Rattle.rx_ring.specs.Meeting.{MadeSeats, ledger_of, stored_now, Met, IsClosed, AllReal, AllCameBack};

use crate::controller::RxControllerEnd;
use crate::direction::RxShared;
use crate::driver::RxDriverEnd;
use crate::ring::RxRing;
use buffer_pool::Buf;
use limits::is_ring_length;
use ring_model::Completion;
use shared_ring::{DriverEnd, RingError};
use std::alloc::Global;

impl RxRing {
    /// Makes a ring of `n` descriptors, disabled, with nothing posted. Returns `RingLength` if `n` is not a power of
    /// two from 8 to 4,096, and `Memory` only if memory was refused.
    pub fn new(alloc: Global, n: u32) -> Result<(RxRing, RxDriverEnd, RxControllerEnd), RingError>
        ensures refused { (result ≡ Err RingError.RingLength) ↔ ¬ (IsRingLength n) }
        ensures made { IfOk result (λ r. MadeSeats n r.0 r.1 r.2) }
    {
        if !is_ring_length(n as usize) {
            return Err(RingError::RingLength);
        }
        let Ok((ring, driver, controller)) = RxShared::deal(alloc, n as u16, Completion::Status)
        else {
            return Err(RingError::Memory);
        };
        let (driver, controller) = (RxDriverEnd::new(driver), RxControllerEnd::new(controller));
        Ok((RxRing(ring), driver, controller))
    }
}

/// Establishes, with both ends in one place, that their records belong to one lawful ring. The ring and its ends do not
/// change, and no record keeps the loads.
///
/// The ledger is that of the driver's epoch: until the controller answers its enabling, nothing is stored in it. What
/// the driver learned in this epoch is true. A number that `left` returned is the number of segments stored and not
/// taken. If it saw the queue quiet, the controller said so. If it saw the queue quiet and drained, everything stored
/// is taken.
pub fn meet_rx(ring: &RxRing, driver: &mut RxDriverEnd, controller: &mut RxControllerEnd)
    requires driver { driver.old.table ≡ ring.now }
    requires controller { controller.old.table ≡ ring.now }
    ensures same_driver { driver.new ≡ driver.old }
    ensures same_controller { controller.new ≡ controller.old }
    ensures lawful { IsLawfulRxLedger Bytes (driver_size driver.old) (ledger_of driver.old controller.old) }
    ensures places { Met driver.old controller.old }
    ensures left { IsTold (told_left driver.old) (length (taken driver.old)) (length (stored_now driver.old controller.old)) }
    ensures quiet { saw_quiet driver.old ≡ true → is_quiet controller.old ≡ true }
    ensures drained { is_drained driver.old ≡ true → taken driver.old ≡ stored_now driver.old controller.old }
{
    let _size = driver.size(); // which says that the length is lawful
    ring.0.meet(&mut driver.seat, &mut controller.seat);
}

/// Closes a ring in any state of its two ends. Returns one entry for each place, with the buffer in its slot: posted,
/// published or written back. The entry is `None` for a place of the driver, and for one whose buffer the controller
/// has fetched. Each buffer that is out comes back once, except one that the controller holds; none is a blank. The
/// list uses the room that `new` reserved, so this takes no memory.
pub fn close(ring: RxRing, driver: RxDriverEnd, controller: RxControllerEnd) -> Vec<Option<Buf>>
    requires driver { driver.table ≡ ring }
    requires controller { controller.table ≡ ring }
    ensures places { IsClosed driver controller result.items }
    ensures real { AllReal result.items }
    ensures once { AllCameBack driver controller result.items }
{
    let _size = driver.size(); // which says that the length is lawful
    let RxDriverEnd { seat, at } = driver;
    let RxControllerEnd {
        seat: other,
        at: completed,
        ..
    } = controller;
    ring.0.take_apart(
        seat,
        other,
        at.next,
        at.out,
        completed.serve,
        completed.holding,
    )
}
