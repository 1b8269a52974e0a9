//! Taking the seats of a ring, splitting and joining them: making a ring, and the meeting of its ends.
ghost use Rattle.std.specs.Prelude.{◌≡◌, IfOk};
ghost use Rattle.limits.specs.RingLength.{IsRingLength};
ghost use Rattle.shared_ring.specs.Directions.{IsDirection};
ghost use Rattle.shared_ring.specs.Ends.{driver_of, controller_of};
ghost use Rattle.shared_ring.specs.Meeting.{MadeSeats, Met};
ghost use Rattle.shared_ring.specs.Seats.{driver_part, controller_part};
ghost use Rattle.shared_ring.specs.Tables.{IsTableOf};
ghost use Rattle.shared_ring.specs.declared.events.View.TheVariants.{Driver, Controller, Both, Nobody};

use super::{ControllerSeat, DriverSeat, EndSeat, Ring, RingSeat, RingTable};
use crate::direction::Direction;
use crate::registers::{CONTROL, opening_words};
use crate::splitting::{Deal, Halve, Lend, MeetLoad, Return, Unite};
use atomic_table::Table;
use buffer_pool::Buf;
use ring_model::Completion;
use std::alloc::{AllocError, Global};
use std::marker::PhantomData;

impl<D, C, R: Direction<D, C>> Ring<D, C, R> {
    /// Makes the ring's table and the seats of its two ends. Fails only if memory was refused.
    pub fn deal(
        alloc: Global,
        size: u16,
        completion: Completion,
    ) -> Result<(Ring<D, C, R>, DriverSeat<D, C, R>, ControllerSeat<D, C, R>), AllocError>
        requires law { IsDirection R.form }
        requires length { IsRingLength size }
        requires reports { R.form.Reports completion }
        ensures { IfOk result (λ r. MadeSeats size completion r.0 (driver_of R.form r.1) (controller_of R.form r.2)) }
    {
        let count = size as usize;
        let words = opening_words(alloc, count, completion)?;
        let room = Vec::with_capacity(alloc, count)?;
        let blanks = Buf::blanks(alloc, count)?;
        let key = (count, completion);
        let Ok((table, mut seat)) = Table::new(alloc, words.as_slice(), blanks, &key) else {
            return Err(AllocError);
        };
        table.shared.load::<Deal>(&mut seat, count + CONTROL);
        let completed = table.shared.split_seat::<Halve>(&mut seat);
        let ring = Ring { table, room };
        Ok((
            ring,
            EndSeat {
                seat,
                size,
                completion,
                events: PhantomData,
            },
            EndSeat {
                seat: completed,
                size,
                completion,
                events: PhantomData,
            },
        ))
    }

    /// Establishes, with both seats in one place, that their records belong to one lawful ring.
    pub fn meet(&self, driver: &mut DriverSeat<D, C, R>, controller: &mut ControllerSeat<D, C, R>)
        requires driver { driver.old.table ≡ self.now }
        requires controller { controller.old.table ≡ self.now }
        ensures same_driver { driver.new ≡ driver.old }
        ensures same_controller { controller.new ≡ controller.old }
        ensures met { Met (driver_of R.form driver.old) (controller_of R.form controller.old) }
    {
        unite(&self.table, &mut driver.seat, &mut controller.seat);
        let table = &self.table.shared;
        table.load::<MeetLoad<R>>(&mut driver.seat, 0);
        let lent = table.split_seat::<Halve>(&mut driver.seat);
        table.join_seat::<Return>(&mut controller.seat, lent);
    }
}

/// Joins the controller's record to that of the driver's seat, and leaves the controller's seat without one.
pub(super) fn unite<D, C, R: Direction<D, C>>(
    table: &RingTable<D, C, R>,
    driver: &mut RingSeat<D, C>,
    controller: &mut RingSeat<D, C>,
)
    requires law { IsDirection R.form }
    requires of_key { IsTableOf table.now.shared.table_id table.now.shared.key.0 table.now.shared.key.1 }
    requires driver { (driver.old.table_id ≡ table.now.shared.table_id) × (driver.old.me.0 ≡ Driver (driver_part driver.old.me.0)) }
    requires controller { (controller.old.table_id ≡ table.now.shared.table_id) × (controller.old.me.0 ≡ Controller (controller_part controller.old.me.0)) }
    ensures driver { (driver.new.table_id ≡ driver.old.table_id) × (driver.new.me ≡ (Both (driver_part driver.old.me.0) (controller_part controller.old.me.0), driver.old.me.1)) }
    ensures controller { (controller.new.table_id ≡ controller.old.table_id) × (controller.new.me ≡ (Nobody, controller.old.me.1)) }
{
    let lent = table.shared.split_seat::<Lend>(controller);
    table.shared.join_seat::<Unite>(driver, lent);
}
