//! Closing a ring: its buffers come out of the table's slots.
ghost use Rattle.std.specs.Prelude.{◌≡◌, ◌<◌, ◌≤◌, [], vec_capacity};
ghost use Rattle.std.specs.Mem.Slots.{slots_items, slots_len, IsFull};
ghost use Rattle.limits.specs.RingLength.{IsRingLength};
ghost use Rattle.shared_ring.specs.Ends.{driver_of, controller_of};
ghost use Rattle.shared_ring.specs.Meeting.{LeftIn, TakenApart, kept_at, kept_upto};

use super::gathering::unite;
use super::{ControllerSeat, DriverSeat, EndSeat, Ring};
use crate::direction::Direction;
use atomic_table::Closed;
use buffer_pool::Buf;
use ring_model::places_between;
use std::alloc::Global;

impl<D, C, R: Direction<D, C>> Ring<D, C, R> {
    /// Joins both seats and closes the table. Returns its slots, and the room for their buffers.
    fn gather(
        self,
        driver: DriverSeat<D, C, R>,
        controller: ControllerSeat<D, C, R>,
    ) -> (Closed<Buf, Global>, Vec<Option<Buf>>)
        requires driver { driver.table ≡ self }
        requires controller { controller.table ≡ self }
        ensures slots { IsFull result.0.slots × (slots_len result.0.slots ≡ driver.table.slots) }
        ensures left { LeftIn (driver_of R.form driver) (controller_of R.form controller) (slots_items result.0.slots) }
        ensures room { (result.1.items ≡ []) × (driver.table.slots ≤ vec_capacity result.1) }
    {
        let EndSeat { mut seat, .. } = driver;
        let EndSeat {
            seat: mut other,
            ..
        } = controller;
        unite(&self.table, &mut seat, &mut other);
        let Ring { table, room } = self;
        (table.close_with(seat), room)
    }

    /// Takes the buffers out of a ring's slots: of each place fewer than `out` after `next`, except that of a held
    /// buffer.
    pub fn take_apart(
        self,
        driver: DriverSeat<D, C, R>,
        controller: ControllerSeat<D, C, R>,
        next: u16,
        out: u16,
        serve: u16,
        holding: bool,
    ) -> Vec<Option<Buf>>
        requires driver { driver.table ≡ self }
        requires controller { controller.table ≡ self }
        requires next { next < driver.table.slots }
        ensures { TakenApart (driver_of R.form driver) (controller_of R.form controller) next out serve holding result.items }
    {
        let size = driver.size();
        let (closed, room) = self.gather(driver, controller);
        empty(closed, room, size, next, out, serve, holding)
    }
}

/// Returns the buffers of a closed table, in the room that was reserved for them.
fn empty(
    mut closed: Closed<Buf, Global>,
    mut room: Vec<Option<Buf>>,
    size: u16,
    next: u16,
    out: u16,
    serve: u16,
    holding: bool,
) -> Vec<Option<Buf>>
    requires slots { IsFull closed.slots × (slots_len closed.slots ≡ size) }
    requires room { (room.items ≡ []) × (size ≤ vec_capacity room) }
    requires next { next < size }
    requires lawful { IsRingLength size }
    ensures { result.items ≡ kept_upto (kept_at size next out serve holding (slots_items closed.slots)) size }
{
    for place in 0..size {
        let buf = closed.take(place as usize);
        if places_between(next, place, size) < out && !(holding && place == serve) {
            room.push_reserved(Some(buf));
        } else {
            room.push_reserved(None);
        }
    }
    closed.free();
    room
}
