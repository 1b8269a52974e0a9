//! The steps of one direction, each with the event that its `OwnStep` names. The caller shows that the direction's
//! agreement allows them.
ghost use Rattle.std.specs.Prelude.{◌≡◌, ◌<◌, length, IfSome, IfNone, Some};
ghost use Rattle.buffer_pool.specs.Buffer.{Buffer, blank};
ghost use Rattle.shared_ring.specs.Ends.{posted, returned, fill_place, next_place, serve_place, held, driver_of, controller_of, grown};
ghost use Rattle.shared_ring.specs.Own.{MayLoad, MayClear, MayTake, MayEnd, MayStore, MayReap, Missed, Came};
ghost use Rattle.shared_ring.specs.Slots.{empty_slots};

use super::{EndSeat, Ring};
use crate::accesses::{load, store};
use crate::direction::{Direction, OwnStep, OwnTake};
use crate::events::{ControllerEvent, DriverEvent};
use crate::plays::{Clears, Finds, Gives, Loads, Stores};
use crate::slots::{put_in, take_out};
use atomic_table::Seat;
use buffer_pool::Buf;
use std::marker::PhantomData;

/// C6: stores 0 as the oldest descriptor that is out, and takes its buffer back.
pub(crate) struct Reclaiming<C, R>(PhantomData<(C, R)>);

impl<D, C, R: Direction<D, C>> OwnStep<DriverEvent<D>> for Reclaiming<C, R> {
    ghost use Rattle.shared_ring.specs.Reclaims.{reclaiming, Reclaims};

    ghost event = { reclaiming };

    ghost tells = { Reclaims R.form };
}

impl<D, C, R: Direction<D, C>> EndSeat<DriverEvent<D>, D, C, R> {
    /// Loads a word.
    #[inline]
    pub fn load_own<P: OwnStep<DriverEvent<D>>>(
        &mut self,
        ring: &Ring<D, C, R>,
        index: usize,
    ) -> u64
        requires own { self.old.table ≡ ring.now }
        requires may { MayLoad R.form P.event P.tells self.old.table.slots self.old.completion self.old.events index }
        ensures step { self.new ≡ grown self.old (P.event self.old.table.slots self.old.events index result blank) }
        ensures told { P.tells self.old.table.slots self.old.events index result blank }
    {
        load::<Loads<P, _, R>, _, _, _, _>(&ring.table, &mut self.seat, index)
    }

    /// Stores 0 as the oldest descriptor that is out, and takes its buffer back.
    #[inline]
    pub fn clear_own<P: OwnStep<DriverEvent<D>>>(&mut self, ring: &Ring<D, C, R>, place: u16) -> Buf
        requires own { self.old.table ≡ ring.now }
        requires place { place ≡ next_place (driver_of R.form self.old) }
        requires out { returned (driver_of R.form self.old) < length (posted (driver_of R.form self.old)) }
        requires may { MayClear R.form P.event P.tells self.old.table.slots self.old.completion self.old.events place }
        ensures step { self.new ≡ grown self.old (P.event self.old.table.slots self.old.events place 0 result) }
        ensures told { P.tells self.old.table.slots self.old.events place 0 result }
    {
        let place = place as usize;
        store::<Clears<P, _, R>, _, _, _, _>(&ring.table, &mut self.seat, place, 0);
        let buf = take_out(&ring.table, &mut self.seat, place);
        self.seat.turn();
        buf
    }

    /// Loads the oldest descriptor that is out, and takes its buffer back if it is done. Returns the word with the
    /// buffer.
    #[inline]
    pub fn take_own<P: OwnTake<DriverEvent<D>>>(
        &mut self,
        ring: &Ring<D, C, R>,
        place: u16,
    ) -> (u64, Option<Buf>)
        requires own { self.old.table ≡ ring.now }
        requires place { place ≡ next_place (driver_of R.form self.old) }
        requires out { returned (driver_of R.form self.old) < length (posted (driver_of R.form self.old)) }
        requires may { MayTake R.form P.event P.tells self.old.table.slots self.old.completion self.old.events P.missed P.done place }
        ensures none { IfNone result.1 (Missed P.event P.tells P.missed P.done self.old place result.0 self.new) }
        ensures some { IfSome result.1 (λ b. Came P.event P.tells P.missed P.done self.old place result.0 b self.new) }
    {
        let place = place as usize;
        let word = load::<Finds<P, _, R>, _, _, _, _>(&ring.table, &mut self.seat, place);
        if !P::is_done(word) {
            return (word, None);
        }
        let buf = take_out(&ring.table, &mut self.seat, place);
        self.seat.turn();
        (word, Some(buf))
    }

    /// Stores 0 as the last step of an epoch. The next epoch begins with the slot of place 0 in front.
    #[inline]
    pub fn end_own<P: OwnStep<DriverEvent<D>>>(
        &mut self,
        ring: &Ring<D, C, R>,
        index: usize,
        fill: u16,
    )
        requires own { self.old.table ≡ ring.now }
        requires place { fill ≡ fill_place (driver_of R.form self.old) }
        requires back { returned (driver_of R.form self.old) ≡ length (posted (driver_of R.form self.old)) }
        requires may { MayEnd R.form P.event self.old.table.slots self.old.completion self.old.events index }
        ensures { self.new ≡ grown self.old (P.event self.old.table.slots self.old.events index 0 blank) }
    {
        store::<Stores<P, _, R>, _, _, _, _>(&ring.table, &mut self.seat, index, 0);
        turn_round(&mut self.seat, fill, self.size);
    }
}

impl<D, C, R: Direction<D, C>> EndSeat<ControllerEvent<C>, D, C, R> {
    /// Stores a word.
    #[inline]
    pub fn store_own<P: OwnStep<ControllerEvent<C>>>(
        &mut self,
        ring: &Ring<D, C, R>,
        index: usize,
        value: u64,
    )
        requires own { self.old.table ≡ ring.now }
        requires may { MayStore R.form P.event self.old.table.slots self.old.completion self.old.events index value }
        ensures { self.new ≡ grown self.old (P.event self.old.table.slots self.old.events index value blank) }
    {
        store::<Stores<P, _, R>, _, _, _, _>(&ring.table, &mut self.seat, index, value);
    }

    /// Puts the fetched buffer back into its slot, which the store gives to the ring.
    #[inline]
    pub fn give_own<P: OwnStep<ControllerEvent<C>>>(
        &mut self,
        ring: &Ring<D, C, R>,
        place: u16,
        buf: Buf,
        index: usize,
        value: u64,
    )
        requires own { self.old.table ≡ ring.now }
        requires place { place ≡ serve_place (controller_of R.form self.old) }
        requires held { (h : Buffer) × (held (controller_of R.form self.old) ≡ Some h) }
        requires may { MayReap R.form P.event self.old.table.slots self.old.completion self.old.events place index value buf }
        ensures { self.new ≡ grown self.old (P.event self.old.table.slots self.old.events index value buf) }
    {
        put_in(&ring.table, &mut self.seat, place as usize, buf);
        store::<Gives<P, _, R>, _, _, _, _>(&ring.table, &mut self.seat, index, value);
    }
}

/// Turns the list of all slots, with that of `place` in front, until that of place 0 is in front. A seat has no bytes,
/// so this moves nothing.
fn turn_round<V>(seat: &mut Seat<Buf, V>, place: u16, size: u16)
    requires place { place < size }
    requires all { seat.old.me.1 ≡ empty_slots size place size }
    ensures same { (seat.new.table_id ≡ seat.old.table_id) × (seat.new.id ≡ seat.old.id) × (seat.new.me.0 ≡ seat.old.me.0) }
    ensures turned { seat.new.me.1 ≡ empty_slots size 0 size }
{
    for _ in place..size {
        seat.turn();
    }
}
