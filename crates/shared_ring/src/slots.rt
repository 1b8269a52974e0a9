//! The exchange of a slot's buffer. No other code reads or writes a slot.
ghost use Rattle.std.specs.Prelude.{◌≡◌, ◌∷◌};
ghost use Rattle.atomic_table.specs.Table.{rest};
ghost use Rattle.buffer_pool.specs.Buffer.{blank};
ghost use Rattle.shared_ring.specs.Slots.{front_buffer};

use atomic_table::{Seat, Table, TableRule};
use buffer_pool::Buf;
use std::alloc::Global;
use std::mem;

/// Puts a buffer into the empty slot that the seat took last.
#[inline]
pub fn put_in<V, K, R: TableRule<Buf, V, K>>(
    table: &Table<Buf, V, K, R, Global>,
    seat: &mut Seat<Buf, V>,
    place: usize,
    buf: Buf,
)
    requires own { seat.old.table_id ≡ table.now.shared.table_id }
    requires empty { seat.old.me.1 ≡ (place, blank) ∷ rest seat.old.me.1 }
    ensures same { (seat.new.table_id ≡ seat.old.table_id) × (seat.new.id ≡ seat.old.id) }
    ensures put { seat.new.me ≡ (seat.old.me.0, (place, buf) ∷ rest seat.old.me.1) }
{
    // The slot has a blank, which owns no memory, so it need not be dropped.
    mem::forget(table.shared.exchange(seat, place, buf));
}

/// Takes the buffer out of the slot that the seat took last.
#[inline]
pub fn take_out<V, K, R: TableRule<Buf, V, K>>(
    table: &Table<Buf, V, K, R, Global>,
    seat: &mut Seat<Buf, V>,
    place: usize,
) -> Buf
    requires own { seat.old.table_id ≡ table.now.shared.table_id }
    requires full { seat.old.me.1 ≡ (place, front_buffer seat.old.me.1) ∷ rest seat.old.me.1 }
    ensures taken { result ≡ front_buffer seat.old.me.1 }
    ensures same { (seat.new.table_id ≡ seat.old.table_id) × (seat.new.id ≡ seat.old.id) }
    ensures left { seat.new.me ≡ (seat.old.me.0, (place, blank) ∷ rest seat.old.me.1) }
{
    table.shared.exchange(seat, place, Buf::default())
}
