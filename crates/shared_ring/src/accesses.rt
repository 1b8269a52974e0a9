//! The loads and stores of a ring's words by its two ends. Each is made by a play that adds one event to the end's
//! record, which names the kind of access, the word and the value. Apart from the making, meeting and closing of a ring,
//! no other code loads or stores a word.
ghost use Rattle.std.specs.Prelude.{◌≡◌, ◌<◌};
ghost use mathlib.Core.Option.{none};
ghost use Rattle.atomic_table.specs.Table.{Allows, step};
ghost use Rattle.shared_ring.specs.Accesses.{Load, Store};
ghost use Rattle.shared_ring.specs.Keeping.{IsRuled};
ghost use Rattle.shared_ring.specs.Plays.{Counts};

use crate::direction::Direction;
use crate::plays::{EndEvent, EndLoad, EndStore};
use crate::steps::{RingSeat, RingTable};

/// Loads a word for the end whose events are `E`.
#[inline]
pub(crate) fn load<M: EndLoad<E, D, C, R>, E: EndEvent<D, C, R>, D, C, R: Direction<D, C>>(
    table: &RingTable<D, C, R>,
    seat: &mut RingSeat<D, C>,
    index: usize,
) -> u64
    requires { (seat.old.table_id ≡ table.now.shared.table_id) × (index < table.now.shared.table_id.words) × Allows (IsRuled R.form table.now.shared.key.0 table.now.shared.key.1) table.now.shared.table_id.slots seat.old.id seat.old.me index (λ n. n) (M.then (step table.now.shared.table_id.slots index 0 0 none) seat.old.me) }
    ensures same { (seat.new.table_id ≡ seat.old.table_id) × (seat.new.id ≡ seat.old.id) }
    ensures told { M.then (step table.now.shared.table_id.slots index 0 0 none) seat.old.me result seat.new.me }
    ensures counted { Counts E.whose Load (step table.now.shared.table_id.slots index 0 0 none) seat.old.me result seat.new.me }
{
    table.shared.load::<M>(seat, index)
}

/// Stores a word for the end whose events are `E`.
#[inline]
pub(crate) fn store<M: EndStore<E, D, C, R>, E: EndEvent<D, C, R>, D, C, R: Direction<D, C>>(
    table: &RingTable<D, C, R>,
    seat: &mut RingSeat<D, C>,
    index: usize,
    value: u64,
)
    requires { (seat.old.table_id ≡ table.now.shared.table_id) × (index < table.now.shared.table_id.words) × Allows (IsRuled R.form table.now.shared.key.0 table.now.shared.key.1) table.now.shared.table_id.slots seat.old.id seat.old.me index (λ _. value) (λ _. M.then (step table.now.shared.table_id.slots index value 0 none) seat.old.me value) }
    ensures same { (seat.new.table_id ≡ seat.old.table_id) × (seat.new.id ≡ seat.old.id) }
    ensures told { M.then (step table.now.shared.table_id.slots index value 0 none) seat.old.me value seat.new.me }
    ensures counted { Counts E.whose Store (step table.now.shared.table_id.slots index value 0 none) seat.old.me value seat.new.me }
{
    table.shared.store::<M>(seat, index, value);
}
