//! The driver's steps that only a receive ring has.
ghost use Rattle.std.specs.Prelude.{◌≡◌, ◌+◌, ◌<◌, true, length, None, Some};
ghost use Rattle.buffer_pool.specs.Buffer.{buffer};
ghost use Rattle.ring_model.specs.shared.Agreement.{bit};
ghost use Rattle.ring_model.specs.shared.Handshakes.{is_live, is_tailed};
ghost use Rattle.shared_ring.specs.declared.events.DriverEvent.TheVariants as driver;
ghost use Rattle.shared_ring.specs.declared.events.ControllerEvent.TheVariants as controller;
ghost use Rattle.shared_ring.specs.Ends.{driver_of};
ghost use Rattle.rx_ring.specs.declared.events.RxDriverOwn.TheVariants.{LoadedQuiet, ClearedQuiet};
ghost use Rattle.rx_ring.specs.Ends.{posted, returned, driver_state, fill_place, next_place, driver_grown};
ghost use Rattle.rx_ring.specs.Form.{rx};
ghost use Rattle.rx_ring.specs.Steps.{Found};

use crate::direction::{RxDriverSeat, RxShared};
use crate::events::RxDriverEvent;
use buffer_pool::Buf;
use descriptor::RxBack;
use shared_ring::{OwnStep, OwnTake, QUIET};

/// A6: loads a descriptor's status word, and takes its buffer if DD is set.
struct StatusLoad;

impl OwnStep<RxDriverEvent> for StatusLoad {
    ghost use Rattle.rx_ring.specs.Plays.{takes, TakesOut};

    ghost event = { takes };

    ghost tells = { TakesOut };
}

impl OwnTake<RxDriverEvent> for StatusLoad {
    ghost use Rattle.rx_ring.specs.Plays.{finds_none, is_done};

    ghost missed = { finds_none };

    ghost done = { is_done };

    #[inline]
    fn is_done(word: u64) -> bool {
        RxBack::is_done(word)
    }
}

/// A6: loads the oldest descriptor that is out, and takes its buffer if DD is set. Returns the buffer with EOP.
#[inline]
pub(crate) fn take(seat: &mut RxDriverSeat, ring: &RxShared, place: u16) -> Option<(Buf, bool)>
    requires own { seat.old.table ≡ ring.now }
    requires place { place ≡ next_place (driver_of rx seat.old) }
    requires live { is_live (driver_state (driver_of rx seat.old)) ≡ true }
    requires out { returned (driver_of rx seat.old) < length (posted (driver_of rx seat.old)) }
    ensures { Found (driver_of rx seat.old) place result (driver_of rx seat.new) }
{
    let (word, taken) = seat.take_own::<StatusLoad>(ring, place);
    match taken {
        None => None,
        Some(buf) => Some((buf, RxBack::ends_frame(word))),
    }
}

/// C8: loads the quiet word.
struct QuietLoad;

impl OwnStep<RxDriverEvent> for QuietLoad {
    ghost use Rattle.rx_ring.specs.Plays.{loads_quiet, IsBit};

    ghost event = { loads_quiet };

    ghost tells = { IsBit };
}

/// C8: loads the quiet word, and returns whether it is 1.
#[inline]
pub(crate) fn load_quiet(seat: &mut RxDriverSeat, ring: &RxShared) -> bool
    requires own { seat.old.table ≡ ring.now }
    ensures { driver_of rx seat.new ≡ driver_grown (driver_of rx seat.old) (driver.Own (LoadedQuiet (bit result))) }
{
    let index = seat.size() as usize + QUIET;
    seat.load_own::<QuietLoad>(ring, index) == 1
}

/// C11: stores 0 as the quiet word, as the last step of an epoch.
struct ClearQuietStore;

impl OwnStep<RxDriverEvent> for ClearQuietStore {
    ghost use Rattle.rx_ring.specs.Plays.{clears_quiet};

    ghost event = { clears_quiet };
}

/// C11: stores 0 as the quiet word, which ends the epoch.
#[inline]
pub(crate) fn clear_quiet(seat: &mut RxDriverSeat, ring: &RxShared, fill: u16)
    requires own { seat.old.table ≡ ring.now }
    requires place { fill ≡ fill_place (driver_of rx seat.old) }
    requires tailed { is_tailed (driver_state (driver_of rx seat.old)) ≡ true }
    requires back { returned (driver_of rx seat.old) ≡ length (posted (driver_of rx seat.old)) }
    ensures { driver_of rx seat.new ≡ driver_grown (driver_of rx seat.old) (driver.Own ClearedQuiet) }
{
    let index = seat.size() as usize + QUIET;
    seat.end_own::<ClearQuietStore>(ring, index, fill);
}
