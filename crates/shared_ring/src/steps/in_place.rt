//! A controller's steps over a descriptor whose buffer stays in its slot: a load, and the store that gives it back.
ghost use Rattle.std.specs.Prelude.{◌≡◌, ◌<◌, true, false, None};
ghost use Rattle.ring_model.specs.shared.Handshakes.{is_serving};
ghost use Rattle.shared_ring.specs.Ends.{known_ahead, held, controller_state, is_barred, serve_place, controller_of};
ghost use Rattle.shared_ring.specs.InPlace.{MayFill, MayRead, FilledNext, ReadNext};

use super::{EndSeat, Ring};
use crate::accesses::{load, store};
use crate::direction::{Direction, OwnStep};
use crate::events::ControllerEvent;
use crate::plays::{Gives, NextLoad, Takes};
use buffer_pool::Buf;

/// A receiver of the bytes of fetched buffers, which stay in their slots.
pub trait Sink {
    ghost use Rattle.std.specs.Prelude.{ℕ};
    ghost use Rattle.buffer_pool.specs.Buffer.{Buffer};

    /// Whether it may take this buffer, fetched with this word.
    ghost may: { Self → ℕ → Buffer → Type 0 };

    /// What it is after that.
    ghost took: { Self → ℕ → Buffer → Self → Type 0 };

    /// Takes a buffer's bytes.
    fn take(&mut self, word: u64, buf: &Buf)
        requires { may self.old word buf.now }
        ensures { took self.old word buf.now self.new };
}

impl<D, C, R: Direction<D, C>> EndSeat<ControllerEvent<C>, D, C, R> {
    /// Loads the next descriptor, fills its buffer with `bytes`, and gives it back with a store.
    #[inline]
    pub fn fill_own<P: OwnStep<ControllerEvent<C>>>(
        &mut self,
        ring: &Ring<D, C, R>,
        place: u16,
        bytes: &[u8],
        index: usize,
        value: u64,
    )
        requires own { self.old.table ≡ ring.now }
        requires place { place ≡ serve_place (controller_of R.form self.old) }
        requires serving { is_serving (controller_state (controller_of R.form self.old)) ≡ true }
        requires ahead { 0 < known_ahead (controller_of R.form self.old) }
        requires held { held (controller_of R.form self.old) ≡ None }
        requires free { is_barred (controller_of R.form self.old) ≡ false }
        requires may { MayFill R.form P.event self.old.table.slots self.old.completion self.old.events place index value bytes.now }
        ensures { FilledNext R.form P.event self.old place index value bytes.now self.new }
    {
        let place = place as usize;
        load::<Takes<NextLoad<D, R>, _, R>, _, _, _, _>(&ring.table, &mut self.seat, place);
        self.seat.slot_mut(&ring.table.shared, place).fill(bytes);
        store::<Gives<P, _, R>, _, _, _, _>(&ring.table, &mut self.seat, index, value);
    }

    /// Loads the next descriptor, hands its buffer to `sink`, and gives it back with a store. Returns the loaded word.
    #[inline]
    pub fn read_own<P: OwnStep<ControllerEvent<C>>, S: Sink>(
        &mut self,
        ring: &Ring<D, C, R>,
        place: u16,
        index: usize,
        value: u64,
        sink: &mut S,
    ) -> u64
        requires own { self.old.table ≡ ring.now }
        requires place { place ≡ serve_place (controller_of R.form self.old) }
        requires serving { is_serving (controller_state (controller_of R.form self.old)) ≡ true }
        requires ahead { 0 < known_ahead (controller_of R.form self.old) }
        requires held { held (controller_of R.form self.old) ≡ None }
        requires free { is_barred (controller_of R.form self.old) ≡ false }
        requires may { MayRead R.form P.event self.old.table.slots self.old.completion self.old.events place index value S.may sink.old }
        ensures { ReadNext R.form P.event S.took self.old place index value sink.old result sink.new self.new }
    {
        let place = place as usize;
        let word = load::<Takes<NextLoad<D, R>, _, R>, _, _, _, _>(
            &ring.table,
            &mut self.seat,
            place,
        );
        sink.take(word, self.seat.slot_mut(&ring.table.shared, place));
        store::<Gives<P, _, R>, _, _, _, _>(&ring.table, &mut self.seat, index, value);
        word
    }
}
