//! The calls that drivers of both directions share: the handshake, and reclaiming the buffers of a disabled queue.
ghost use Rattle.std.specs.Prelude.{◌≡◌, ◌+◌, ◌↔◌, true, false, length, Ok, IsErr, IsOk, IsSome, IfNone, IfErr, OnErr, IfOk, OnOk};
ghost use Rattle.limits.specs.RingLength.{IsRingLength};
ghost use Rattle.ring_model.specs.declared.states.DriverState.TheVariants as state;
ghost use Rattle.ring_model.specs.shared.Handshakes.{is_live, is_on, is_open, is_stopped};
ghost use Rattle.shared_ring.specs.Calls.{IsPoster};
ghost use Rattle.shared_ring.specs.declared.events.DriverEvent.TheVariants.{AskedDisable};
ghost use Rattle.shared_ring.specs.Ends.{driver_of, driver_side, driver_size, driver_record, driver_state, known_of, grown};
ghost use Rattle.refusals.specs.declared.errors.DriverError.TheVariants.{QueueOff, StashFull, NotReclaimed};
ghost use Rattle.driver.specs.Handshake.{AskedEnabling, Finishes};

use buffer_pool::{STASH_BUFFERS, Stash};
use refusals::DriverError;
use shared_ring::{Direction, DriverPlaces, SharedRing};

/// A driver of a queue of either direction. Each call takes the ring for which the driver's end was made.
pub trait QueueDriver<D, C, R: Direction<D, C>>: Sized {
    ghost use Rattle.std.specs.Prelude.{ℕ, List, Option};
    ghost use Rattle.shared_ring.specs.declared.events.DriverEvent.{DriverEvent};
    ghost use Rattle.shared_ring.specs.Ends.{Side};

    /// The ring.
    type Ring: SharedRing;

    /// The record of the end's own steps.
    ghost side: { Self → Side (DriverEvent D) };

    /// The same driver with an end that has made further steps.
    ghost with_side: { Self → Side (DriverEvent D) → Self };

    /// The driver of a new epoch, with a renewed end.
    ghost anew: { Self → Side (DriverEvent D) → Self };

    /// How many segments every meeting of the epoch finds left, as far as the end knows.
    ghost told: { Side (DriverEvent D) → Option ℕ };

    /// A load of the head taught the end nothing else.
    ghost learnt_head: { Side (DriverEvent D) → Side (DriverEvent D) → Type 0 };

    /// The buffers of a disabled queue moved into the stash, the oldest first.
    ghost gave_back: { Self → List ℕ → Self → List ℕ → Type 0 };

    /// A disabled queue has neither buffers nor a chain left.
    ghost is_emptied: { Self → Type 0 };

    /// A new epoch began, in which no step is made yet.
    ghost gone_over: { Side (DriverEvent D) → Side (DriverEvent D) → Type 0 };

    /// The places and the handshake state of the end.
    fn at(&self) -> DriverPlaces
        ensures { IsPoster (driver_size (driver_of R.form (side self.now))) (driver_record (driver_of R.form (side self.now))) result };

    /// Asks for the queue to be enabled, if nothing was asked yet, loads the control word, and returns whether the
    /// queue is enabled. After a disabling was asked it returns false and makes no step.
    ///
    /// Returns `NotReclaimed` if the queue was seen disabled and is not renewed; nothing is done then.
    fn enable(&mut self, ring: &Self::Ring) -> Result<bool, DriverError>
        requires own { (side self.old).table ≡ Self.Ring.table ring.now }
        ensures ring { (side self.new).table ≡ (side self.old).table }
        ensures refused { IsErr result ↔ (is_stopped (driver_state (driver_of R.form (side self.old))) ≡ true) }
        ensures refusal { IfErr result (λ e. e ≡ NotReclaimed) }
        ensures told { IfOk result (λ enabled. enabled ≡ is_on (driver_state (driver_of R.form (side self.new)))) }
        ensures open { is_open (driver_state (driver_of R.form (side self.old))) ≡ true → AskedEnabling (driver_of R.form (side self.old)) (driver_of R.form (side self.new)) }
        ensures shut { is_open (driver_state (driver_of R.form (side self.old))) ≡ false → self.new ≡ self.old }
        ensures known { known_of (driver_of R.form (side self.new)) ≡ known_of (driver_of R.form (side self.old)) }
        ensures rest { self.new ≡ with_side self.old (side self.new) };

    /// Asks for the queue to be disabled.
    ///
    /// Returns `QueueOff` if the queue was not seen enabled, or a disabling was already asked; nothing is done then.
    fn ask_disable(&mut self, ring: &Self::Ring) -> Result<(), DriverError>
        requires own { (side self.old).table ≡ Self.Ring.table ring.now }
        ensures ring { (side self.new).table ≡ (side self.old).table }
        ensures refused { IsErr result ↔ (is_on (driver_state (driver_of R.form (side self.old))) ≡ false) }
        ensures refusal { IfErr result (λ e. e ≡ QueueOff) }
        ensures unchanged { OnErr result (self.new ≡ self.old) }
        ensures step { OnOk result (self.new ≡ with_side self.old (grown (side self.old) AskedDisable)) }
        ensures record { OnOk result (driver_record (driver_of R.form (side self.new)) ≡ record (driver_record (driver_of R.form (side self.old))) { state = state.Stopping }) }
        ensures known { known_of (driver_of R.form (side self.new)) ≡ known_of (driver_of R.form (side self.old)) };

    /// Loads the control word. Once the disabling is answered, also loads the head and returns how many segments are
    /// left: stored but not taken on a receive queue, posted but not sent on a transmit queue. The number is final:
    /// every later meeting finds the same. Returns `None` before that, and afterwards `None` without a step.
    fn finish_disable(&mut self, ring: &Self::Ring) -> Option<u32>
        requires own { (side self.old).table ≡ Self.Ring.table ring.now }
        ensures ring { (side self.new).table ≡ (side self.old).table }
        ensures finishes { Finishes (λ d. told (driver_side R.form d)) (driver_of R.form (side self.old)) result (driver_of R.form (side self.new)) }
        ensures answered { IsSome result ↔ ((is_stopped (driver_state (driver_of R.form (side self.old))) ≡ false) × (is_stopped (driver_state (driver_of R.form (side self.new))) ≡ true)) }
        ensures lists { driver_record (driver_of R.form (side self.new)) ≡ record (driver_record (driver_of R.form (side self.old))) { state = driver_state (driver_of R.form (side self.new)) } }
        ensures known { learnt_head (side self.old) (side self.new) }
        ensures unlearnt { IfNone result (known_of (driver_of R.form (side self.new)) ≡ known_of (driver_of R.form (side self.old))) }
        ensures rest { self.new ≡ with_side self.old (side self.new) };

    /// Moves all buffers of a disabled queue into the stash: first those of an unfinished chain, then those in the
    /// ring, the oldest first. Returns their number, which is 0 until `finish_disable` has returned `Some`.
    ///
    /// Returns `StashFull` if buffers remain for which the stash has no room: those that fit are moved, and the call
    /// can be repeated.
    fn reclaim_into(&mut self, ring: &Self::Ring, stash: &mut Stash) -> Result<usize, DriverError>
        requires own { (side self.old).table ≡ Self.Ring.table ring.now }
        ensures ring { (side self.new).table ≡ (side self.old).table }
        ensures waits { is_stopped (driver_state (driver_of R.form (side self.old))) ≡ false → (result ≡ Ok 0) × (self.new ≡ self.old) × (stash.new ≡ stash.old) }
        ensures back { is_stopped (driver_state (driver_of R.form (side self.old))) ≡ true → gave_back self.old stash.old self.new stash.new }
        ensures state { driver_state (driver_of R.form (side self.new)) ≡ driver_state (driver_of R.form (side self.old)) }
        ensures known { known_of (driver_of R.form (side self.new)) ≡ known_of (driver_of R.form (side self.old)) }
        ensures count { IfOk result (λ count. length stash.new ≡ length stash.old + count) }
        ensures all { OnOk result (is_stopped (driver_state (driver_of R.form (side self.old))) ≡ true → is_emptied self.new) }
        ensures refusal { IfErr result (λ e. e ≡ StashFull) }
        ensures full { OnErr result (length stash.new ≡ STASH_BUFFERS) }
        ensures left { OnErr result (¬ is_emptied self.new) };

    /// Renews a queue that was seen disabled and from which all buffers came back, so that it can be enabled again. The
    /// next batch of a receive queue posts its buffers; a transmit queue counts its frames from 1 again.
    ///
    /// Returns `NotReclaimed` if the queue was not seen disabled, or buffers or a chain are left; nothing is done then.
    fn renew(&mut self, ring: &Self::Ring) -> Result<(), DriverError>
        requires own { (side self.old).table ≡ Self.Ring.table ring.now }
        ensures ring { (side self.new).table ≡ (side self.old).table }
        ensures renewed { IsOk result ↔ is_emptied self.old }
        ensures refusal { IfErr result (λ e. e ≡ NotReclaimed) }
        ensures unchanged { OnErr result (self.new ≡ self.old) }
        ensures begun { OnOk result (gone_over (side self.old) (side self.new)) }
        ensures rest { OnOk result (self.new ≡ anew self.old (side self.new)) };

    /// The number of descriptors of the ring.
    #[inline]
    final fn size(&self) -> u32
        ensures lawful { IsRingLength result }
        ensures value { result ≡ driver_size (driver_of R.form (side self.now)) }
    {
        self.at().size as u32
    }

    /// Whether the queue was seen enabled and its disabling not yet seen answered: in this state a batch takes packets
    /// or cleans.
    #[inline]
    final fn is_live(&self) -> bool
        ensures { result ≡ is_live (driver_state (driver_of R.form (side self.now))) }
    {
        self.at().state.is_live()
    }

    /// Whether the queue was seen enabled, and no disabling was asked.
    #[inline]
    final fn is_on(&self) -> bool
        ensures { result ≡ is_on (driver_state (driver_of R.form (side self.now))) }
    {
        self.at().state.is_on()
    }

    /// Whether the disabling was seen answered, so that `reclaim_into` moves the buffers.
    #[inline]
    final fn is_stopped(&self) -> bool
        ensures { result ≡ is_stopped (driver_state (driver_of R.form (side self.now))) }
    {
        self.at().state.is_stopped()
    }
}
