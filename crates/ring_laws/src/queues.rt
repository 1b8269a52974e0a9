//! Laws about every queue that a schedule reaches, stated as contracts of functions that do nothing.
ghost use Rattle.std.specs.Prelude.{◌≡◌, ℕ, ◌≢◌, ◌<◌, ◌≤◌, Bool, true, false, Option, None};
ghost use Rattle.ring_model.specs.shared.Handshakes.{is_answered, is_serving, is_ended};
ghost use Rattle.ring_model.specs.shared.Laws.{ControlFits};
ghost use Rattle.ring_model.specs.kept.Queues.{IsKept};
ghost use Rattle.ring_model.specs.shared.QueueSteps.{Fetch};
ghost use Rattle.ring_model.specs.shared.Queue.{Queue, posted_count, completed_count, returned_count, may, by};
ghost use Rattle.ring_model.specs.shared.Agreement.{wanted_slot};

/// Consequences of the queue invariant `IsKept`. The control word fits the two states. While the controller serves,
/// every item that is back with the driver was completed. A held item was posted. If an item can be fetched, the
/// controller serves and holds nothing, and the item was posted. Once the driver saw the disabling answered, the
/// controller has ended and holds nothing.
pub fn kept_queues_tell<Posted, Completed, Reaped>()
    ensures control_fits_of { (n : ℕ) (ends : Completed → Bool) (q : Queue Posted Completed Reaped) → IsKept n ends q → ControlFits q.handshake.driver q.handshake.controller q.handshake.control q.handshake.seen }
    ensures returned_completed { (n : ℕ) (ends : Completed → Bool) (q : Queue Posted Completed Reaped) → IsKept n ends q → is_serving q.handshake.controller ≡ true → returned_count q ≤ completed_count q }
    ensures held_below { (n : ℕ) (ends : Completed → Bool) (q : Queue Posted Completed Reaped) → IsKept n ends q → q.held ≡ true → completed_count q < posted_count q }
    ensures fetch_facts { (n : ℕ) (ends : Completed → Bool) (q : Queue Posted Completed Reaped) → IsKept n ends q → may q Fetch ≡ true → (is_serving q.handshake.controller ≡ true) × (q.held ≡ false) × (completed_count q < posted_count q) }
    ensures answered_has_ended { (n : ℕ) (ends : Completed → Bool) (q : Queue Posted Completed Reaped) → IsKept n ends q → is_answered q.handshake.driver ≡ true → is_ended q.handshake.controller ≡ true }
    ensures answered_idle { (n : ℕ) (ends : Completed → Bool) (q : Queue Posted Completed Reaped) → IsKept n ends q → is_answered q.handshake.driver ≡ true → is_serving q.handshake.controller ≡ false }
    ensures answered_unheld { (n : ℕ) (ends : Completed → Bool) (q : Queue Posted Completed Reaped) → IsKept n ends q → is_answered q.handshake.driver ≡ true → q.held ≡ false }
{}

/// A fetch empties the slot of its item and leaves every other item in its slot.
pub fn a_fetch_takes_one<Posted, Completed, Reaped, Buffer>()
    ensures fetch_here { (word_of_item : ℕ → Option Posted → Option Completed → ℕ) (buffer_of_item : Option Posted → Option Completed → Option Buffer) (q : Queue Posted Completed Reaped) → wanted_slot {Reaped = Reaped} word_of_item buffer_of_item (by q Fetch) (completed_count q) ≡ None }
    ensures fetch_rest { (word_of_item : ℕ → Option Posted → Option Completed → ℕ) (buffer_of_item : Option Posted → Option Completed → Option Buffer) (q : Queue Posted Completed Reaped) (j : ℕ) → j ≢ completed_count q → wanted_slot {Reaped = Reaped} word_of_item buffer_of_item (by q Fetch) j ≡ wanted_slot {Reaped = Reaped} word_of_item buffer_of_item q j }
{}
