//! Laws about every ring that a schedule reaches, stated as contracts of functions that do nothing.
ghost use Rattle.std.specs.Prelude.{◌≡◌, ℕ, ◌<◌, ◌≤◌, Bool, true, ◌&&◌, ◌||◌, List, Some};
ghost use Rattle.ring_model.specs.declared.handshake.Handshake.{Handshake};
ghost use Rattle.ring_model.specs.declared.steps.RxStep.{RxStep};
ghost use Rattle.ring_model.specs.declared.steps.TxStep.{TxStep};
ghost use Rattle.ring_model.specs.shared.Handshakes.{is_serving, has_ended};
ghost use Rattle.ring_model.specs.shared.Laws.{IsOrdered};
ghost use Rattle.ring_model.specs.shared.Queue.{completed_count};
ghost use Rattle.ring_model.specs.receive.Ring.{RxRing, rx_opening};
ghost use Rattle.ring_model.specs.receive.Steps.{rx_can, rx_changed, rx_after_all, IsRxReachable};
ghost use Rattle.ring_model.specs.kept.Receive.{IsRxKept};
ghost use Rattle.ring_model.specs.receive.Lawful.{IsLawfulRx};
ghost use Rattle.ring_model.specs.receive.Laws.{IsRxConcluded, RxLater, rx_quiesced};
ghost use Rattle.ring_model.specs.transmit.Ring.{Posting, TxRing};
ghost use Rattle.ring_model.specs.transmit.Steps.{first_report, tx_after_all, IsTxReachable};
ghost use Rattle.ring_model.specs.kept.Transmit.{IsTxKept};
ghost use Rattle.ring_model.specs.transmit.Lawful.{IsLawfulTx};
ghost use Rattle.ring_model.specs.transmit.Laws.{IsTxConcluded, IsTxOrdered, TxLater};

/// Receive rings, for every payload: a reachable ring has the invariant `IsRxKept`, and a ring with this invariant is
/// lawful, ordered, concluded, and continues lawfully.
pub fn rx_rings_are_kept<Payload>()
    ensures rx_kept { (n : ℕ) (r : RxRing Payload) → 1 < n → IsRxReachable Payload n r → IsRxKept Payload n r }
    ensures rx_lawful { (n : ℕ) (r : RxRing Payload) → IsRxKept Payload n r → IsLawfulRx Payload r }
    ensures rx_ordered { (n : ℕ) (r : RxRing Payload) → IsRxKept Payload n r → IsOrdered r.queue }
    ensures rx_concluded { (n : ℕ) (r : RxRing Payload) → IsRxKept Payload n r → IsRxConcluded r }
    ensures rx_later_all { (n : ℕ) (r : RxRing Payload) (more : List (RxStep Payload)) → IsRxKept Payload n r → RxLater r (rx_after_all r more) }
    ensures opening { (n : ℕ) (enabled : Bool) → 1 < n → IsRxKept Payload n (rx_opening n enabled) }
    ensures quiesced_ended { (h : Handshake) (still : Bool) → has_ended h ≡ true → (has_ended h || (is_serving h.controller && still)) ≡ true }
    ensures said_stays { (n : ℕ) (r : RxRing Payload) → IsRxKept Payload n r → (s : RxStep Payload) → rx_can r s ≡ true → rx_quiesced r ≡ true → r.still ≡ true → (rx_changed r s).still ≡ true }
{}

/// Transmit rings, for every payload: a reachable ring has the invariant `IsTxKept`, and a ring with this invariant is
/// lawful, ordered, concluded, and continues lawfully.
pub fn tx_rings_are_kept<Payload>()
    ensures tx_kept { (n : ℕ) (r : TxRing Payload) → 1 < n → IsTxReachable Payload n r → IsTxKept Payload n r }
    ensures tx_lawful { (n : ℕ) (r : TxRing Payload) → IsTxKept Payload n r → IsLawfulTx Payload r }
    ensures tx_ordered { (n : ℕ) (r : TxRing Payload) → IsTxKept Payload n r → IsTxOrdered r }
    ensures tx_concluded { (n : ℕ) (r : TxRing Payload) → IsTxKept Payload n r → IsTxConcluded r }
    ensures tx_later_all { (n : ℕ) (r : TxRing Payload) (more : List (TxStep (Posting Payload))) → IsTxKept Payload n r → TxLater r (tx_after_all r more) }
    ensures first_report_above { (ps : List (Posting Payload)) (k : ℕ) (count : ℕ) (j : ℕ) → first_report ps k count ≡ Some j → k ≤ j }
    ensures seen_sent { (n : ℕ) (r : TxRing Payload) → IsTxKept Payload n r → r.seen_reported ≤ completed_count r.queue }
{}
