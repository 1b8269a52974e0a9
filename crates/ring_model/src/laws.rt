//! Laws about every ring that a schedule reaches, stated as contracts of functions that do nothing.
ghost use Rattle.std.specs.Prelude.{◌≡◌, ℕ, ◌<◌, List};
ghost use Rattle.ring_model.specs.declared.steps.RxStep.{RxStep};
ghost use Rattle.ring_model.specs.declared.steps.TxStep.{TxStep};
ghost use Rattle.ring_model.specs.shared.Laws.{ControlFits, IsOrdered};
ghost use Rattle.ring_model.specs.receive.Ring.{RxRing};
ghost use Rattle.ring_model.specs.receive.Steps.{IsRxReachable, rx_after_all};
ghost use Rattle.ring_model.specs.receive.Lawful.{IsLawfulRx};
ghost use Rattle.ring_model.specs.receive.Laws.{IsRxConcluded, RxLater};
ghost use Rattle.ring_model.specs.transmit.Ring.{Posting, TxRing};
ghost use Rattle.ring_model.specs.transmit.Steps.{IsTxReachable, tx_after_all};
ghost use Rattle.ring_model.specs.transmit.Lawful.{IsLawfulTx};
ghost use Rattle.ring_model.specs.transmit.Laws.{IsTxConcluded, IsTxOrdered, TxLater};
ghost use Rattle.ring_model.specs.Worlds.{QueueMove, World, after_move, after_moves, can_move, note_in, IsLawfulWorld, IsLeftAlone, IsReachableWorld, IsStepOfQueue, WorldLater};

/// Every ring of two places or more that a schedule reaches is lawful, for every payload (bytes, or the number of bytes)
/// and both ways to report: its owner map, and its ledgers, of this epoch and of ended ones.
pub fn rings_are_lawful<Payload>()
    ensures rx_lawful { (n : ℕ) (r : RxRing Payload) → 1 < n → IsRxReachable Payload n r → IsLawfulRx Payload r }
    ensures tx_lawful { (n : ℕ) (r : TxRing Payload) → 1 < n → IsTxReachable Payload n r → IsLawfulTx Payload r }
{}

/// The counts of every reachable ring are in order: what came back was stored or sent, and that was posted; the
/// controller knows of no more than is published. Nothing is stored or sent before the enabling is answered, and all
/// buffers are back once the head is cleared. Of a transmit ring: what is cleaned was seen reported, what was seen
/// reported was reported, and what is reported was sent.
pub fn counts_are_ordered<Payload>()
    ensures rx_ordered { (n : ℕ) (r : RxRing Payload) → 1 < n → IsRxReachable Payload n r → IsOrdered r.queue }
    ensures tx_ordered { (n : ℕ) (r : TxRing Payload) → 1 < n → IsTxReachable Payload n r → IsTxOrdered r }
{}

/// The control word of every reachable ring, and the value that its controller saw last, fit the states of both sides.
pub fn control_words_fit<Payload>()
    ensures rx_control { (n : ℕ) (r : RxRing Payload) → 1 < n → IsRxReachable Payload n r → ControlFits r.handshake.driver r.handshake.controller r.handshake.control r.handshake.seen }
    ensures tx_control { (n : ℕ) (r : TxRing Payload) → 1 < n → IsTxReachable Payload n r → ControlFits r.handshake.driver r.handshake.controller r.handshake.control r.handshake.seen }
{}

/// Every reachable ring is concluded. If the driver saw the disabling answered, the controller has ended, and the head
/// is the place after the last stored or sent segment until it is cleared.
///
/// Receive rings: if the controller stores no more, the last frame is whole. If the quiet word is 1, the controller said
/// so and stores no more in this epoch.
///
/// Transmit rings: published postings end with a whole frame. If the controller answered the disabling, the last frame
/// is whole and no report is owed. If all postings are cleaned, all were sent, in order.
pub fn rings_are_concluded<Payload>()
    ensures rx_concluded { (n : ℕ) (r : RxRing Payload) → 1 < n → IsRxReachable Payload n r → IsRxConcluded r }
    ensures tx_concluded { (n : ℕ) (r : TxRing Payload) → 1 < n → IsTxReachable Payload n r → IsTxConcluded r }
{}

/// Any schedule that continues from a reachable ring reaches a ring of the same length, and the lists of its epoch only
/// grow. The posted list is fixed once the driver is no longer open. The stored list is fixed once the controller
/// answered the disabling or said that it is quiet, the sent list once it answered the disabling. The taken or cleaned
/// list is fixed once the driver saw the disabling answered. Ended epochs never change.
pub fn epochs_are_fixed<Payload>()
    ensures rx_later { (n : ℕ) (r : RxRing Payload) (more : List (RxStep Payload)) → 1 < n → IsRxReachable Payload n r → RxLater r (rx_after_all r more) }
    ensures rx_reached { (n : ℕ) (r : RxRing Payload) (more : List (RxStep Payload)) → IsRxReachable Payload n r → IsRxReachable Payload n (rx_after_all r more) }
    ensures rx_size { (n : ℕ) (r : RxRing Payload) → 1 < n → IsRxReachable Payload n r → r.size ≡ n }
    ensures tx_later { (n : ℕ) (r : TxRing Payload) (more : List (TxStep (Posting Payload))) → 1 < n → IsTxReachable Payload n r → TxLater r (tx_after_all r more) }
    ensures tx_reached { (n : ℕ) (r : TxRing Payload) (more : List (TxStep (Posting Payload))) → IsTxReachable Payload n r → IsTxReachable Payload n (tx_after_all r more) }
    ensures tx_size { (n : ℕ) (r : TxRing Payload) → 1 < n → IsTxReachable Payload n r → r.size ≡ n }
{}

/// A move makes one step of its own queue, with that step's note, and leaves all other queues unchanged. A move of a
/// queue that does not exist changes nothing and has no note. After any moves the number of queues is the same, and
/// each queue continues from its earlier state. Each queue of a reachable world is reachable by its own steps, and
/// therefore lawful.
pub fn queues_stand_apart()
    ensures step { (w : World) (m : QueueMove) → IsStepOfQueue w m (can_move w m) (after_move w m) (note_in w m) }
    ensures alone { (w : World) (m : QueueMove) → IsLeftAlone w m (after_move w m) }
    ensures lawful { (pairs : ℕ) (n : ℕ) (w : World) → 1 < n → IsReachableWorld pairs n w → IsLawfulWorld n w }
    ensures later { (pairs : ℕ) (n : ℕ) (w : World) (more : List QueueMove) → 1 < n → IsReachableWorld pairs n w → WorldLater w (after_moves w more) }
    ensures reached { (pairs : ℕ) (n : ℕ) (w : World) (more : List QueueMove) → IsReachableWorld pairs n w → IsReachableWorld pairs n (after_moves w more) }
{}
