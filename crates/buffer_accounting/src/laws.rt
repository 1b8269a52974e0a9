//! How the calls of drivers and of a pool move a worker's buffers, as contracts of functions that do nothing.
ghost use Rattle.buffer_accounting.specs.Laws.{BatchesMove, ReclaimingMoves, RefillsAreHeld};

/// A batch of either driver only moves buffers between the places of a worker.
pub fn batches_move_buffers()
    ensures { BatchesMove }
{}

/// Reclaiming does so too.
pub fn reclaiming_moves_buffers()
    ensures { ReclaimingMoves }
{}

/// The pass holds all buffers that a refill moves into the stash.
pub fn refills_are_held()
    ensures { RefillsAreHeld }
{}
