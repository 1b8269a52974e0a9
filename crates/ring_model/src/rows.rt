//! Worked rows: the notes of schedules and the pieces of frames, computed from the definitions alone.

ghost use Rattle.ring_model.specs.rows.Frames.{CutRows, FollowRows};
ghost use Rattle.ring_model.specs.rows.Receive.{RxRows};
ghost use Rattle.ring_model.specs.rows.ReceiveStates.{RxStateRows};
ghost use Rattle.ring_model.specs.rows.Transmit.{TxRows};
ghost use Rattle.ring_model.specs.rows.TransmitStates.{TxStateRows};
ghost use Rattle.ring_model.specs.rows.Postings.{PostingRows};
ghost use Rattle.ring_model.specs.rows.Worlds.{WorldRows};

/// The definitions give the expected notes of each schedule, pieces of each frame, and segments that may follow an
/// unfinished frame. The expected values were worked out independently: by hand, and for the rows of states by a
/// machine of plain lists.
pub fn worked_rows()
    ensures cut { CutRows }
    ensures follow { FollowRows }
    ensures postings { PostingRows }
    ensures receive { RxRows }
    ensures receive_states { RxStateRows }
    ensures transmit { TxRows }
    ensures transmit_states { TxStateRows }
    ensures worlds { WorldRows }
{}
