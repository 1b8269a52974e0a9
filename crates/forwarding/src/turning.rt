//! A driver's turn for one flow: it touches the packets that it takes and sends them on.
ghost use Rattle.std.specs.Prelude.{◌≡◌, ◌≤◌, true, All, length, IfErr, OnErr, IfOk, OnOk};
ghost use Rattle.ring_model.specs.shared.Handshakes.{is_live};
ghost use Rattle.rx_ring.specs.Ends as receive;
ghost use Rattle.limits.specs.declared.profile.TheConstants.{MOST_BATCH};
ghost use Rattle.driver.specs.receive.Chains.{IsTaken};
ghost use Rattle.teams.specs.declared.gate.Who.TheVariants as who;
ghost use Rattle.forwarding.specs.Driving.{BothAllowed, CanDrive, Counted, Drove, HeldBack, Moved, OneRefused, Received, driving};
ghost use Rattle.teams.specs.Gates.{MayRefuse};

use crate::packets::touch_from;
use arrayvec::ArrayVec;
use buffer_pool::{Packet, Stash};
use driver::{MOST_BATCH, RxDriver, TxDriver};
use refusals::ForwardError;
use rx_ring::RxRing;
use teams::{Event, Gate, Who, admit};
use tx_ring::TxRing;

/// The frames of a turn.
#[derive(Clone, Copy, Debug, PartialEq, Eq)]
pub struct Turned {
    /// The frames that were taken.
    pub taken: usize,
    /// The frames that were posted.
    pub posted: usize,
}

/// Takes a batch of packets from one queue, touches each that it appended to the list, and posts the packets that wait,
/// from the front of the list, on another queue. Both queues must be live and of the same length, and no waiting packet
/// may need more descriptors than a ring of that length can have out.
///
/// Returns `Gate` if the gate returned false before either batch; the packets taken so far then wait, touched.
#[inline]
pub fn drive<G: Gate>(
    rx: &mut RxDriver,
    tx: &mut TxDriver,
    from: &RxRing,
    to: &TxRing,
    stash: &mut Stash,
    packets: &mut ArrayVec<Packet, MOST_BATCH>,
    flow: usize,
    gate: &G,
) -> Result<Turned, ForwardError>
    requires can { CanDrive from.now to.now (driving rx.old tx.old stash.old packets.old.items) }
    ensures can { CanDrive from.now to.now (driving rx.new tx.new stash.new packets.new.items) }
    ensures moved { Moved (driving rx.old tx.old stash.old packets.old.items) (driving rx.new tx.new stash.new packets.new.items) }
    ensures steps { IfOk result (λ t. Drove t.taken t.posted (driving rx.old tx.old stash.old packets.old.items) (driving rx.new tx.new stash.new packets.new.items)) }
    ensures counted { IfOk result (λ t. Counted t.taken t.posted (driving rx.old tx.old stash.old packets.old.items) (driving rx.new tx.new stash.new packets.new.items)) }
    ensures few { IfOk result (λ t. (t.taken ≤ MOST_BATCH) × (t.posted ≤ MOST_BATCH)) }
    ensures allowed { OnOk result (BothAllowed G.answers gate.now flow) }
    ensures one_refused { OnErr result (OneRefused G.answers gate.now flow) }
    ensures refusal { IfErr result (λ e. (e ≡ ForwardError.Gate) × MayRefuse G.answers gate.now (who.Driver flow)) }
    ensures refused { OnErr result (HeldBack (driving rx.old tx.old stash.old packets.old.items) (driving rx.new tx.new stash.new packets.new.items)) }
{
    admit(gate, Who::Driver(flow), Event::RxBatch)?;
    let taken = receive(rx, from, stash, packets);
    admit(gate, Who::Driver(flow), Event::TxBatch)?;
    let Ok(posted) = tx.tx_batch(to, stash, packets) else {
        unreachable!()
    };
    Ok(Turned { taken, posted })
}

/// Takes a batch, touches each packet that it appended, and returns their number.
#[inline]
fn receive(
    rx: &mut RxDriver,
    from: &RxRing,
    stash: &mut Stash,
    packets: &mut ArrayVec<Packet, MOST_BATCH>,
) -> usize
    requires receives { rx.old.end.table ≡ from.now }
    requires live { is_live (receive.driver_state rx.old.end) ≡ true }
    requires waiting { All (IsTaken from.now.slots) packets.old.items }
    ensures received { Received result rx.old stash.old packets.old.items rx.new stash.new packets.new.items }
    ensures waiting { All (IsTaken from.now.slots) packets.new.items }
    ensures few { result ≤ length packets.new.items }
    ensures fits { length packets.new.items ≤ MOST_BATCH }
{
    let had = packets.len();
    let Ok(taken) = rx.rx_batch(from, stash, packets) else {
        unreachable!()
    };
    touch_from(packets.as_mut_slice(), had);
    let _fits = packets.len(); // which says that the list is no longer than it may be
    taken
}
