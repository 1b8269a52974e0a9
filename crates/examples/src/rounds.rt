//! A forwarder in a few lines: it sends the packets of a receive queue on a transmit queue.
ghost use Rattle.std.specs.Prelude.{◌≡◌, All};
ghost use Rattle.buffer_pool.specs.Packed.{IsPacket};
ghost use Rattle.buffer_accounting.specs.Lent.{lent, SameNumbers};

use arrayvec::ArrayVec;
use buffer_pool::{Packet, Stash};
use driver::{DriverError, MOST_BATCH, RxDriver, TxDriver};
use rx_ring::RxRing;
use tx_ring::TxRing;

/// Forwards one round. Returns how many packets were posted. Packets without room stay in the list. The drivers, the
/// stash and the list keep the same buffers.
pub fn forward(
    from: &RxRing,
    rx: &mut RxDriver,
    to: &TxRing,
    tx: &mut TxDriver,
    stash: &mut Stash,
    packets: &mut ArrayVec<Packet, MOST_BATCH>,
) -> Result<usize, DriverError>
    requires receives { rx.old.end.table ≡ from.now }
    requires sends { tx.old.end.table ≡ to.now }
    requires whole { All IsPacket packets.old.items }
    ensures receives { rx.new.end.table ≡ from.now }
    ensures sends { tx.new.end.table ≡ to.now }
    ensures whole { All IsPacket packets.new.items }
    ensures moved { SameNumbers (lent rx.old tx.old stash.old packets.old.items) (lent rx.new tx.new stash.new packets.new.items) }
{
    rx.rx_batch(from, stash, packets)?; // empty buffers of the stash were posted in their place
    tx.tx_batch(to, stash, packets) // what was sent came back into the stash
}
