//! Lets the ends of a receive ring and of a transmit ring meet.
ghost use Rattle.std.specs.Prelude.{◌≡◌};
ghost use Rattle.ring_bench.specs.Forwarding.{CanForward, HasMet};

use crate::kit::forwarding::Forwarder;
use rx_ring::{RxControllerEnd, RxDriverEnd, RxRing, meet_rx};
use tx_ring::{TxControllerEnd, TxDriverEnd, TxRing, meet_tx};

/// The ends of a receive ring and of a transmit ring.
#[derive(Drop)]
pub struct Ends {
    pub rx: RxDriverEnd,
    pub rx_controller: RxControllerEnd,
    pub tx: TxDriverEnd,
    pub tx_controller: TxControllerEnd,
}

/// Lets both ends of each ring meet, which makes their ledgers lawful.
pub fn meet(
    from: &RxRing,
    to: &TxRing,
    forwarder: Forwarder,
    mut rx_controller: RxControllerEnd,
    mut tx_controller: TxControllerEnd,
) -> Ends
    requires forwards { CanForward from.now to.now forwarder }
    requires stores { rx_controller.table ≡ from.now }
    requires sends { tx_controller.table ≡ to.now }
    ensures met { HasMet result }
    ensures rx { result.rx ≡ forwarder.rx.end }
    ensures rx_controller { result.rx_controller ≡ rx_controller }
    ensures tx { result.tx ≡ forwarder.tx.end }
    ensures tx_controller { result.tx_controller ≡ tx_controller }
{
    let (mut rx, mut tx) = forwarder.into_ends();
    meet_rx(from, &mut rx, &mut rx_controller);
    meet_tx(to, &mut tx, &mut tx_controller);
    Ends {
        rx,
        rx_controller,
        tx,
        tx_controller,
    }
}
