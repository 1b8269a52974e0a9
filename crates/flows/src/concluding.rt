//! The meeting of both sides of a flow, once both its queues are disabled.
ghost use Rattle.std.specs.Prelude.{◌≡◌};
ghost use Rattle.flows.specs.Driven.{HasDriven};
ghost use Rattle.flows.specs.Keys.{DriverKey, ControllerKey, plan_of};
ghost use Rattle.flows.specs.Reports.{IsReport};
ghost use Rattle.flows.specs.Served.{HasServed};

use controller::{Tally, Wire};
use counters::Driven;
use forwarding::{Ended, FlowReport};
use rx_ring::{RxControllerEnd, RxDriverEnd, RxRing, meet_rx};
use tx_ring::{TxControllerEnd, TxDriverEnd, TxRing, meet_tx};

/// The driver's side of a flow that is over.
#[derive(Drop)]
pub struct DriverDone {
    /// The driver's end of the receive ring.
    pub rx: RxDriverEnd,
    /// The driver's end of the transmit ring.
    pub tx: TxDriverEnd,
    /// The frames that the driver counted.
    pub counts: Driven,
    /// The segments that were stored and not taken when the disabling was answered.
    pub untaken: u32,
    /// The segments that were posted and not sent when the disabling was answered.
    pub unsent: u32,
    /// How the flow ended.
    pub ended: Ended,
}

/// The controller's side of a flow.
#[derive(Drop)]
pub struct ControllerDone {
    /// The controller's end of the receive ring.
    pub rx: RxControllerEnd,
    /// The controller's end of the transmit ring.
    pub tx: TxControllerEnd,
    /// The outcomes of the offered frames.
    pub tally: Tally,
    /// The bytes of the stored frames.
    pub stored_bytes: u64,
    /// The frames that were sent, if they are kept.
    pub wire: Wire,
    /// The number of frames that were sent.
    pub sent: u64,
    /// The bytes of the sent frames.
    pub sent_bytes: u64,
}

/// Makes the report of a flow from both of its sides.
pub fn conclude(
    from: &RxRing,
    to: &TxRing,
    driver: DriverDone,
    controller: ControllerDone,
) -> FlowReport
    ghost sides: { DriverKey × ControllerKey }
    requires from { (sides.0.from ≡ from.now) × (sides.1.input.from ≡ from.now) }
    requires to { (sides.0.to ≡ to.now) × (sides.1.to ≡ to.now) }
    requires driven { HasDriven sides.0 driver }
    requires served { HasServed sides.1 controller }
    ensures report { IsReport (plan_of sides.0 sides.1) result }
    ensures driven { result.driven ≡ driver.counts }
    ensures offered { result.tally ≡ controller.tally }
{
    let DriverDone {
        mut rx,
        mut tx,
        counts,
        untaken,
        unsent,
        ended,
    } = driver;
    let ControllerDone {
        rx: mut storing,
        tx: mut sending,
        tally,
        stored_bytes,
        wire,
        sent,
        sent_bytes,
    } = controller;
    meet_rx(from, &mut rx, &mut storing);
    meet_tx(to, &mut tx, &mut sending);
    FlowReport {
        tally,
        stored_bytes,
        driven: counts,
        wire,
        sent,
        sent_bytes,
        left: u64::from(untaken) + u64::from(unsent),
        ended,
    }
}
