//! Both drivers of a flow, with the packets that wait between them.
ghost use Rattle.std.specs.Prelude.{◌≡◌, ◌≤◌, ◌&&◌, true, false, [], All, length, IfErr, IfOk, OnErr, OnOk};
ghost use Rattle.limits.specs.declared.profile.TheConstants.{MOST_BATCH};
ghost use Rattle.refusals.specs.declared.errors.DriverError.TheVariants.{NotReclaimed};
ghost use Rattle.ring_model.specs.shared.Handshakes.{is_live, is_on, is_open};
ghost use Rattle.rx_ring.specs.Ends as receive;
ghost use Rattle.tx_ring.specs.Ends as transmit;
ghost use Rattle.driver.specs.Handshake.{AskedEnabling};
ghost use Rattle.driver.specs.receive.Chains.{IsTaken};
ghost use Rattle.teams.specs.Gates.{MayRefuse};
ghost use Rattle.teams.specs.declared.gate.Who.TheVariants as who;
ghost use Rattle.forwarding.specs.Driving.{BothAllowed, CanDrive, Counted, Drove, HeldBack, Moved, OneRefused, driving};

use crate::turning::{Turned, drive};
use arrayvec::ArrayVec;
use buffer_pool::{Packet, Stash};
use driver::{MOST_BATCH, QueueDriver, RxDriver, TxDriver};
use refusals::{DriverError, ForwardError};
use rx_ring::RxRing;
use std::marker::Model;
use teams::Gate;
use tx_ring::TxRing;

/// Both drivers of a flow, the empty buffers at hand, and the packets that were taken and wait. Each call takes the rings
/// for which the drivers' ends were made.
///
/// Contracts see all four. The rings have the same length, and each packet that waits fits them.
#[derive(Drop)]
pub struct Relay {
    rx: RxDriver,
    tx: TxDriver,
    stash: Stash,
    packets: ArrayVec<Packet, MOST_BATCH>,
}

/// The parts of a [`Relay`].
#[derive(Drop)]
pub struct RelayParts {
    /// The driver of the receive queue.
    pub rx: RxDriver,
    /// The driver of the transmit queue.
    pub tx: TxDriver,
    /// The empty buffers at hand.
    pub stash: Stash,
    /// The packets that were taken and not posted.
    pub packets: ArrayVec<Packet, MOST_BATCH>,
}

impl Model for Relay {
    ghost use Rattle.forwarding.specs.Driving.{Driving, driving};
    ghost use Rattle.forwarding.specs.Relaying.{IsRelay};

    ghost Value = { Driving };

    ghost view = { λ r. driving r.rx r.tx r.stash r.packets.items };

    ghost invariant = { λ r. IsRelay (driving r.rx r.tx r.stash r.packets.items) };
}

impl Relay {
    /// Joins two drivers, whose rings have the same length. No packet waits yet.
    pub fn new(rx: RxDriver, tx: TxDriver, stash: Stash) -> Relay
        requires one_length { tx.end.table.slots ≡ rx.end.table.slots }
        ensures { result ≡ driving rx tx stash [] }
    {
        Relay {
            rx,
            tx,
            stash,
            packets: ArrayVec::new(),
        }
    }

    /// Whether both queues were seen enabled, and neither disabling was seen answered: then a turn is possible.
    #[inline]
    pub fn is_live(&self) -> bool
        ensures { result ≡ (is_live (receive.driver_state self.now.rx.end) && is_live (transmit.driver_state self.now.tx.end)) }
    {
        self.rx.is_live() && self.tx.is_live()
    }

    /// How many packets wait.
    #[inline]
    pub fn waiting(&self) -> usize
        ensures { result ≡ length self.now.packets }
    {
        self.packets.len()
    }

    /// Asks for the transmit queue to be enabled, and then, once that was seen enabled, for the receive queue. Returns
    /// whether both were seen enabled.
    ///
    /// Returns `NotReclaimed` if a queue was seen disabled and is not renewed.
    pub fn enable(&mut self, from: &RxRing, to: &TxRing) -> Result<bool, DriverError>
        requires receives { self.old.rx.end.table ≡ from.now }
        requires sends { self.old.tx.end.table ≡ to.now }
        ensures receives { self.new.rx.end.table ≡ from.now }
        ensures sends { self.new.tx.end.table ≡ to.now }
        ensures told { IfOk result (λ enabled. enabled ≡ (is_on (transmit.driver_state self.new.tx.end) && is_on (receive.driver_state self.new.rx.end))) }
        ensures tx_asked { is_open (transmit.driver_state self.old.tx.end) ≡ true → AskedEnabling self.old.tx.end self.new.tx.end }
        ensures rx_asked { OnOk result (is_on (transmit.driver_state self.new.tx.end) ≡ true → is_open (receive.driver_state self.old.rx.end) ≡ true → AskedEnabling self.old.rx.end self.new.rx.end) }
        ensures rx_waits { OnOk result (is_on (transmit.driver_state self.new.tx.end) ≡ false → self.new.rx ≡ self.old.rx) }
        ensures refusal { IfErr result (λ e. e ≡ NotReclaimed) }
        ensures rest { (self.new.stash ≡ self.old.stash) × (self.new.packets ≡ self.old.packets) }
    {
        Ok(self.tx.enable(to)? && self.rx.enable(from)?)
    }

    /// Makes a turn of [`drive`] for this flow. Both queues must be live.
    ///
    /// Returns `Gate` if the gate returned false before either batch; the packets taken so far then wait, touched.
    #[inline]
    pub fn turn<G: Gate>(
        &mut self,
        from: &RxRing,
        to: &TxRing,
        flow: usize,
        gate: &G,
    ) -> Result<Turned, ForwardError>
        requires receives { self.old.rx.end.table ≡ from.now }
        requires sends { self.old.tx.end.table ≡ to.now }
        requires rx_live { is_live (receive.driver_state self.old.rx.end) ≡ true }
        requires tx_live { is_live (transmit.driver_state self.old.tx.end) ≡ true }
        ensures can { CanDrive from.now to.now self.new }
        ensures moved { Moved self.old self.new }
        ensures steps { IfOk result (λ t. Drove t.taken t.posted self.old self.new) }
        ensures counted { IfOk result (λ t. Counted t.taken t.posted self.old self.new) }
        ensures few { IfOk result (λ t. (t.taken ≤ MOST_BATCH) × (t.posted ≤ MOST_BATCH)) }
        ensures allowed { OnOk result (BothAllowed G.answers gate.now flow) }
        ensures one_refused { OnErr result (OneRefused G.answers gate.now flow) }
        ensures refusal { IfErr result (λ e. (e ≡ ForwardError.Gate) × MayRefuse G.answers gate.now (who.Driver flow)) }
        ensures refused { OnErr result (HeldBack self.old self.new) }
    {
        drive(
            &mut self.rx,
            &mut self.tx,
            from,
            to,
            &mut self.stash,
            &mut self.packets,
            flow,
            gate,
        )
    }

    /// Returns all parts, at any time: to disable the queues, and to take the buffers back.
    pub fn into_parts(self) -> RelayParts
        ensures parts { driving result.rx result.tx result.stash result.packets.items ≡ self }
        ensures waiting { All (IsTaken result.rx.end.table.slots) result.packets.items }
    {
        RelayParts {
            rx: self.rx,
            tx: self.tx,
            stash: self.stash,
            packets: self.packets,
        }
    }
}
