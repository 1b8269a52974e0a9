//! Both drivers of a flow, with the buffers that it holds.
ghost use Rattle.std.specs.Prelude.{◌≡◌, ◌+◌, ◌<◌, ◌≤◌, true, [], length, map, IfOk, IfErr, OnErr, OnOk};
ghost use Rattle.ring_model.specs.declared.states.DriverState.TheVariants.{Stopping};
ghost use Rattle.buffer_pool.specs.Packed.{bytes_of};
ghost use Rattle.limits.specs.declared.profile.TheConstants.{MOST_BATCH};
ghost use Rattle.ring_model.specs.shared.Handshakes.{is_on};
ghost use Rattle.rx_ring.specs.Ends as receive;
ghost use Rattle.tx_ring.specs.Ends as transmit;
ghost use Rattle.refusals.specs.declared.errors.ForwardError.TheVariants.{Gate as GateRefused};
ghost use Rattle.teams.specs.declared.gate.Who.TheVariants as who;
ghost use Rattle.teams.specs.Gates.{MayRefuse};
ghost use Rattle.teams.specs.Numbers.{NoneFalls};
ghost use Rattle.forwarding.specs.Driving.{BothAllowed, OneRefused};
ghost use Rattle.counters.specs.Kinds.{driven_words};
ghost use Rattle.flows.specs.Driven.{IsEquipped, KnowsAsBefore, Relayed, RxAsBefore, TxAsBefore, driving_of};

use crate::cut_rule::CutRule;
use crate::holding::drop_packets;
use arrayvec::ArrayVec;
use buffer_pool::{Packet, Stash};
use counters::Driven;
use driver::{MOST_BATCH, QueueDriver, RxDriver, TxDriver};
use forwarding::{ForwardError, Gate, Turned, drive};
use pool::{Pool, PoolPass};
use rx_ring::RxRing;
use std::marker::Model;
use std::sync::Wait;
use tx_ring::TxRing;

/// The part of a pool that a flow may use.
#[derive(Clone, Copy)]
pub struct PoolPart {
    /// The share of the pool that the flow's pass has.
    pub share: u64,
    /// The greatest number of buffers that the flow holds.
    pub most: usize,
}

/// What a driver's side serves, and how.
#[derive(Drop)]
pub struct FlowSpec<'a> {
    /// The number of the flow.
    pub number: usize,
    /// The receive ring.
    pub from: &'a RxRing,
    /// The transmit ring.
    pub to: &'a TxRing,
    /// The pool of the buffers.
    pub pool: &'a Pool,
    /// The part of the pool that the flow may use.
    pub part: PoolPart,
    /// Whether packets that find no room wait; otherwise they are dropped.
    pub retry: bool,
    /// When the flow is cut.
    pub cut: CutRule<'a>,
}

impl<'a> Model for FlowSpec<'a> {
    ghost use Rattle.std.specs.Option.{is_some};
    ghost use Rattle.flows.specs.Keys.{DriverKey};

    ghost Value = { DriverKey };

    ghost view = { λ t. record { number = t.number; from = t.from.now; to = t.to.now; pool = t.pool.now; share = t.part.share; most = t.part.most; retries = t.retry; turns = t.cut.turns; stops = is_some t.cut.stop } };
}

/// Both drivers, the stash, the packets that wait, and the pass that holds all their buffers.
#[derive(Drop)]
pub(crate) struct FlowDrivers {
    pub rx: RxDriver,
    pub tx: TxDriver,
    pub stash: Stash,
    pub packets: ArrayVec<Packet, MOST_BATCH>,
    pub pass: PoolPass,
    /// How many more buffers it may take from the pool.
    pub short: usize,
}

impl FlowDrivers {
    /// Takes a batch, touches it, and posts the packets that wait. Drops those that remain unless they are kept, and
    /// counts all of these.
    pub(crate) fn relay<R: Wait, G: Gate>(
        &mut self,
        rt: &R,
        gate: &G,
        flow_spec: &FlowSpec<'_>,
        counts: &mut Driven,
    ) -> Result<Turned, ForwardError>
        requires equipped { IsEquipped flow_spec.now self.old.pass (driving_of self.old) }
        requires few { length self.old.pass.hand.held + self.old.short ≤ flow_spec.now.most }
        requires rx { is_on (receive.driver_state self.old.rx.end) ≡ true }
        requires tx { is_on (transmit.driver_state self.old.tx.end) ≡ true }
        requires relayed { Relayed flow_spec.now.retries self.old.rx.end self.old.tx.end counts.old (map bytes_of self.old.packets.items) }
        ensures equipped { IsEquipped flow_spec.now self.new.pass (driving_of self.new) }
        ensures rx { is_on (receive.driver_state self.new.rx.end) ≡ true }
        ensures tx { is_on (transmit.driver_state self.new.tx.end) ≡ true }
        ensures relayed { Relayed flow_spec.now.retries self.new.rx.end self.new.tx.end counts.new (map bytes_of self.new.packets.items) }
        ensures held { length self.new.pass.hand.held + self.new.short ≡ length self.old.pass.hand.held + self.old.short }
        ensures none_falls { NoneFalls (driven_words counts.old) (driven_words counts.new) }
        ensures quiet { receive.saw_quiet self.new.rx.end ≡ receive.saw_quiet self.old.rx.end }
        ensures drained { IfOk result (λ t. receive.saw_quiet self.old.rx.end ≡ true → t.taken ≡ 0 → length self.old.packets.items < MOST_BATCH → receive.is_drained self.new.rx.end ≡ true) }
        ensures allowed { OnOk result (BothAllowed G.answers gate.now flow_spec.now.number) }
        ensures one_refused { OnErr result (OneRefused G.answers gate.now flow_spec.now.number) }
        ensures refusal { IfErr result (λ e. (e ≡ GateRefused) × MayRefuse G.answers gate.now (who.Driver flow_spec.now.number)) }
    {
        let had = self.packets.len();
        let _batch = self.rx.batch(); // which says that it isn't 0
        let turned = match drive(
            &mut self.rx,
            &mut self.tx,
            flow_spec.from,
            flow_spec.to,
            &mut self.stash,
            &mut self.packets,
            flow_spec.number,
            gate,
        ) {
            Ok(turned) => turned,
            Err(e) => {
                *counts = counts.counted(self.packets.len().saturating_sub(had), 0, 0);
                return Err(e);
            }
        };
        if flow_spec.retry {
            *counts = counts.counted(turned.taken, turned.posted, 0);
            return Ok(turned);
        }
        let dropped = self.drop_waiting(rt, flow_spec);
        *counts = counts.counted(turned.taken, turned.posted, dropped);
        Ok(turned)
    }

    /// Drops the packets that wait, and returns their number. Their buffers go to the stash, and to the pool once it is
    /// full.
    pub(crate) fn drop_waiting<R: Wait>(&mut self, rt: &R, flow_spec: &FlowSpec<'_>) -> usize
        requires equipped { IsEquipped flow_spec.now self.old.pass (driving_of self.old) }
        requires few { length self.old.pass.hand.held + self.old.short ≤ flow_spec.now.most }
        ensures equipped { IsEquipped flow_spec.now self.new.pass (driving_of self.new) }
        ensures count { result ≡ length self.old.packets.items }
        ensures few { result ≤ MOST_BATCH }
        ensures none { self.new.packets.items ≡ [] }
        ensures held { length self.new.pass.hand.held + self.new.short ≡ length self.old.pass.hand.held + self.old.short }
        ensures drivers { (self.new.rx ≡ self.old.rx) × (self.new.tx ≡ self.old.tx) }
    {
        let _most = flow_spec.part.most; // which says that it fits its type
        drop_packets(
            rt,
            flow_spec.pool,
            &mut self.pass,
            &mut self.stash,
            &mut self.packets,
            &mut self.short,
        )
    }

    /// Takes buffers from the pool to replace those that went back to it, as far as the stash has room.
    pub(crate) fn refill<R: Wait>(&mut self, rt: &R, flow_spec: &FlowSpec<'_>)
        requires { IsEquipped flow_spec.now self.old.pass (driving_of self.old) }
        ensures equipped { IsEquipped flow_spec.now self.new.pass (driving_of self.new) }
        ensures held { length self.new.pass.hand.held + self.new.short ≡ length self.old.pass.hand.held + self.old.short }
        ensures rest { (self.new.rx ≡ self.old.rx) × (self.new.tx ≡ self.old.tx) × (self.new.packets ≡ self.old.packets) }
    {
        if self.short > 0 {
            let pass = &mut self.pass;
            self.short -= flow_spec.pool.refill(rt, pass, &mut self.stash, self.short);
        }
    }

    /// Whether no chain and no packet waits, and all that was posted is cleaned.
    pub(crate) fn is_clean(&self) -> bool
        requires { is_on (transmit.driver_state self.now.tx.end) ≡ true }
        ensures packets { result ≡ true → self.now.packets.items ≡ [] }
        ensures cleaned { result ≡ true → length (transmit.posted self.now.tx.end) ≤ length (transmit.cleaned self.now.tx.end) }
    {
        !self.rx.has_chain() && self.packets.is_empty() && self.tx.room() == self.tx.size() - 1
    }

    /// Whether a batch of this many frames leaves room for many more: it isn't empty, but smaller than a batch may be and
    /// than a sixteenth of the ring.
    pub(crate) fn is_small(&self, taken: u64) -> bool {
        0 < taken && taken < self.rx.batch().min(self.tx.size() as usize / 16) as u64
    }

    /// Asks for the disabling of both queues.
    pub(crate) fn close(&mut self, flow_spec: &FlowSpec<'_>)
        requires from { self.old.rx.end.table ≡ flow_spec.now.from }
        requires to { self.old.tx.end.table ≡ flow_spec.now.to }
        requires rx { is_on (receive.driver_state self.old.rx.end) ≡ true }
        requires tx { is_on (transmit.driver_state self.old.tx.end) ≡ true }
        ensures rx { RxAsBefore self.old.rx self.new.rx }
        ensures known { KnowsAsBefore self.old.rx self.new.rx }
        ensures tx { TxAsBefore self.old.tx self.new.tx }
        ensures stopping { (receive.driver_state self.new.rx.end ≡ Stopping) × (transmit.driver_state self.new.tx.end ≡ Stopping) }
        ensures rest { self.new ≡ record self.old { rx = self.new.rx; tx = self.new.tx } }
    {
        let (Ok(()), Ok(())) = (
            self.rx.ask_disable(flow_spec.from),
            self.tx.ask_disable(flow_spec.to),
        ) else {
            unreachable!()
        };
    }
}
