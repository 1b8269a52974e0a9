//! A turn of a driver's side, phase by phase.
ghost use Rattle.std.specs.Prelude.{◌≡◌, ◌+◌, ◌≤◌, [], length, IfOk, IfErr, OnErr};
ghost use Rattle.teams.specs.Gates.{Met};
ghost use Rattle.teams.specs.Numbers.{NoneFalls};
ghost use Rattle.counters.specs.Kinds.{driven_words};
ghost use Rattle.flows.specs.declared.phase.Phase.TheVariants as phase;
ghost use Rattle.flows.specs.Driven.{GoesTo, IsEquipped, IsRelaying, driving_of, relaying};
ghost use Rattle.flows.specs.Turns.{DriverTurned};

use crate::disabling::{finish_rx, finish_tx};
use crate::flow_drivers::{FlowDrivers, FlowSpec};
use crate::holding::give_stash;
use crate::phase::{Phase, Undelivered};
use counters::Driven;
use driver::{MOST_BATCH, QueueDriver};
use forwarding::{Ended, ForwardError, Gate};
use std::sync::Wait;

impl FlowDrivers {
    /// Makes one turn in this phase and returns the next phase. The phase stays the same if the gate refuses.
    pub(crate) fn step<R: Wait, G: Gate>(
        &mut self,
        rt: &R,
        gate: &G,
        flow_spec: &FlowSpec<'_>,
        counts: &mut Driven,
        at: Phase,
    ) -> Result<Phase, ForwardError>
        requires { IsRelaying (relaying flow_spec.now self.old counts.old at) }
        ensures went { IfOk result (λ next. IsRelaying (relaying flow_spec.now self.new counts.new next)) }
        ensures stayed { OnErr result (IsRelaying (relaying flow_spec.now self.new counts.new at)) }
        ensures none_falls { NoneFalls (driven_words counts.old) (driven_words counts.new) }
        ensures turned { DriverTurned (G.answers gate.now) flow_spec.now.number at result }
        ensures refused { IfErr result (λ e. Met G.answers gate.now e) }
    {
        match at {
            Phase::EnablingTx => Ok(self.enable_tx(flow_spec, *counts)),
            Phase::EnablingRx => Ok(self.enable_rx(flow_spec, *counts)),
            Phase::Forwarding(made) => {
                self.refill(rt, flow_spec);
                self.forward(rt, gate, flow_spec, counts, made)
            }
            Phase::Disabling(ended, untaken, unsent) => {
                Ok(self.finish(flow_spec, *counts, ended, untaken, unsent))
            }
            Phase::Reclaiming(left) => Ok(self.reclaim(rt, flow_spec, *counts, left)),
            Phase::Over(left) => Ok(Phase::Over(left)),
        }
    }

    /// Enables the transmit queue.
    fn enable_tx(&mut self, flow_spec: &FlowSpec<'_>, counts: Driven) -> Phase
        requires { IsRelaying (relaying flow_spec.now self.old counts phase.EnablingTx) }
        ensures { IsRelaying (relaying flow_spec.now self.new counts result) }
    {
        match self.tx.enable(flow_spec.to) {
            Ok(true) => Phase::EnablingRx,
            _ => Phase::EnablingTx,
        }
    }

    /// Enables the receive queue.
    fn enable_rx(&mut self, flow_spec: &FlowSpec<'_>, counts: Driven) -> Phase
        requires { IsRelaying (relaying flow_spec.now self.old counts phase.EnablingRx) }
        ensures { IsRelaying (relaying flow_spec.now self.new counts result) }
    {
        match self.rx.enable(flow_spec.from) {
            Ok(true) => Phase::Forwarding(0),
            _ => Phase::EnablingRx,
        }
    }

    /// Makes a turn for an enabled flow. It loads the quiet word first: if that was set, and then nothing was taken
    /// though there was room, nothing is left to take.
    fn forward<R: Wait, G: Gate>(
        &mut self,
        rt: &R,
        gate: &G,
        flow_spec: &FlowSpec<'_>,
        counts: &mut Driven,
        made: u32,
    ) -> Result<Phase, ForwardError>
        requires { IsRelaying (relaying flow_spec.now self.old counts.old (phase.Forwarding made)) }
        ensures went { IfOk result (λ next. IsRelaying (relaying flow_spec.now self.new counts.new next)) }
        ensures next { IfOk result (λ next. GoesTo flow_spec.now.turns flow_spec.now.stops made next) }
        ensures stayed { OnErr result (IsRelaying (relaying flow_spec.now self.new counts.new (phase.Forwarding made))) }
        ensures none_falls { NoneFalls (driven_words counts.old) (driven_words counts.new) }
        ensures turned { DriverTurned (G.answers gate.now) flow_spec.now.number (phase.Forwarding made) result }
        ensures refused { IfErr result (λ e. Met G.answers gate.now e) }
    {
        let quiet = self.rx.is_quiet(flow_spec.from);
        let room = self.packets.len() < MOST_BATCH;
        let turned = self.relay(rt, gate, flow_spec, counts)?;
        if quiet && room && turned.taken == 0 && self.is_clean() {
            self.close(flow_spec);
            return Ok(Phase::Disabling(Ended::Drained, None, None));
        }
        if flow_spec.cut.is_last(made) {
            self.close(flow_spec);
            return Ok(Phase::Disabling(Ended::Cut, None, None));
        }
        if flow_spec.cut.turns == 0 {
            return Ok(Phase::Forwarding(made));
        }
        Ok(Phase::Forwarding(made + 1))
    }

    /// Waits for the answers to both disablings.
    fn finish(
        &mut self,
        flow_spec: &FlowSpec<'_>,
        counts: Driven,
        ended: Ended,
        untaken: Option<u32>,
        unsent: Option<u32>,
    ) -> Phase
        requires { IsRelaying (relaying flow_spec.now self.old counts (phase.Disabling ended untaken unsent)) }
        ensures { IsRelaying (relaying flow_spec.now self.new counts result) }
    {
        let untaken = finish_rx(&mut self.rx, flow_spec.from, untaken);
        let unsent = finish_tx(&mut self.tx, flow_spec.to, unsent);
        match (untaken, unsent) {
            (Some(untaken), Some(unsent)) => Phase::Reclaiming(Undelivered {
                ended,
                untaken,
                unsent,
            }),
            (untaken, unsent) => Phase::Disabling(ended, untaken, unsent),
        }
    }

    /// Returns the packets that wait and the stash to the pool, and moves buffers of both queues into the stash. If
    /// that reclaims all of them, returns these too.
    fn reclaim<R: Wait>(
        &mut self,
        rt: &R,
        flow_spec: &FlowSpec<'_>,
        counts: Driven,
        left: Undelivered,
    ) -> Phase
        requires { IsRelaying (relaying flow_spec.now self.old counts (phase.Reclaiming left)) }
        ensures { IsRelaying (relaying flow_spec.now self.new counts result) }
    {
        self.give_at_hand(rt, flow_spec);
        if self
            .rx
            .reclaim_into(flow_spec.from, &mut self.stash)
            .is_err()
        {
            return Phase::Reclaiming(left);
        }
        if self.tx.reclaim_into(flow_spec.to, &mut self.stash).is_err() {
            return Phase::Reclaiming(left);
        }
        self.give_at_hand(rt, flow_spec);
        Phase::Over(left)
    }

    /// Returns the packets that wait and the stash to the pool.
    fn give_at_hand<R: Wait>(&mut self, rt: &R, flow_spec: &FlowSpec<'_>)
        requires equipped { IsEquipped flow_spec.now self.old.pass (driving_of self.old) }
        requires few { length self.old.pass.hand.held + self.old.short ≤ flow_spec.now.most }
        ensures equipped { IsEquipped flow_spec.now self.new.pass (driving_of self.new) }
        ensures none { (self.new.stash ≡ []) × (self.new.packets.items ≡ []) }
        ensures held { length self.new.pass.hand.held + self.new.short ≤ length self.old.pass.hand.held + self.old.short }
        ensures drivers { (self.new.rx ≡ self.old.rx) × (self.new.tx ≡ self.old.tx) }
    {
        self.drop_waiting(rt, flow_spec);
        give_stash(rt, flow_spec.pool, &mut self.pass, &mut self.stash);
    }
}
