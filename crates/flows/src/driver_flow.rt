//! The driver's side of a flow.
ghost use Rattle.std.specs.Prelude.{◌≡◌, ◌+◌, ◌<◌, ◌≤◌, ◌↔◌, true, [], length, IsSome, IfSome};
ghost use Rattle.limits.specs.declared.profile.TheConstants.{MOST_BATCH};
ghost use Rattle.limits.specs.declared.profile.TheConstants.{MOST_RS_EVERY};
ghost use Rattle.shared_ring.specs.Calls.{IsFreshDriver};
ghost use Rattle.pool.specs.Owned.{IsOf};
ghost use Rattle.rx_ring.specs.Ends.{posted, published};
ghost use Rattle.counters.specs.Kinds.{none_taken};
ghost use Rattle.flows.specs.declared.phase.Phase.TheVariants.{EnablingTx};
ghost use Rattle.flows.specs.Driven.{HasDriven, is_over};
ghost use Rattle.flows.specs.Holding.{HoldsJust};
ghost use Rattle.flows.specs.Parts.{parts_of};

use crate::concluding::DriverDone;
use crate::flow_drivers::{FlowDrivers, FlowSpec};
use crate::phase::{Phase, Undelivered};
use crate::starting::stock_up;
use arrayvec::ArrayVec;
use buffer_pool::{Packet, Stash};
use counters::Driven;
use driver::{MOST_BATCH, RxDriver, TxDriver};
use forwarding::{Flow, ForwardError, Gate, Progress};
use pool::PoolPass;
use rx_ring::RxDriverEnd;
use std::marker::Model;
use std::sync::Wait;
use tx_ring::TxDriverEnd;

/// The parts of a driver's side. Its pass holds their buffers and those in both rings.
#[derive(Drop)]
pub struct DriverParts {
    /// The driver's end of the receive ring.
    pub rx: RxDriverEnd,
    /// The chain of a frame whose last segment is not taken yet.
    pub chain: Packet,
    /// The driver's end of the transmit ring.
    pub tx: TxDriverEnd,
    /// The empty buffers at hand.
    pub stash: Stash,
    /// The packets that were taken and not posted.
    pub packets: ArrayVec<Packet, MOST_BATCH>,
    /// The pass that holds all buffers of the flow.
    pub pass: PoolPass,
}

/// The driver's side of a flow. It enables both queues, the transmit queue first; takes, touches and posts packets turn
/// by turn until the flow is drained or cut; then disables both queues and returns all buffers to the pool.
#[derive(Drop)]
pub struct DriverFlow<'a> {
    flow_spec: FlowSpec<'a>,
    flow_drivers: FlowDrivers,
    counts: Driven,
    phase: Phase,
}

impl<'a> Model for DriverFlow<'a> {
    ghost use Rattle.flows.specs.Driven.{Relaying, IsRelaying, driving_of};

    ghost Value = { Relaying };

    ghost view = { λ f. record { key = f.flow_spec; pass = f.flow_drivers.pass; driving = driving_of f.flow_drivers; short = f.flow_drivers.short; counts = f.counts; phase = f.phase } };

    ghost invariant = { λ f. IsRelaying (record { key = f.flow_spec; pass = f.flow_drivers.pass; driving = driving_of f.flow_drivers; short = f.flow_drivers.short; counts = f.counts; phase = f.phase }) };
}

impl<'a> DriverFlow<'a> {
    /// Starts a flow: takes up to the spec's `most` buffers from the pool, posts as many as fit into the receive ring, and
    /// publishes them. The ends have made no step yet, their rings have the same length, and the pass has the spec's
    /// share and holds nothing. A batch has up to `batch` packets; each `rs_every`th frame and the last of each batch
    /// ask for a report.
    pub fn start<R: Wait>(
        rt: &R,
        flow_spec: FlowSpec<'a>,
        ends: (RxDriverEnd, TxDriverEnd),
        mut pass: PoolPass,
        batch: usize,
        rs_every: u16,
    ) -> DriverFlow<'a>
        requires from { ends.0.table ≡ flow_spec.from }
        requires to { ends.1.table ≡ flow_spec.to }
        requires one_length { flow_spec.to.slots ≡ flow_spec.from.slots }
        requires fresh { IsFreshDriver ends.0 × IsFreshDriver ends.1 }
        requires pool { IsOf flow_spec.pool pass }
        requires share { pass.hand.share ≡ flow_spec.share }
        requires none { pass.hand.held ≡ [] }
        requires batch { (0 < batch) × (batch ≤ MOST_BATCH) }
        requires rs_every { (0 < rs_every) × (rs_every ≤ MOST_RS_EVERY) }
        ensures key { result.key ≡ flow_spec.entry }
        ensures numbers { (result.driving.rx.batch ≡ batch) × (result.driving.tx.every ≡ rs_every) }
        ensures counts { result.counts ≡ none_taken }
        ensures phase { result.phase ≡ EnablingTx }
        ensures published { published result.driving.rx.end ≡ length (posted result.driving.rx.end) }
    {
        let (mut end, tx) = ends;
        let mut stash = Stash::new();
        let short = stock_up(
            rt,
            flow_spec.pool,
            &mut pass,
            flow_spec.from,
            &mut end,
            &mut stash,
            flow_spec.part.most,
        );
        DriverFlow {
            flow_spec,
            flow_drivers: FlowDrivers {
                rx: RxDriver::new(end, batch),
                tx: TxDriver::new(tx, rs_every),
                stash,
                packets: ArrayVec::new(),
                pass,
                short,
            },
            counts: Driven::default(),
            phase: Phase::EnablingTx,
        }
    }

    /// How many frames were taken, posted and dropped.
    pub fn counts(&self) -> Driven
        ensures value { result ≡ self.now.counts }
        ensures rule { result.posted + result.tx_dropped ≤ result.taken }
    {
        self.counts
    }

    /// Returns both ends and all buffers, at any time.
    pub fn into_parts(self) -> DriverParts
        ensures from { result.rx.table ≡ self.entry.key.from }
        ensures to { result.tx.table ≡ self.entry.key.to }
        ensures pool { IsOf self.entry.key.pool result.pass }
        ensures share { result.pass.hand.share ≡ self.entry.key.share }
        ensures held { HoldsJust result.pass.hand.held (parts_of result) }
    {
        let FlowDrivers {
            rx,
            tx,
            stash,
            packets,
            pass,
            ..
        } = self.flow_drivers;
        let (rx, chain) = rx.into_end();
        DriverParts {
            rx,
            chain,
            tx: tx.into_end(),
            stash,
            packets,
            pass,
        }
    }

    /// Returns both ends and the pass, which holds nothing, if the flow is over; otherwise `None`.
    pub fn into_done(self) -> Option<(DriverDone, PoolPass)>
        ensures some { IsSome result ↔ (is_over self.entry.phase ≡ true) }
        ensures driven { IfSome result (λ d. HasDriven self.entry.key d.0) }
        ensures counts { IfSome result (λ d. d.0.counts ≡ self.entry.counts) }
        ensures pool { IfSome result (λ d. IsOf self.entry.key.pool d.1) }
        ensures share { IfSome result (λ d. d.1.hand.share ≡ self.entry.key.share) }
        ensures none { IfSome result (λ d. d.1.hand.held ≡ []) }
    {
        let DriverFlow {
            flow_drivers,
            counts,
            phase,
            ..
        } = self;
        let Phase::Over(
            Undelivered {
                ended,
                untaken,
                unsent,
            },
        ) = phase
        else {
            return None;
        };
        let FlowDrivers { rx, tx, pass, .. } = flow_drivers;
        let (rx, _) = rx.into_end();
        let done = DriverDone {
            rx,
            tx: tx.into_end(),
            counts,
            untaken,
            unsent,
            ended,
        };
        Some((done, pass))
    }
}

impl<'a> Flow for DriverFlow<'a> {
    ghost use Rattle.counters.specs.Kinds.{driven_words};
    ghost use Rattle.flows.specs.Driven.{is_over};
    ghost use Rattle.flows.specs.Keys.{DriverKey};
    ghost use Rattle.flows.specs.Turns.{DriverTurned};

    ghost Key = { DriverKey };

    ghost key = { λ f. f.key };

    ghost over = { λ f. is_over f.phase };

    ghost numbers = { λ f. driven_words f.counts };

    ghost turned = { λ answers old result new. DriverTurned answers old.key.number old.phase result };

    fn turn<R: Wait, G: Gate>(&mut self, rt: &R, gate: &G) -> Result<Progress, ForwardError> {
        let (was, counts) = (self.phase, self.counts);
        self.phase = self
            .flow_drivers
            .step(rt, gate, &self.flow_spec, &mut self.counts, was)?;
        Ok(if self.phase.is_over() {
            Progress::Over
        } else if self
            .flow_drivers
            .is_small(self.counts.taken.saturating_sub(counts.taken))
        {
            Progress::Few
        } else if self.counts != counts || !self.phase.is_as(was) {
            Progress::Worked
        } else {
            Progress::Idle
        })
    }

    fn is_over(&self) -> bool {
        self.phase.is_over()
    }
}
