//! Starting the driver's side of a flow.
ghost use Rattle.std.specs.Prelude.{◌≡◌, ◌+◌, ◌<◌};
ghost use Rattle.std.specs.Option.{is_some};
ghost use Rattle.counters.specs.Kinds.{none_taken};
ghost use Rattle.pool.specs.Owned.{IsOf};
ghost use Rattle.shared_ring.specs.Calls.{IsFreshDriver};
ghost use Rattle.settings.specs.Configs.{IsLawful};
ghost use Rattle.forwarder.specs.Plans.{most_held};

use crate::flow_rings::FlowRings;
use flows::{CutRule, DriverFlow, FlowSpec, PoolPart};
use pool::{Pool, PoolPass};
use rx_ring::RxDriverEnd;
use settings::Config;
use std::sync::Wait;
use std::sync::atomic::AtomicBool;
use tx_ring::TxDriverEnd;

/// The share of the pool that each flow's pass has.
const SHARE: u32 = 1;

/// How many buffers a flow may hold beyond a full receive ring.
const STASHED: u32 = 255;

/// Starts the driver's side of a flow with this configuration, by the drivers' ends of its rings, which have made no
/// step yet. Splits off a pass with a share of 1 for it, and posts as many of the flow's buffers as fit into its
/// receive ring. Once `stop` is set, the flow is cut.
///
/// [`forward`](crate::forward) starts its flows by this call. A program with other kinds of controllers can use it too.
pub fn start_flow<'a, R: Wait>(
    rt: &R,
    config: &Config,
    number: usize,
    flow_rings: &'a FlowRings,
    ends: (RxDriverEnd, TxDriverEnd),
    pool: &'a Pool,
    pass: &mut PoolPass,
    stop: Option<&'a AtomicBool>,
) -> DriverFlow<'a>
    requires lawful { IsLawful config.now }
    requires from { ends.0.table ≡ flow_rings.now.from }
    requires to { ends.1.table ≡ flow_rings.now.to }
    requires one_length { flow_rings.now.to.slots ≡ flow_rings.now.from.slots }
    requires fresh { IsFreshDriver ends.0 × IsFreshDriver ends.1 }
    requires pool { IsOf pool.now pass.old }
    requires share { 1 < pass.old.hand.share }
    ensures key { result.key ≡ record { number = number; from = flow_rings.entry.now.from; to = flow_rings.entry.now.to; pool = pool.entry.now; share = 1; most = most_held config.now; retries = config.now.retry; turns = config.now.turns; stops = is_some stop.entry } }
    ensures numbers { (result.driving.rx.batch ≡ config.now.batch) × (result.driving.tx.every ≡ config.now.rs_every) }
    ensures counts { result.counts ≡ none_taken }
    ensures pool { IsOf pool.entry.now pass.new }
    ensures share { pass.new.hand.share + 1 ≡ pass.old.hand.share }
    ensures held { pass.new.hand.held ≡ pass.old.hand.held }
{
    let share = config.buffers / (2 * config.pairs);
    let own = pass.split(pool, SHARE);
    let flow_spec = FlowSpec {
        number,
        from: &flow_rings.from,
        to: &flow_rings.to,
        pool,
        part: PoolPart {
            share: SHARE as u64,
            most: share.min(config.ring + STASHED) as usize,
        },
        retry: config.retry,
        cut: CutRule {
            turns: config.turns,
            stop,
        },
    };
    DriverFlow::start(
        rt,
        flow_spec,
        ends,
        own,
        config.batch as usize,
        config.rs_every as u16,
    )
}
