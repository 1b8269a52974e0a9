//! Both sides of a flow: the driver's side of the forwarder, and a controller's side that offers a few frames again and
//! again.
ghost use Rattle.std.specs.Prelude.{◌≡◌, ℕ, ◌+◌, ◌<◌, length, vec_len, slice_index_or};
ghost use Rattle.pool.specs.Owned.{IsOf};
ghost use Rattle.settings.specs.Configs.{IsLawful};
ghost use Rattle.forwarder.specs.Rings.{AreEnds};

use crate::hot_flow::HotFlow;
use crate::pace::Pace;
use crate::workload::Workload;
use anyhow::Result;
use flows::DriverFlow;
use forwarder::{Config, FlowRingEnds, FlowRings, start_flow};
use pool::{Pool, PoolPass};
use std::alloc::Global;
use std::sync::Wait;

/// The frames that are offered to a flow: these again and again, `count` in all, at this pace.
#[derive(Drop)]
struct Feed<'a> {
    frames: &'a [Vec<u8>],
    count: u64,
    pace: Option<Pace>,
}

/// Makes both sides of a flow, the driver's first. Splits off a pass for the driver's side.
fn make_side<'a, R: Wait>(
    rt: &R,
    alloc: Global,
    config: &Config,
    number: usize,
    feed: Feed<'a>,
    rings: &'a FlowRings,
    ends: FlowRingEnds,
    pool: &'a Pool,
    pass: &mut PoolPass,
) -> (DriverFlow<'a>, HotFlow<'a>)
    requires lawful { IsLawful config.now }
    requires ends { AreEnds config.now.ring config.now.completion rings.now ends }
    requires pool { IsOf pool.now pass.old }
    requires share { 1 < pass.old.hand.share }
    ensures pool { IsOf pool.entry.now pass.new }
    ensures share { pass.new.hand.share + 1 ≡ pass.old.hand.share }
{
    let takes = (ends.takes, ends.posts);
    let driver = start_flow(rt, config, number, rings, takes, pool, pass, None);
    let controller = HotFlow::new(
        alloc,
        (&rings.from, &rings.to),
        (ends.stores, ends.sends),
        feed.frames,
        feed.count,
        feed.pace,
    );
    (driver, controller)
}

/// Makes both sides of each flow. The first flow has this pace. Splits off a pass for each driver.
pub(crate) fn make_sides<'a, R: Wait>(
    rt: &R,
    alloc: Global,
    workload: &Workload,
    config: &Config,
    frames: &'a [Vec<u8>],
    mut pace: Option<Pace>,
    flow_rings: &'a [FlowRings],
    ends: Vec<FlowRingEnds>,
    pool: &'a Pool,
    pass: &mut PoolPass,
) -> Result<Sides<'a>>
    requires lawful { IsLawful config.now }
    requires flows { vec_len ends ≡ length flow_rings.now }
    requires ends { (k : ℕ) (d : _) (e : _) → k < length flow_rings.now → AreEnds config.now.ring config.now.completion (slice_index_or flow_rings.now k d) (slice_index_or ends.items k e) }
    requires pool { IsOf pool.now pass.old }
    requires share { length flow_rings.now < pass.old.hand.share }
{
    let mut drivers = Vec::with_capacity(alloc, flow_rings.len())?;
    let mut controllers = Vec::with_capacity(alloc, flow_rings.len())?;
    let mut number = 0;
    for own in ends {
        let count = workload.frames_of(number);
        let pace = pace.take();
        let feed = Feed {
            frames,
            count,
            pace,
        };
        let rings = &flow_rings[number];
        let (driver, controller) = make_side(
            rt, alloc, config, number, feed, rings, own, pool, pass,
        );
        drivers.push_reserved(driver);
        controllers.push_reserved(controller);
        number += 1;
    }
    Ok(Sides {
        drivers,
        controllers,
    })
}

/// Both sides of all flows, in the order of the flows.
#[derive(Drop)]
pub(crate) struct Sides<'a> {
    pub drivers: Vec<DriverFlow<'a>>,
    pub controllers: Vec<HotFlow<'a>>,
}
