//! Both sides of all flows.
ghost use Rattle.std.specs.Prelude.{◌≡◌, ◌+◌, ◌*◌, ◌<◌, All, IfOk, IfErr, MatchResult, map, vec_len};
ghost use Rattle.std.specs.Option.{is_some};
ghost use Rattle.counters.specs.Kinds.{none_taken, nothing};
ghost use Rattle.limits.specs.declared.profile.TheConstants.{MOST_PAIRS, PORTS};
ghost use Rattle.refusals.specs.declared.errors.ForwardError.TheVariants.{Memory};
ghost use Rattle.pool.specs.Owned.{IsOf};
ghost use Rattle.settings.specs.Configs.{IsLawful};
ghost use Rattle.forwarder.specs.Flows.{places_of};
ghost use Rattle.forwarder.specs.Rings.{AreEnds, AreReady};
ghost use Rattle.forwarder.specs.Plans.{AreSides, AreAllSides, plan_with};

use crate::flow_rings::{FlowRingEnds, FlowRings};
use crate::index::Index;
use crate::starting::start_flow;
use flows::{ControllerFlow, DriverFlow, FlowFrames};
use forwarding::ForwardError;
use pool::{Pool, PoolPass};
use settings::Config;
use std::alloc::Global;
use std::sync::Wait;
use std::sync::atomic::AtomicBool;
use wire_script::Script;

/// Both sides of one flow.
#[derive(Drop)]
struct FlowSides<'a> {
    driver: DriverFlow<'a>,
    controller: ControllerFlow<'a>,
}

/// Both sides of all flows, in the order of the flows.
#[derive(Drop)]
pub(crate) struct Sides<'a> {
    pub drivers: Vec<DriverFlow<'a>>,
    pub controllers: Vec<ControllerFlow<'a>>,
}

/// Makes both sides of a flow. Splits off a pass for the driver's side.
fn make_side<'a, R: Wait>(
    rt: &R,
    alloc: Global,
    config: &Config,
    number: usize,
    script: &'a Script,
    places: &'a [u32],
    flow_rings: &'a FlowRings,
    ends: FlowRingEnds,
    pool: &'a Pool,
    pass: &mut PoolPass,
    stop: Option<&'a AtomicBool>,
) -> FlowSides<'a>
    requires lawful { IsLawful config.now }
    requires places { places.now ≡ places_of config.now.pairs number script.now }
    requires ends { AreEnds config.now.ring config.now.completion flow_rings.now ends }
    requires pool { IsOf pool.now pass.old }
    requires share { 1 < pass.old.hand.share }
    ensures sides { AreSides (plan_with (is_some stop.entry) config.now script.entry.now number) pool.entry.now flow_rings.entry.now result.driver.key result.controller.key }
    ensures counts { result.driver.counts ≡ none_taken }
    ensures tally { result.controller.tally ≡ nothing }
    ensures pool { IsOf pool.entry.now pass.new }
    ensures share { pass.new.hand.share + 1 ≡ pass.old.hand.share }
    ensures held { pass.new.hand.held ≡ pass.old.hand.held }
{
    let takes = (ends.takes, ends.posts);
    let driver = start_flow(rt, config, number, flow_rings, takes, pool, pass, stop);
    let controller = ControllerFlow::new(
        alloc,
        number,
        (&flow_rings.from, &flow_rings.to),
        (ends.stores, ends.sends),
        FlowFrames::new(script.frames(), places, config.repeat),
        config.bsize as usize,
        config.drop_en,
        config.keep,
    );
    FlowSides { driver, controller }
}

/// Makes both sides of each flow.
pub(crate) fn make_sides<'a, R: Wait>(
    rt: &R,
    alloc: Global,
    config: &Config,
    script: &'a Script,
    index: &'a Index,
    rings: &'a [FlowRings],
    ends: Vec<FlowRingEnds>,
    pool: &'a Pool,
    pass: &mut PoolPass,
    stop: Option<&'a AtomicBool>,
) -> Result<Sides<'a>, ForwardError>
    requires lawful { IsLawful config.now }
    requires ready { AreReady config.now script.now index.now rings.now ends.items }
    requires pool { IsOf pool.now pass.old }
    requires share { PORTS * MOST_PAIRS < pass.old.hand.share }
    ensures refused { IfErr result (λ e. e ≡ Memory) }
    ensures flows { IfOk result (λ s. (vec_len s.drivers ≡ PORTS * config.now.pairs) × (vec_len s.controllers ≡ PORTS * config.now.pairs)) }
    ensures sides { IfOk result (λ s. AreAllSides (plan_with (is_some stop.entry) config.now script.entry.now) pool.entry.now (PORTS * config.now.pairs) rings.entry.now (map (λ f. f.key) s.drivers.items) (map (λ f. f.key) s.controllers.items)) }
    ensures counts { IfOk result (λ s. All (λ f. f.counts ≡ none_taken) s.drivers.items) }
    ensures tallies { IfOk result (λ s. All (λ f. f.tally ≡ nothing) s.controllers.items) }
    ensures pool { IsOf pool.entry.now pass.new }
    ensures share { MatchResult result (λ _. pass.new.hand.share + PORTS * config.now.pairs ≡ pass.old.hand.share) (λ _. pass.new.hand.share ≡ pass.old.hand.share) }
    ensures held { pass.new.hand.held ≡ pass.old.hand.held }
{
    let mut drivers = Vec::with_capacity(alloc, rings.len())?;
    let mut controllers = Vec::with_capacity(alloc, rings.len())?;
    let mut number = 0;
    for own in ends {
        let places = index.places(number);
        let side = make_side(
            rt,
            alloc,
            config,
            number,
            script,
            places,
            &rings[number],
            own,
            pool,
            pass,
            stop,
        );
        drivers.push_reserved(side.driver);
        controllers.push_reserved(side.controller);
        number += 1;
    }
    Ok(Sides {
        drivers,
        controllers,
    })
}
