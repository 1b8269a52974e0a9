//! The rings of all flows.
ghost use Rattle.std.specs.Prelude.{◌≡◌, ℕ, ◌*◌, ◌<◌, IfOk, IfErr, vec_len, slice_index_or};
ghost use Rattle.limits.specs.RingLength.{IsRingLength};
ghost use Rattle.limits.specs.declared.profile.TheConstants.{PORTS};
ghost use Rattle.refusals.specs.declared.errors.ForwardError.TheVariants.{Memory};
ghost use Rattle.settings.specs.Configs.{HasLawfulQueues};
ghost use Rattle.forwarder.specs.Rings.{AreEnds};

use forwarding::ForwardError;
use limits::PORTS;
use rx_ring::{RxControllerEnd, RxDriverEnd, RxRing};
use settings::Config;
use std::alloc::Global;
use tx_ring::{Completion, TxControllerEnd, TxDriverEnd, TxRing};

/// The two rings of a flow.
#[derive(Drop)]
pub struct FlowRings {
    /// The receive ring, by which frames arrive.
    pub from: RxRing,
    /// The transmit ring, by which frames leave.
    pub to: TxRing,
}

/// The ends of a flow's two rings.
#[derive(Drop)]
pub struct FlowRingEnds {
    /// The driver's end of the receive ring.
    pub takes: RxDriverEnd,
    /// The controller's end of the receive ring.
    pub stores: RxControllerEnd,
    /// The driver's end of the transmit ring.
    pub posts: TxDriverEnd,
    /// The controller's end of the transmit ring.
    pub sends: TxControllerEnd,
}

/// The two rings of one flow, with their ends.
fn make_flow_rings(
    alloc: Global,
    n: u32,
    completion: Completion,
) -> Result<(FlowRings, FlowRingEnds), ForwardError>
    requires { IsRingLength n }
    ensures refused { IfErr result (λ e. e ≡ Memory) }
    ensures made { IfOk result (λ r. AreEnds n completion r.0 r.1) }
{
    let Ok((from, takes, stores)) = RxRing::new(alloc, n) else {
        return Err(ForwardError::Memory);
    };
    let Ok((to, posts, sends)) = TxRing::new_with(alloc, n, completion) else {
        return Err(ForwardError::Memory);
    };
    let ends = FlowRingEnds {
        takes,
        stores,
        posts,
        sends,
    };
    Ok((FlowRings { from, to }, ends))
}

/// The rings of all flows, and their ends, in the order of the flows: for each flow its receive ring and the other
/// port's transmit ring of the same queue, both of `config.ring` descriptors and not enabled. Returns only `Memory`.
///
/// [`forward`](crate::forward) makes its rings by this call. A program with other kinds of flows, such as a benchmark
/// that generates its frames, uses it and gives both ends of each ring to them.
pub fn make_rings(
    alloc: Global,
    config: &Config,
) -> Result<(Vec<FlowRings>, Vec<FlowRingEnds>), ForwardError>
    requires { HasLawfulQueues config.now }
    ensures refused { IfErr result (λ e. e ≡ Memory) }
    ensures flows { IfOk result (λ r. (vec_len r.0 ≡ PORTS * config.now.pairs) × (vec_len r.1 ≡ PORTS * config.now.pairs)) }
    ensures made { IfOk result (λ r. (k : ℕ) (d : _) (e : _) → k < PORTS * config.now.pairs → AreEnds config.now.ring config.now.completion (slice_index_or r.0.items k d) (slice_index_or r.1.items k e)) }
{
    let flows = PORTS * config.pairs as usize;
    let mut rings = Vec::with_capacity(alloc, flows)?;
    let mut ends = Vec::with_capacity(alloc, flows)?;
    for _ in 0..flows {
        let (flow_rings, own) = make_flow_rings(alloc, config.ring, config.completion)?;
        rings.push_reserved(flow_rings);
        ends.push_reserved(own);
    }
    Ok((rings, ends))
}
