//! The frames of a script, flow by flow.
ghost use Rattle.std.specs.Prelude.{◌≡◌, ℕ, ◌*◌, ◌<◌, ◌≤◌, [], All, IfOk, length, vec_len, slice_index_or};
ghost use Rattle.limits.specs.declared.profile.TheConstants.{MOST_PAIRS, PORTS};
ghost use Rattle.forwarder.specs.Flows.{flow_of, places_of};

use limits::PORTS;
use std::alloc::{AllocError, Global};
use std::marker::Model;
use wire_script::{Script, WireFrame};

/// For each flow the places of its frames in the script, in their order. A place takes 4 bytes, and the lists grow by
/// doubling. Flow `f` receives at port `f / pairs`, queue `f % pairs`.
#[derive(Drop)]
pub struct Index {
    flows: Vec<Vec<u32>>,
}

impl Model for Index {
    ghost use Rattle.std.specs.Prelude.{ℕ, List, map};

    ghost Value = { List (List ℕ) };

    ghost view = { λ x. map (λ v. v.items) x.flows.items };
}

/// The flow of a frame.
fn flow_of(frame: &WireFrame, pairs: u32) -> usize
    requires pairs { pairs ≤ MOST_PAIRS }
    requires queue { frame.now.queue < pairs }
    ensures is { result ≡ flow_of pairs frame.now }
    ensures few { result < PORTS * pairs }
{
    usize::from(frame.port()) * pairs as usize + usize::from(frame.queue())
}

/// An empty list for each flow.
fn no_places(alloc: Global, flows: usize) -> Result<Vec<Vec<u32>>, AllocError>
    ensures flows { IfOk result (λ v. vec_len v ≡ flows) }
    ensures empty { IfOk result (λ v. (k : ℕ) (d : _) → k < flows → (slice_index_or v.items k d).items ≡ []) }
{
    let mut lists = Vec::with_capacity(alloc, flows)?;
    for _ in 0..flows {
        lists.push(Vec::new(alloc))?;
    }
    Ok(lists)
}

impl Index {
    /// The index of a script all of whose queues are below `pairs`.
    pub fn of(alloc: Global, script: &Script, pairs: u32) -> Result<Index, AllocError>
        requires pairs { pairs ≤ MOST_PAIRS }
        requires queues { All (λ f. f.queue < pairs) script.now }
        ensures flows { IfOk result (λ x. length x ≡ PORTS * pairs) }
        ensures places { IfOk result (λ x. (flow : ℕ) (d : _) → flow < PORTS * pairs → slice_index_or x flow d ≡ places_of pairs flow script.now) }
    {
        let frames = script.frames();
        let mut flows = no_places(alloc, PORTS * pairs as usize)?;
        for k in 0..frames.len() {
            let flow = flow_of(&frames[k], pairs);
            flows[flow].push(k as u32)?;
        }
        Ok(Index { flows })
    }

    /// The number of flows.
    pub fn len(&self) -> usize
        ensures { result ≡ length self.now }
    {
        self.flows.len()
    }

    /// The places in the script of a flow's frames, in their order.
    pub fn places(&self, flow: usize) -> &[u32]
        requires { flow < length self.now }
        ensures { (d : _) → result.now ≡ slice_index_or self.now flow d }
    {
        &self.flows[flow]
    }
}
