//! The report of all flows.
ghost use Rattle.std.specs.Prelude.{◌≡◌, ◌/◌, option_map, vec_len};
ghost use Rattle.forwarder.specs.Flows.{flow_at};
ghost use Rattle.limits.specs.declared.profile.TheConstants.{PORTS};

use flows::FlowReport;
use limits::PORTS;

/// The report of a forwarding.
#[derive(Debug, Drop)]
pub struct Report {
    /// The report of each flow: those of port 0 first, with ascending queues in a port.
    pub flows: Vec<FlowReport>,
}

impl Report {
    /// Returns the report of the flow whose frames come in at this port and queue, or `None` if there is no such flow.
    /// [`peer`](forwarding::peer) says where they leave.
    pub fn flow(&self, port: u8, queue: u8) -> Option<&FlowReport>
        ensures found { option_map (λ r. r.now) result ≡ flow_at (vec_len self.now.flows / PORTS) port queue self.now.flows.items }
    {
        let pairs = self.flows.len() / PORTS;
        let (port, queue) = (usize::from(port), usize::from(queue));
        if port >= PORTS || queue >= pairs {
            return None;
        }
        self.flows.get(port * pairs + queue)
    }
}
