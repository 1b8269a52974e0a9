//! The flows whose frames leave at a port.
ghost use Rattle.std.specs.Prelude.{◌≡◌};
ghost use Rattle.forward_io.specs.Leaving.{leaving};

use forwarding::{FlowReport, PortQueue, peer};

/// Returns those that leave at this port, of the flows that came in at port 0, and of those of port 1.
pub(crate) fn leaving<'a>(
    port: u8,
    from_0: &'a [FlowReport],
    from_1: &'a [FlowReport],
) -> &'a [FlowReport]
    ensures { result.now ≡ leaving port from_0.now from_1.now }
{
    let output = peer(PortQueue { port: 0, queue: 0 });
    if output.port == port { from_0 } else { from_1 }
}
