//! Where the frames of a flow leave.
ghost use Rattle.std.specs.Prelude.{◌≡◌, ◌<◌};
ghost use Rattle.limits.specs.declared.profile.TheConstants.{PORTS};
ghost use Rattle.forwarding.specs.Peers.{peer};

/// A queue of a port, where the frames of a flow come in or leave.
#[derive(Clone, Copy, Debug, PartialEq, Eq)]
pub struct PortQueue {
    /// The port, 0 or 1.
    pub port: u8,
    /// The queue of the port, 0 to 7.
    pub queue: u8,
}

/// Returns where the frames leave that come in here: at the same queue of the other port.
#[inline]
pub fn peer(input: PortQueue) -> PortQueue
    requires port { input.port < PORTS }
    ensures value { result ≡ peer input }
    ensures port { result.port < PORTS }
{
    PortQueue {
        port: 1 - input.port,
        queue: input.queue,
    }
}
