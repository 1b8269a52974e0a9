//! The sums of a port's flows.
ghost use Rattle.std.specs.Prelude.{◌≡◌};
ghost use Rattle.forward_io.specs.Objects.{sums_of, total};
ghost use Rattle.forward_io.specs.Sums.{with_came, with_left};

use forwarding::FlowReport;

/// The frames and bytes that came in at a port, and those that left it. A sum that exceeds `u64::MAX` is that number.
#[derive(Clone, Copy)]
pub(crate) struct PortSums {
    pub rx_packets: u64,
    pub rx_bytes: u64,
    pub rx_dropped: u64,
    pub tx_packets: u64,
    pub tx_bytes: u64,
    pub tx_dropped: u64,
}

impl PortSums {
    /// The sums of the flows that came in at a port, and of those that left it.
    pub(crate) fn of(came: &[FlowReport], left: &[FlowReport]) -> PortSums
        ensures { result ≡ sums_of came.now left.now }
    {
        let mut sums = PortSums {
            rx_packets: 0,
            rx_bytes: 0,
            rx_dropped: 0,
            tx_packets: 0,
            tx_bytes: 0,
            tx_dropped: 0,
        };
        for flow in came {
            sums = sums.with_came(flow);
        }
        for flow in left {
            sums = sums.with_left(flow);
        }
        sums
    }

    /// These sums plus the counts of a flow that came in.
    fn with_came(self, flow: &FlowReport) -> PortSums
        ensures { result ≡ with_came self flow.now }
    {
        PortSums {
            rx_packets: self.rx_packets.saturating_add(flow.tally.stored),
            rx_bytes: self.rx_bytes.saturating_add(flow.stored_bytes),
            rx_dropped: self.rx_dropped.saturating_add(flow.tally.dropped),
            ..self
        }
    }

    /// These sums plus the counts of a flow that left.
    fn with_left(self, flow: &FlowReport) -> PortSums
        ensures { result ≡ with_left self flow.now }
    {
        PortSums {
            tx_packets: self.tx_packets.saturating_add(flow.sent),
            tx_bytes: self.tx_bytes.saturating_add(flow.sent_bytes),
            tx_dropped: self.tx_dropped.saturating_add(flow.driven.tx_dropped),
            ..self
        }
    }
}

/// The frames and bytes that flows sent. A sum that exceeds `u64::MAX` is that number.
#[derive(Clone, Copy, Debug, PartialEq, Eq)]
pub struct WireTotals {
    /// The frames.
    pub frames: u64,
    /// The bytes of the frames.
    pub bytes: u64,
}

impl WireTotals {
    /// The sums of these flows.
    pub fn of(flows: &[FlowReport]) -> WireTotals
        ensures frames { result.frames ≡ total (λ r. r.sent) flows.now }
        ensures bytes { result.bytes ≡ total (λ r. r.sent_bytes) flows.now }
    {
        let sums = PortSums::of(&[], flows);
        WireTotals {
            frames: sums.tx_packets,
            bytes: sums.tx_bytes,
        }
    }
}
