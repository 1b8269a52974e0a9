//! The thresholds of a poll-mode driver.
ghost use Rattle.std.specs.Prelude.{◌≡◌, ◌+◌, ◌<◌, ◌↔◌, ℕ, ◌==◌, Some, IsTrue, true, not};
ghost use Rattle.std.specs.List.{list_all};
ghost use Rattle.settings.specs.Thresholds.{Fit, FitTransmit, HasValue, HaveThresholds, IsThresholds};
ghost use Rattle.settings.specs.declared.thresholds.Thresholds.{Thresholds as Driver};

use text_lines::{cut, number_in};

/// The least ring length of DPDK's ixgbe driver (`IXGBE_MIN_RING_DESC`).
const LEAST_DRIVER_RING: u32 = 32;

/// The greatest `tx_rs_thresh` of DPDK's ixgbe driver (`DEFAULT_TX_RS_THRESH`).
const MOST_REPORT: u32 = 32;

/// The thresholds of DPDK's ixgbe driver, all in descriptors.
#[derive(Clone, Copy, PartialEq, Eq, Debug)]
pub struct Thresholds {
    /// `rx_free_thresh`: a receive call that ends with more taken descriptors than this posts as many buffers again.
    pub refill: u32,
    /// `tx_rs_thresh`: a frame that brings the descriptors since the last such frame to this number requests a report
    /// (RS). The driver cleans at least this many descriptors at once.
    pub report: u32,
    /// `tx_free_thresh`: a transmit call that begins with fewer free descriptors than this cleans first.
    pub clean: u32,
}

impl Thresholds {
    /// Reads `refill=F,report=R,clean=T`, three decimal numbers from 0 to 99,999 without leading zeros. Returns `None`
    /// for any other text.
    pub fn parse(text: &str) -> Option<Thresholds>
        ensures text { (t : Driver) → (result ≡ Some t) ↔ IsThresholds text.now t }
    {
        let (refill, rest) = cut(text.as_bytes(), b',');
        let (report, rest) = cut(rest?, b',');
        thresholds_of(refill, report, rest?)
    }

    /// Whether DPDK's ixgbe driver accepts these thresholds for rings of this length: a ring has at least 32
    /// descriptors, `refill` is less than the ring length less 1, `report` is 1 to 32 and divides the ring length,
    /// `clean` is at least `report` and less than the ring length less 3, and both together do not exceed the ring
    /// length.
    pub fn fit(&self, ring: u32) -> bool
        ensures rings { IsTrue result ↔ Fit ring self.now }
    {
        ring >= LEAST_DRIVER_RING && self.fits_receive(ring) && self.fits_transmit(ring)
    }

    // Whether the receive queue reaches the threshold before all its descriptors are taken.
    fn fits_receive(&self, ring: u32) -> bool
        ensures { IsTrue result ↔ (self.now.refill + 1 < ring) }
    {
        self.refill < ring.saturating_sub(1)
    }

    fn fits_transmit(&self, ring: u32) -> bool
        ensures { IsTrue result ↔ FitTransmit ring self.now }
    {
        1 <= self.report
            && self.report <= MOST_REPORT
            && ring % self.report == 0
            && self.report <= self.clean
            && self.clean < ring.saturating_sub(3)
            && self.clean <= ring.saturating_sub(self.report)
    }
}

// The thresholds with these fields.
fn thresholds_of(refill: &[u8], report: &[u8], clean: &[u8]) -> Option<Thresholds>
    ensures { (t : Driver) → (result ≡ Some t) ↔ HaveThresholds refill.now report.now clean.now t }
{
    let refill = value_of(refill, b"refill")?;
    let report = value_of(report, b"report")?;
    let clean = value_of(clean, b"clean")?;
    Some(Thresholds {
        refill,
        report,
        clean,
    })
}

// The value of a field `NAME=VALUE`.
fn value_of(field: &[u8], name: &[u8]) -> Option<u32>
    requires { list_all (λ b. not (b == 61)) name.now ≡ true }
    ensures { (n : ℕ) → (result ≡ Some n) ↔ HasValue field.now name.now n }
{
    let (before, value) = cut(field, b'=');
    if before == name {
        number_in(value?)
    } else {
        None
    }
}
