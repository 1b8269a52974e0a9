//! The rate of a run, which `--rate` shows at its end.
ghost use Rattle.std.specs.Prelude.{◌≡◌, IfErr, IfOk, None, Some, false};
ghost use Rattle.forward_io.specs.Objects.{total};
ghost use Rattle.program.specs.Forwards.{AreReports, IsUnforwarded};
ghost use Rattle.program.specs.RateLines.{each_nano, rate_text, seconds_text, thousandths_text};

use crate::page::forward_script;
use flows::FlowReport;
use forward_io::WireTotals;
use forwarder::{Config, Report};
use requests::{Printing, ProgressForm, Refusal};
use std::alloc::Global;
use std::fmt;
use std::io::Write;
use std::marker::Send;
use std::sync::Wait;
use std::thread::Threads;
use std::time::{Clock, Instant};
use wire_script::Script;

/// The frames and bytes that left both ports, and the time of the forwarding. Its text has no line end.
#[derive(Clone, Copy, Debug, PartialEq, Eq)]
pub struct RateLine {
    /// Prints a JSON object instead of words.
    pub json: bool,
    /// The frames that left.
    pub frames: u64,
    /// The bytes of these frames.
    pub bytes: u64,
    /// The nanoseconds of the forwarding. 0 counts as 1 in the rates.
    pub nanos: u64,
}

/// A number of thousandths, with three decimals.
#[derive(Clone, Copy)]
struct Thousandths {
    count: u64,
}

/// A time in seconds, with six decimals.
#[derive(Clone, Copy)]
struct Seconds {
    nanos: u64,
}

/// How much of `amount`, multiplied by `factor`, comes in a nanosecond.
fn each_nano(amount: u64, factor: u64, nanos: u64) -> u64
    ensures { result ≡ each_nano amount factor nanos }
{
    amount.saturating_mul(factor) / nanos.max(1)
}

impl RateLine {
    /// The line of the flows of a run.
    fn of(flows: &[FlowReport], nanos: u64, json: bool) -> RateLine
        ensures form { result.json ≡ json }
        ensures frames { result.frames ≡ total (λ r. r.sent) flows.now }
        ensures bytes { result.bytes ≡ total (λ r. r.sent_bytes) flows.now }
        ensures nanos { result.nanos ≡ nanos }
    {
        let WireTotals { frames, bytes } = WireTotals::of(flows);
        RateLine {
            json,
            frames,
            bytes,
            nanos,
        }
    }
}

impl fmt::Display for RateLine {
    ghost output = { λ l. Some (rate_text l) };

    fn fmt<W: fmt::Write>(&self, f: &mut fmt::Formatter<W>) -> fmt::Result {
        let (frames, bytes, nanos) = (self.frames, self.bytes, self.nanos);
        let seconds = Seconds { nanos };
        let mpps = Thousandths {
            count: each_nano(frames, 1_000_000, nanos),
        };
        let gbps = Thousandths {
            count: each_nano(bytes, 8_000, nanos),
        };
        if self.json {
            write!(
                f,
                "{{\"frames\":{frames},\"bytes\":{bytes},\"seconds\":{seconds},\"mpps\":{mpps},\"gbps\":{gbps}}}"
            )
        } else {
            write!(
                f,
                "rate frames {frames} bytes {bytes} seconds {seconds} mpps {mpps} gbps {gbps}"
            )
        }
    }
}

impl fmt::Display for Thousandths {
    ghost output = { λ t. Some (thousandths_text t.count) };

    fn fmt<W: fmt::Write>(&self, f: &mut fmt::Formatter<W>) -> fmt::Result {
        let (whole, part) = (self.count / 1_000, self.count % 1_000);
        write!(f, "{whole}.{part:03}")
    }
}

impl fmt::Display for Seconds {
    ghost output = { λ s. Some (seconds_text s.nanos) };

    fn fmt<W: fmt::Write>(&self, f: &mut fmt::Formatter<W>) -> fmt::Result {
        let (whole, part) = (self.nanos / 1_000_000_000, self.nanos / 1_000 % 1_000_000);
        write!(f, "{whole}.{part:06}")
    }
}

/// Nanoseconds between two readings of the clock, or `None` if one of them failed.
fn nanos_between(began: Option<Instant>, ended: Option<Instant>) -> Option<u64> {
    let passed = ended?.duration_since(began?).as_nanos();
    Some(u64::try_from(passed).unwrap_or(u64::MAX))
}

/// Forwards a script as [`forward_script`] does, and frees it. Also returns the nanoseconds of the forwarding, unless the
/// clock cannot be read.
pub(crate) fn timed<R: Threads + Wait + Clock + Sync, M: Write + Send>(
    rt: &R,
    alloc: Global,
    config: &Config,
    script: Script,
    screen: &mut M,
    form: Option<ProgressForm>,
) -> Result<(Report, Option<u64>), Refusal>
    ensures report { IfOk result (λ r. AreReports config.now script r.0.flows.items) }
    ensures refused { IfErr result (λ e. IsUnforwarded config.now script e) }
    ensures screen { form ≡ None → screen.new ≡ screen.old }
{
    let began = Instant::now(rt).ok();
    let forwarded = forward_script(rt, alloc, config, &script, screen, form);
    let nanos = nanos_between(began, Instant::now(rt).ok());
    drop(script);
    Ok((forwarded?, nanos))
}

/// The line of a run that took this time, if it is to be shown and the time is known.
pub(crate) fn rate_of(
    printing: Printing,
    flows: &[FlowReport],
    nanos: Option<u64>,
) -> Option<RateLine>
    ensures unshown { printing.rate ≡ false → result ≡ None }
{
    if printing.rate {
        Some(RateLine::of(flows, nanos?, printing.json))
    } else {
        None
    }
}

/// Writes the line, if there is one. A failing screen changes nothing.
pub(crate) fn write_rate<M: Write>(screen: &mut M, rate: Option<RateLine>)
    ensures none { rate ≡ None → screen.new ≡ screen.old }
{
    if let Some(rate) = rate {
        let _ = writeln!(screen, "{rate}");
    }
}
