//! The thread that shows the progress of a run.
ghost use Rattle.std.specs.Prelude.{◌≡◌, ◌<◌};
ghost use Rattle.program.specs.ShownSums.{Shows, frames_per_second};

use crate::progress::reader::Reader;
use crate::progress::reading::{Seen, read_all};
use forward_io::{LiveTotals, ProgressLine};
use requests::ProgressForm;
use std::io::Write;
use std::sync::Wait;
use std::sync::atomic::{AtomicBool, Ordering};
use std::thread;
use std::time::{Clock, Duration, Instant};

/// Number of checks for the end of the run between two reports.
const LOOKS: u32 = 100;

/// Milliseconds between two checks.
const NAP: u64 = 10;

/// The last report and its time.
#[derive(Drop)]
struct Last {
    posted: u64,
    at: Option<Instant>,
}

/// Sleeps for a second, or until the run is over. Returns whether it is over.
fn rest<C: Clock>(clock: &C, over: &AtomicBool) -> bool {
    for _ in 0..LOOKS {
        if over.load(Ordering::SeqCst) {
            return true;
        }
        thread::sleep(clock, Duration::from_millis(NAP));
    }
    over.load(Ordering::SeqCst)
}

/// Milliseconds between two readings of the clock, at least 1. Returns 1,000 if the clock could not be read.
fn millis_between(earlier: Option<Instant>, later: Option<Instant>) -> u64
    ensures { 0 < result }
{
    let (Some(earlier), Some(later)) = (earlier, later) else {
        return 1000;
    };
    let passed = later.duration_since(earlier).as_millis();
    u64::try_from(passed).unwrap_or(u64::MAX).max(1)
}

/// The frames per second, if this many are posted in this many milliseconds.
fn rate(posted: u64, millis: u64) -> u64
    requires some { 0 < millis }
    ensures { result ≡ frames_per_second posted millis }
{
    posted.saturating_mul(1000) / millis
}

impl Last {
    /// Returns the milliseconds since the last report, at least 1, and keeps the present time for the next call.
    fn lap<C: Clock>(&mut self, clock: &C) -> u64
        ensures some { 0 < result }
        ensures posted { self.new.posted ≡ self.old.posted }
    {
        let now = Instant::now(clock).ok();
        let millis = millis_between(self.at, now);
        self.at = now;
        millis
    }

    /// Returns the report of these numbers, this many milliseconds after the last one, and keeps them as the last.
    fn shown(&mut self, seen: Seen, frames: u64, millis: u64) -> LiveTotals
        requires some { 0 < millis }
        ensures shows { Shows self.old.posted millis seen frames result }
        ensures last { self.new.posted ≡ seen.posted }
    {
        let more = seen.posted.saturating_sub(self.posted);
        self.posted = seen.posted;
        LiveTotals {
            offered: seen.offered,
            frames,
            taken: seen.taken,
            posted: seen.posted,
            per_second: rate(more, millis),
        }
    }
}

/// Writes a line, with a line end unless it is rewritten. A failing screen changes nothing.
fn write_line<M: Write>(to: &mut M, line: ProgressLine) {
    let _ = match line.form {
        ProgressForm::Rewritten => write!(to, "{line}"),
        ProgressForm::Lines | ProgressForm::Objects => writeln!(to, "{line}"),
    };
}

/// Shows the numbers once a second, and once more at the end of the run.
pub(crate) fn watch<R: Wait + Clock, M: Write>(
    rt: &R,
    readers: &mut [Reader<'_>],
    frames: u64,
    screen: &mut M,
    form: ProgressForm,
    over: &AtomicBool,
) {
    let mut last = Last {
        posted: 0,
        at: Instant::now(rt).ok(),
    };
    for _ in rt.forever() {
        let ended = rest(rt, over);
        let seen = read_all(rt, readers);
        let millis = last.lap(rt);
        let shown = last.shown(seen, frames, millis);
        write_line(screen, ProgressLine { form, shown });
        if ended {
            break;
        }
    }
    if form == ProgressForm::Rewritten {
        let _ = screen.write_all(b"\n");
    }
}
