//! The time of a run, and the lines that are printed.
ghost use Rattle.std.specs.Prelude.{◌≡◌, IfOk};

use crate::kit::tally::Tally;
use anyhow::Result;
use std::process::ExitCode;
use std::rt::Clock;
use std::time::{Duration, Instant};

/// The result of passing `frames` frames, and how long it took.
#[derive(Drop)]
pub struct Timed<T> {
    pub done: T,
    pub frames: u32,
    pub spent: Duration,
}

impl<T> Timed<T> {
    pub fn new(done: T, frames: u32, spent: Duration) -> Timed<T>
        ensures { result.done ≡ done }
    {
        Timed {
            done,
            frames,
            spent,
        }
    }
}

impl<T: Drop> Timed<T> {
    /// What a run left, and its time, if its tally is that of `frames` frames like this one.
    pub fn checked(
        tally: Tally,
        frame: &[u8],
        frames: u32,
        done: T,
        spent: Duration,
    ) -> Result<Timed<T>>
        ensures { IfOk result (λ t. t.done ≡ done) }
    {
        tally.check(frame, frames)?;
        Ok(Timed::new(done, frames, spent))
    }
}

/// Returns the current time.
pub fn now<R: Clock>(rt: &R) -> Result<Instant> {
    Ok(Instant::now(rt)?)
}

/// Returns the time since `start`.
pub fn since<R: Clock>(rt: &R, start: Instant) -> Result<Duration> {
    Ok(start.elapsed(rt)?)
}

/// Runs a benchmark with its plan, and prints the number of frames and the cost of a frame. If the command line gives
/// the usage and no plan, prints that.
pub fn measure<R: Print + Eprint, P, T: Drop, F: FnOnce(P) -> Result<Timed<T>> + Drop>(
    rt: &R,
    plan: std::result::Result<P, &str>,
    run: F,
) -> Result<ExitCode>
    requires { F.IsAlwaysCallable run }
{
    match plan {
        Ok(plan) => report(rt, run(plan)),
        Err(usage) => refuse(rt, usage),
    }
}

/// Prints the number of frames and the cost of a frame. Drops the result.
fn report<T: Drop>(rt: &impl Print, timed: Result<Timed<T>>) -> Result<ExitCode> {
    let Timed {
        done,
        frames,
        spent,
    } = timed?;
    drop(done);
    let nanoseconds = spent.as_secs_f64() * 1e9 / f64::from(frames);
    println!(rt; "frames {frames}")?;
    println!(rt; "ns/frame {nanoseconds:.1}")?;
    println!(rt; "Mframes/s {:.2}", 1000.0 / nanoseconds)?;
    Ok(ExitCode::SUCCESS)
}

/// Prints the usage on standard error, if the command line is wrong. Returns status 2.
pub fn refuse(rt: &impl Eprint, usage: &str) -> Result<ExitCode> {
    eprintln!(rt; "{usage}")?;
    Ok(ExitCode::from(2))
}
