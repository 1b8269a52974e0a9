//! Explains a refused configuration.

use limits::{BUFFER_BYTES, FEWEST_BUFFERS, MOST_BATCH, MOST_BUFFERS, MOST_RS_EVERY};
use requests::{Source, explain_queues};
use settings::{Config, ConfigFault, LEAST_SHARE, MOST_REPEAT};
use std::alloc::AllocError;

/// Explains why a configuration is refused: the first option that is outside its range, or the first source whose
/// queue does not exist. Writes nothing if a line of the script is at fault.
pub(crate) fn explain_config(
    why: &mut String,
    config: &Config,
    sources: &[Source<'_>],
) -> Result<(), AllocError> {
    let Some(fault) = config.number_fault() else {
        return explain_sources(why, config.pairs, sources);
    };
    why.clear();
    match fault {
        ConfigFault::Pairs | ConfigFault::Ring => explain_queues(why, config.pairs, config.ring),
        ConfigFault::Buffers | ConfigFault::Share | ConfigFault::Bsize => {
            explain_buffers(why, config, fault)
        }
        _ => explain_work(why, config, fault),
    }
}

/// Explains a number of buffers or their fill size.
fn explain_buffers(
    why: &mut String,
    config: &Config,
    fault: ConfigFault,
) -> Result<(), AllocError> {
    let Config {
        pairs,
        buffers,
        bsize,
        ..
    } = *config;
    match fault {
        ConfigFault::Buffers => {
            explain_range(why, "--buffers", buffers, FEWEST_BUFFERS, MOST_BUFFERS)
        }
        ConfigFault::Share => write!(
            why,
            "--buffers is {buffers}, but must be at least {} with --pairs {pairs}, {LEAST_SHARE} for each flow",
            pairs.saturating_mul(2).saturating_mul(LEAST_SHARE)
        ),
        _ => write!(
            why,
            "--bsize is {bsize}, but must be 1024 or {BUFFER_BYTES}"
        ),
    }
}

/// Explains a number of packets, frames, threads or repetitions.
fn explain_work(why: &mut String, config: &Config, fault: ConfigFault) -> Result<(), AllocError> {
    let Config {
        pairs,
        batch,
        rs_every,
        workers,
        repeat,
        ..
    } = *config;
    match fault {
        ConfigFault::Batch => explain_range(why, "--batch", batch, 1, MOST_BATCH as u32),
        ConfigFault::RsEvery => explain_range(
            why,
            "--rs-every",
            rs_every,
            1,
            u32::from(MOST_RS_EVERY),
        ),
        ConfigFault::Repeat => explain_range(why, "--repeat", repeat, 1, MOST_REPEAT),
        _ => write!(
            why,
            "--workers is {workers}, but must be 1 to {} with --pairs {pairs}",
            pairs.saturating_mul(2)
        ),
    }
}

/// Explains an option whose value is outside its range.
fn explain_range(
    why: &mut String,
    option: &str,
    value: u32,
    least: u32,
    most: u32,
) -> Result<(), AllocError> {
    write!(why, "{option} is {value}, but must be {least} to {most}")
}

/// Explains the first source whose queue does not exist.
fn explain_sources(why: &mut String, pairs: u32, sources: &[Source<'_>]) -> Result<(), AllocError> {
    for source in sources {
        let (port, queue) = source.place();
        if u32::from(queue) >= pairs {
            why.clear();
            return write!(
                why,
                "--capture {port}:{queue}={} names queue {queue}, but --pairs {pairs} has queues 0 to {}",
                source.file(),
                pairs.saturating_sub(1)
            );
        }
    }
    Ok(())
}
