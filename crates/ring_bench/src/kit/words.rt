//! The command line: options, each once with its value.

use anyhow::Result;
use limits::{BUFFER_BYTES, MOST_RING};
use std::env;
use std::rt::Env;

/// Returns the words after the program's name.
pub fn words_of<R: Env + AllocGlobal>(rt: &R) -> Result<Vec<String>> {
    Ok(env::args(rt)?.skip(1).collect(rt.alloc())?)
}

/// A load: `frames` frames of `size` bytes each, through a ring of `ring` descriptors.
#[derive(Clone, Copy)]
pub struct Workload {
    pub ring: u32,
    pub frames: u32,
    pub size: usize,
}

/// Parses the load from the options `--ring`, `--frames` and `--size`. Returns nothing unless there are `words` words
/// in all.
pub fn load_of(options: &[String], words: usize) -> Option<Workload> {
    if options.len() != words {
        return None;
    }
    Some(Workload {
        ring: number_of(options, "--ring", MOST_RING as u32)?,
        frames: number_of(options, "--frames", u32::MAX)?,
        size: number_of(options, "--size", BUFFER_BYTES as u32)? as usize,
    })
}

/// Frames that pass in batches.
#[derive(Clone, Copy)]
pub struct BatchPlan {
    pub load: Workload,
    /// The most frames of a batch.
    pub batch: u32,
}

/// Parses the load and, from `--batch`, the most frames of a batch, 1 to `most`. Returns nothing unless there are
/// `words` words.
pub fn batch_plan(options: &[String], words: usize, most: u32) -> Option<BatchPlan> {
    Some(BatchPlan {
        load: load_of(options, words)?,
        batch: number_of(options, "--batch", most)?,
    })
}

/// The number after an option, from 1 to `most`.
pub fn number_of(options: &[String], name: &str, most: u32) -> Option<u32> {
    let number: u32 = value_of(options, name)?.parse().ok()?;
    (1 <= number && number <= most).then_some(number)
}

/// The word after an option.
pub fn value_of<'a>(options: &'a [String], name: &str) -> Option<&'a str> {
    let at = options.iter().position(|word| word.as_str() == name)?;
    Some(options.get(at + 1)?.as_str())
}
