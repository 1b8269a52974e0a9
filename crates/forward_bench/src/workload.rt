//! The workload: what is forwarded, and how.

use anyhow::{Result, ensure};
use forwarder::Config;
use limits::{LEAST_FRAME, MOST_FRAME, MOST_SCRIPT_FRAMES};
use std::alloc::Global;
use wire_script::{Script, WireFrame};

/// The number of buffers of all flows together.
const BUFFERS: u32 = 16_384;

/// `frames` frames of `size` bytes each, shared out to `flows` flows in turn, and how they are forwarded.
#[derive(Clone, Copy)]
pub struct Workload {
    pub frames: u32,
    pub flows: u32,
    size: u32,
    ring: u32,
    batch: u32,
    workers: u32,
    /// Whether the wires are kept. Otherwise a few frames are offered again and again, and the wires are dropped.
    pub keeps: bool,
}

impl Workload {
    /// Parses the words after the program's name. The forwarder itself refuses an invalid configuration.
    pub fn of(words: &[String]) -> Option<Workload> {
        let keeps = match number_of(words, "--keep")? {
            0 => false,
            1 => true,
            _ => return None,
        };
        let workload = Workload {
            frames: number_of(words, "--frames")?,
            flows: number_of(words, "--flows")?,
            size: number_of(words, "--size")?,
            ring: number_of(words, "--ring")?,
            batch: number_of(words, "--batch")?,
            workers: number_of(words, "--workers")?,
            keeps,
        };
        (words.len() == 14 && workload.is_lawful()).then_some(workload)
    }

    /// Parses the words of a measurement of latencies: frames of one flow, with one worker on each side.
    pub fn of_latency(words: &[String]) -> Option<Workload> {
        let workload = Workload {
            frames: number_of(words, "--latency")?,
            flows: 1,
            size: number_of(words, "--size")?,
            ring: number_of(words, "--ring")?,
            batch: number_of(words, "--batch")?,
            workers: 1,
            keeps: false,
        };
        (words.len() == 8 && workload.is_lawful()).then_some(workload)
    }

    fn is_lawful(&self) -> bool {
        (1..=MOST_SCRIPT_FRAMES).contains(&(self.frames as usize))
            && (LEAST_FRAME..=MOST_FRAME).contains(&(self.size as usize))
            && matches!(self.flows, 1 | 2 | 4 | 8 | 16)
    }

    /// The configuration. A queue pair has two flows, one for each port.
    pub fn config(&self) -> Config {
        Config {
            pairs: (self.flows / 2).max(1),
            ring: self.ring,
            batch: self.batch,
            workers: self.workers,
            buffers: BUFFERS,
            ..Config::default()
        }
    }

    /// The number of frames of flow `flow`.
    pub fn frames_of(&self, flow: usize) -> u64 {
        if self.flows as usize <= flow {
            return 0;
        }
        let more = flow < (self.frames % self.flows) as usize;
        u64::from(self.frames / self.flows) + u64::from(more)
    }

    /// The frames as a script, for each flow in turn, port 0's flows first.
    pub fn script(&self, alloc: Global) -> Result<Script> {
        let mut frames = Vec::new(alloc);
        for k in 0..self.frames {
            frames.push(self.frame(alloc, k % self.flows.max(1))?)?;
        }
        ensure!(
            frames.len() <= MOST_SCRIPT_FRAMES,
            "too many frames for a script"
        );
        Ok(Script::new(frames))
    }

    /// Makes `count` frames of the size of the workload.
    pub fn bytes(&self, alloc: Global, count: usize) -> Result<Vec<Vec<u8>>> {
        let mut frames = Vec::new(alloc);
        for _ in 0..count {
            frames.push(Vec::from_elem(alloc, 0xab, self.size as usize)?)?;
        }
        Ok(frames)
    }

    /// Makes a frame of flow `flow`.
    fn frame(&self, alloc: Global, flow: u32) -> Result<WireFrame> {
        let pairs = (self.flows / 2).max(1);
        let (port, queue, size) = (flow / pairs, flow % pairs, self.size as usize);
        ensure!(port < 2 && queue < 8, "there is no such flow");
        ensure!(
            LEAST_FRAME <= size && size <= MOST_FRAME,
            "there is no such frame"
        );
        let bytes = Vec::from_elem(alloc, 0xab, size)?;
        Ok(WireFrame::new(port as u8, queue as u8, bytes))
    }
}

/// The number after an option.
fn number_of(words: &[String], name: &str) -> Option<u32> {
    let at = words.iter().position(|word| word.as_str() == name)?;
    words.get(at + 1)?.as_str().parse().ok()
}
