//! The limit that a configuration violates.
ghost use Rattle.std.specs.Prelude.{◌≡◌, ◌↔◌, None, IfSome};
ghost use Rattle.settings.specs.ConfigFaults.{IsFault};
ghost use Rattle.settings.specs.Configs.{FitsIn, HasLawfulBuffers, HasLawfulQueues, HasLawfulWork, HasQueues, IsLawful};

use crate::config::{Config, LEAST_SHARE, MOST_REPEAT};
use limits::{
    FEWEST_BUFFERS, MOST_BATCH, MOST_BUFFERS, MOST_PAIRS, MOST_RS_EVERY, is_fill_size,
    is_ring_length,
};
use wire_script::{Script, WireFrame};

/// The limit that a configuration violates.
#[derive(Clone, Copy, Debug, PartialEq, Eq)]
pub enum ConfigFault {
    /// `pairs` is not 1 to 8.
    Pairs,
    /// `ring` is not a power of two from 8 to 4,096.
    Ring,
    /// `buffers` is not 16 to 65,536.
    Buffers,
    /// `buffers` is less than 16 a flow.
    Share,
    /// `bsize` is neither 1,024 nor 2,048.
    Bsize,
    /// `batch` is not 1 to 32.
    Batch,
    /// `rs_every` is not 1 to 4,096.
    RsEvery,
    /// `workers` is not 1 to `2 * pairs`.
    Workers,
    /// `repeat` is not 1 to 1,000,000.
    Repeat,
    /// The frame at this place of the script, counted from 0, is for a queue that does not exist.
    Queue(usize),
}

impl Config {
    /// Returns a limit that this configuration violates with this script, or `None` if [`check`](Config::check) accepts
    /// it.
    pub fn fault(&self, script: &Script) -> Option<ConfigFault>
        ensures none { (result ≡ None) ↔ FitsIn script.now self.now }
        ensures fault { IfSome result (λ f. IsFault script.now self.now f) }
    {
        match self.number_fault() {
            Some(fault) => Some(fault),
            None => self.queue_fault(script.frames()),
        }
    }

    /// Returns a limit that a number of this configuration violates, or `None` if it is lawful.
    pub fn number_fault(&self) -> Option<ConfigFault>
        ensures none { (result ≡ None) ↔ IsLawful self.now }
        ensures fault { (script : _) → IfSome result (λ f. IsFault script self.now f) }
    {
        match self.ring_fault() {
            Some(fault) => Some(fault),
            None => self.size_fault(),
        }
    }

    fn ring_fault(&self) -> Option<ConfigFault>
        ensures none { (result ≡ None) ↔ HasLawfulQueues self.now }
        ensures fault { (script : _) → IfSome result (λ f. IsFault script self.now f) }
    {
        if self.pairs < 1 || MOST_PAIRS < self.pairs as usize {
            Some(ConfigFault::Pairs)
        } else if !is_ring_length(self.ring as usize) {
            Some(ConfigFault::Ring)
        } else {
            None
        }
    }

    /// The fault of a number other than those of the queues.
    fn size_fault(&self) -> Option<ConfigFault>
        requires { HasLawfulQueues self.now }
        ensures none { (result ≡ None) ↔ (HasLawfulBuffers self.now × HasLawfulWork self.now) }
        ensures fault { (script : _) → IfSome result (λ f. IsFault script self.now f) }
    {
        if self.buffers < FEWEST_BUFFERS || MOST_BUFFERS < self.buffers {
            Some(ConfigFault::Buffers)
        } else if self.buffers / (2 * self.pairs) < LEAST_SHARE {
            Some(ConfigFault::Share)
        } else if !is_fill_size(self.bsize as usize) {
            Some(ConfigFault::Bsize)
        } else if self.batch < 1 || MOST_BATCH < self.batch as usize {
            Some(ConfigFault::Batch)
        } else if self.rs_every < 1 || u32::from(MOST_RS_EVERY) < self.rs_every {
            Some(ConfigFault::RsEvery)
        } else if self.workers < 1 || 2 * self.pairs < self.workers {
            Some(ConfigFault::Workers)
        } else if self.repeat < 1 || MOST_REPEAT < self.repeat {
            Some(ConfigFault::Repeat)
        } else {
            None
        }
    }

    /// The place of a frame whose queue does not exist.
    fn queue_fault(&self, frames: &[WireFrame]) -> Option<ConfigFault>
        ensures none { (result ≡ None) ↔ HasQueues self.now frames.now }
        ensures fault { IfSome result (λ f. IsFault frames.now self.now f) }
    {
        for at in 0..frames.len() {
            if u32::from(frames[at].queue()) >= self.pairs {
                return Some(ConfigFault::Queue(at));
            }
        }
        None
    }
}
