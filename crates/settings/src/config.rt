//! The configuration of a forwarder.
ghost use Rattle.std.specs.Prelude.{◌≡◌, ◌↔◌, IsTrue, IsOk, IfErr};
ghost use Rattle.refusals.specs.declared.errors.ForwardError.TheVariants.{Config as ConfigRefused};
ghost use Rattle.settings.specs.Configs.{IsLawful, FitsIn};

use refusals::ForwardError;
use ring_model::Completion;
use std::fmt;
use wire_script::Script;

/// The least number of buffers that a flow may hold.
pub const LEAST_SHARE: u32 = 16;

const _: () = prove!(LEAST_SHARE == 16);

/// The maximum number of times that the frames of a script are offered.
pub const MOST_REPEAT: u32 = 1_000_000;

const _: () = prove!(MOST_REPEAT == 1_000_000);

/// The configuration of a forwarder. [`Config::default`] is lawful.
#[derive(Clone, Copy, PartialEq, Eq)]
pub struct Config {
    /// Queue pairs of each port, 1 to 8. A flow is one of them at one port.
    pub pairs: u32,
    /// Descriptors of each ring, a power of two from 8 to 4,096.
    pub ring: u32,
    /// The maximum number of packets that a driver takes at once, 1 to 32.
    pub batch: u32,
    /// Buffers of the pool, 16 to 65,536, and at least 16 a flow.
    pub buffers: u32,
    /// The number of bytes to which a receive buffer is filled, 1,024 or 2,048 (82599 datasheet, SRRCTL.BSIZEPACKET).
    pub bsize: u32,
    /// The report interval of a driver, 1 to 4,096 frames.
    pub rs_every: u32,
    /// Whether a frame for which too few descriptors are free is dropped (SRRCTL.Drop_En); otherwise it is held.
    pub drop_en: bool,
    /// Whether packets for which a transmit ring has no room wait; otherwise they are dropped.
    pub retry: bool,
    /// Threads of each side, 1 to `2 * pairs`.
    pub workers: u32,
    /// The number of turns of its driver after which a flow is cut; 0 for never.
    pub turns: u32,
    /// How many times the frames of the script are offered, 1 to 1,000,000.
    pub repeat: u32,
    /// Whether the frames that were sent are kept on the wires of the report; otherwise they are only counted.
    pub keep: bool,
    /// How a controller reports sent frames.
    pub completion: Completion,
}

impl Default for Config {
    ghost use Rattle.std.specs.Prelude.{◌≡◌};
    ghost use Rattle.settings.specs.Configs.{default_config};

    ghost is_default = { λ c. c ≡ default_config };

    fn default() -> Config {
        Config::DEFAULT
    }
}

impl fmt::Debug for Config {
    fn fmt<W: fmt::Write>(&self, f: &mut fmt::Formatter<W>) -> fmt::Result {
        let completion = if self.completion.is_by_head() {
            "Head"
        } else {
            "Status"
        };
        write!(
            f,
            "Config {{ pairs: {}, ring: {}, batch: {}, buffers: {}, bsize: {}, rs_every: {}, ",
            self.pairs, self.ring, self.batch, self.buffers, self.bsize, self.rs_every
        )?;
        write!(
            f,
            "drop_en: {}, retry: {}, workers: {}, turns: {}, repeat: {}, keep: {}, completion: {completion} }}",
            self.drop_en, self.retry, self.workers, self.turns, self.repeat, self.keep
        )
    }
}

impl Config {
    /// The value of [`Config::default`].
    pub const DEFAULT: Config = Config {
        pairs: 1,
        ring: 512,
        batch: 32,
        buffers: 4_096,
        bsize: 2_048,
        rs_every: 32,
        drop_en: false,
        retry: true,
        workers: 1,
        turns: 0,
        repeat: 1,
        keep: true,
        completion: Completion::Status,
    };

    /// Whether each number is within its limits.
    pub fn is_lawful(&self) -> bool
        ensures { IsTrue result ↔ IsLawful self.now }
    {
        self.number_fault().is_none()
    }

    /// Returns `Config` if this is not lawful, or the script names a queue beyond its pairs. [`fault`](Config::fault)
    /// says which limit is violated.
    pub fn check(&self, script: &Script) -> Result<(), ForwardError>
        ensures accepted { IsOk result ↔ FitsIn script.now self.now }
        ensures refused { IfErr result (λ e. e ≡ ConfigRefused) }
    {
        match self.fault(script) {
            None => Ok(()),
            Some(_) => Err(ForwardError::Config),
        }
    }
}
