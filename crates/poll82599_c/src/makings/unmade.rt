//! Why nothing was made.
ghost use Rattle.std.specs.Prelude.{◌≡◌, ◌≢◌, ◌⊎◌, pos};
ghost use Rattle.refusals.specs.declared.errors.RingError.TheVariants.{RingLength};

use shared_ring::RingError;

/// The reason why an export made no end, queue, worker's packets, pool or counters.
#[derive(Drop)]
pub(crate) enum Unmade {
    /// The ring's length is not a power of two from 8 to 4,096.
    Length,
    /// Memory was refused.
    Memory,
    /// The number of buffers is out of range.
    Buffers,
    /// A batch is not 1 to 32 packets, buffers are not filled to 1,024 or 2,048 bytes, reports are not asked for with
    /// each 1st to 4,096th frame, or a handle may not write counters.
    Settings,
}

impl Unmade {
    /// Converts the reason why a ring was not made.
    pub(crate) fn of(why: RingError) -> Unmade
        ensures length { result ≡ Unmade.Length → why ≡ RingLength }
        ensures refusals { (result ≡ Unmade.Length) ⊎ (result ≡ Unmade.Memory) }
    {
        match why {
            RingError::RingLength => Unmade::Length,
            RingError::Memory => Unmade::Memory,
        }
    }

    /// The result number of the export: 1 to 4, in the order of the variants.
    pub(crate) fn number(self) -> i32
        ensures some { (result ≢ pos 0) × (result ≢ pos 5) }
        ensures length { result ≡ pos 1 → self ≡ Unmade.Length }
        ensures buffers { result ≡ pos 3 → self ≡ Unmade.Buffers }
        ensures settings { result ≡ pos 4 → self ≡ Unmade.Settings }
    {
        match self {
            Unmade::Length => 1,
            Unmade::Memory => 2,
            Unmade::Buffers => 3,
            Unmade::Settings => 4,
        }
    }
}
