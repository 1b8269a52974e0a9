//! The numbers of one moment.
ghost use Rattle.std.specs.Prelude.{◌≡◌, ◌↔◌, All, IsTrue};

use crossbeam_utils::atomic::seq_cell::Words;

/// The numbers that a cell holds together, as `N` words: the relation between them at every moment, and those of the
/// opening, which are all 0.
pub trait Snapshot<const N: usize>: Words<N> {
    ghost lawful: { Self → Type 0 };

    ghost opening: { Self };

    /// All numbers are 0.
    fn opening() -> Self
        ensures same { result ≡ opening }
        ensures zero { All (λ n. n ≡ 0) (Self.words result) }
        ensures lawful { lawful result };

    /// Whether the relation between the numbers holds.
    fn is_lawful(&self) -> bool
        ensures { IsTrue result ↔ lawful self.now };
}
