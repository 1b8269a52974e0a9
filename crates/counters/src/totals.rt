//! Numbers that continue from others.

use crate::snapshot::Snapshot;

/// Numbers whose sums, place by place, are again numbers of their kind. So a cell can continue from the numbers that it
/// shows.
pub trait Totals<const N: usize>: Snapshot<N> {
    ghost use Rattle.std.specs.Prelude.{◌≡◌, ◌↔◌, IsSome, IfSome};
    ghost use Rattle.counters.specs.Snapshots.{AreCounts, NoneFalls};

    ghost sum: { Self → Self → Self };

    /// The sums of both, or `None` if one of them exceeds `u64::MAX`.
    fn plus(self, more: Self) -> Option<Self>
        requires lawful { Self.lawful self × Self.lawful more }
        ensures fits { IsSome result ↔ AreCounts (Self.words (sum self more)) }
        ensures value { IfSome result (λ s. s ≡ sum self more) }
        ensures lawful { IfSome result Self.lawful };

    /// Where no number falls, no sum falls.
    ghost rises: { (base x y : Self) → NoneFalls (Self.words x) (Self.words y) → NoneFalls (Self.words (sum base x)) (Self.words (sum base y)) };

    /// Zeros add nothing.
    ghost adds_nothing: { (base : Self) → sum base Self.opening ≡ base };

    /// Zeros are continued by what is added.
    ghost begins: { (x : Self) → sum Self.opening x ≡ x };
}
