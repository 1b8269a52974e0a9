//! The numbers of a flow that a cell shows.
use counters::{DRIVEN_NUMBERS, Driven, Snapshot, TALLY_NUMBERS, Tally};
use flows::{ControllerFlow, DriverFlow};
use forwarding::Flow;

/// A flow whose numbers are those of a moment.
pub trait Numbered<T: Snapshot<N>, const N: usize>: Flow {
    ghost use Rattle.std.specs.Prelude.{◌≡◌, ◌↔◌, IsTrue};
    ghost use Rattle.counters.specs.Snapshots.{AreCounts};

    /// The current numbers.
    ghost shown: { Self → T };

    /// The current numbers.
    fn snapshot(&self) -> T
        ensures value { result ≡ shown self.now }
        ensures numbers { T.words result ≡ Self.numbers self.now }
        ensures counts { AreCounts (T.words result) }
        ensures lawful { T.lawful result };

    /// Whether the current numbers equal those of `snapshot`.
    fn shows(&self, snapshot: T) -> bool
        ensures { IsTrue result ↔ (snapshot ≡ shown self.now) };
}

impl<'a> Numbered<Driven, DRIVEN_NUMBERS> for DriverFlow<'a> {
    ghost shown = { λ f. f.counts };

    fn snapshot(&self) -> Driven {
        self.counts()
    }

    fn shows(&self, snapshot: Driven) -> bool {
        self.counts() == snapshot
    }
}

impl<'a> Numbered<Tally, TALLY_NUMBERS> for ControllerFlow<'a> {
    ghost shown = { λ f. f.tally };

    fn snapshot(&self) -> Tally {
        self.tally()
    }

    fn shows(&self, snapshot: Tally) -> bool {
        self.tally() == snapshot
    }
}
