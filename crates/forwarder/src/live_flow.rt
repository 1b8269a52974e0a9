//! A flow with its cell.
ghost use Rattle.std.specs.Prelude.{◌≡◌};
ghost use Rattle.forwarder.specs.LiveStatistics.{GoesOnFrom};

use crate::numbered::Numbered;
use counters::{SnapshotCell, SnapshotPen, Totals};
use forwarding::{Flow, ForwardError, Gate, Progress};
use std::marker::Model;
use std::sync::Wait;

/// A flow, the cell that shows its numbers, and the pen of that cell. The cell goes on from the numbers that it showed
/// when the flow began. Its key is the flow's key, the cell, and these numbers.
#[derive(Drop)]
pub struct LiveFlow<'a, F: Numbered<T, N>, T: Totals<N> + Send, const N: usize> {
    flow: F,
    cell: &'a SnapshotCell<T, N>,
    pen: SnapshotPen<T, N>,
    base: T,
}

impl<'a, F: Numbered<T, N>, T: Totals<N> + Send, const N: usize> Model for LiveFlow<'a, F, T, N> {
    ghost use Rattle.std.specs.Prelude.{◌≡◌};
    ghost use Rattle.counters.specs.Snapshots.{AreCounts};
    ghost use Rattle.forwarder.specs.LiveStatistics.{LiveFlow};

    ghost Value = { LiveFlow F T };

    ghost view = { λ w. record { flow = w.flow; pen = w.pen; base = w.base } };

    ghost invariant = { λ w. (w.pen.cell ≡ w.cell.now) × T.lawful w.base × (AreCounts (T.words (T.sum w.base (F.shown w.flow))) → w.pen.last ≡ T.sum w.base (F.shown w.flow)) };
}

impl<'a, F: Numbered<T, N>, T: Totals<N> + Send, const N: usize> LiveFlow<'a, F, T, N> {
    /// A watched flow that has counted nothing yet.
    pub fn new<R: Wait>(
        rt: &R,
        flow: F,
        cell: &'a SnapshotCell<T, N>,
        mut pen: SnapshotPen<T, N>,
    ) -> LiveFlow<'a, F, T, N>
        requires own { pen.cell ≡ cell.now }
        requires fresh { F.shown flow ≡ T.opening }
        ensures flow { result.flow ≡ flow }
        ensures pen { result.pen ≡ pen }
        ensures base { result.base ≡ pen.last }
    {
        let base = cell.last(rt, &mut pen);
        LiveFlow {
            flow,
            cell,
            pen,
            base,
        }
    }

    /// Returns the flow, in any state, and the pen.
    pub fn into_parts(self) -> (F, SnapshotPen<T, N>)
        ensures flow { result.0 ≡ self.entry.flow }
        ensures pen { result.1 ≡ self.entry.pen }
        ensures shown { GoesOnFrom T.words T.sum T.opening self.entry.base (F.shown result.0) result.1.last }
    {
        let _now = self.flow.snapshot(); // which says that its numbers are counts
        (self.flow, self.pen)
    }
}

impl<'a, F: Numbered<T, N>, T: Totals<N> + Send, const N: usize> Flow for LiveFlow<'a, F, T, N> {
    ghost use Rattle.atomic_table.specs.Seated.{TableId};

    ghost Key = { F.Key × (TableId × T) };

    ghost key = { λ w. (F.key w.flow, (w.pen.cell, w.base)) };

    ghost over = { λ w. F.over w.flow };

    ghost numbers = { λ w. F.numbers w.flow };

    ghost turned = { λ answers old result new. F.turned answers old.flow result new.flow };

    fn turn<R: Wait, G: Gate>(&mut self, rt: &R, gate: &G) -> Result<Progress, ForwardError> {
        let was = self.flow.snapshot();
        let turned = self.flow.turn(rt, gate);
        if !self.flow.shows(was) {
            let total = self.base.plus(self.flow.snapshot());
            if let Some(total) = total {
                self.cell.write(rt, &mut self.pen, total);
            }
        }
        turned
    }

    fn is_over(&self) -> bool {
        self.flow.is_over()
    }
}
