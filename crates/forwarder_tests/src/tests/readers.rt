//! Passes that read the cells of flows.
ghost use Rattle.std.specs.Prelude.{◌≡◌};
ghost use Rattle.counters.specs.Paired.{ArePaired, IsFresh};

use counters::{DrivePass, FlowCells, FlowCounters, FlowPens, StatPass};
use flows::FlowReport;
use std::alloc::Global;
use std::process::Abort;
use std::sync::Wait;

/// A flow's cells, with passes that know of no write.
#[derive(Drop)]
pub(crate) struct Reader<'c> {
    pub cells: &'c FlowCells,
    pub stat: StatPass,
    pub drive: DrivePass,
    ghost offered: { stat.cell ≡ cells.now.stat },
    ghost driven: { drive.cell ≡ cells.now.drive },
}

impl<'c> Reader<'c> {
    /// A reader of a flow's cells. The pens have written nothing, and do not change.
    fn new(cells: &'c FlowCells, pens: &mut FlowPens) -> Reader<'c>
        requires pens { IsFresh cells.now pens.old }
        ensures same { pens.new ≡ pens.old }
    {
        let stat = pens.stat.pass();
        let drive = pens.drive.pass();
        Reader { cells, stat, drive }
    }

    /// Whether both cells have the numbers of the report now.
    pub(crate) fn sees<R: Wait>(&mut self, rt: &R, report: &FlowReport) -> bool {
        let offered = self.cells.stat.read(rt, &mut self.stat);
        let driven = self.cells.drive.read(rt, &mut self.drive);
        offered == report.tally && driven == report.driven
    }

    /// Whether both cells have twice the numbers of the report now.
    pub(crate) fn sees_twice<R: Wait>(&mut self, rt: &R, report: &FlowReport) -> bool {
        let offered = self.cells.stat.read(rt, &mut self.stat);
        let driven = self.cells.drive.read(rt, &mut self.drive);
        let shown = FlowCounters {
            tally: offered,
            driven,
        };
        let mut good = true;
        for (now, once) in shown
            .entries()
            .iter()
            .zip(report.counters().entries().iter())
        {
            good &= now.value == once.value.saturating_mul(2);
        }
        good
    }
}

/// A reader of each flow.
pub(crate) fn readers_of<'c, R: Abort>(
    rt: &R,
    alloc: Global,
    cells: &'c [FlowCells],
    pens: &mut [FlowPens],
) -> Vec<Reader<'c>>
    requires pens { ArePaired cells.now pens.old }
    ensures same { pens.new ≡ pens.old }
{
    let mut readers = Vec::with_capacity(alloc, cells.len()).expect(rt, "readers");
    for k in 0..cells.len() {
        readers
            .push(Reader::new(&cells[k], &mut pens[k]))
            .expect(rt, "a reader");
    }
    readers
}
