//! Reads one flow's cells on a thread that does not write them.
ghost use Rattle.std.specs.Prelude.{◌≡◌};
ghost use Rattle.counters.specs.Paired.{IsFresh};

use counters::{DrivePass, FlowCells, FlowPens, StatPass};

/// A flow's cells with separate read passes.
#[derive(Drop)]
pub(crate) struct Reader<'c> {
    pub(crate) cells: &'c FlowCells,
    pub(crate) stat: StatPass,
    pub(crate) drive: DrivePass,
    pub(crate) ghost offered: { stat.cell ≡ cells.now.stat },
    pub(crate) ghost driven: { drive.cell ≡ cells.now.drive },
}

impl<'c> Reader<'c> {
    /// Creates a reader of a flow's cells, from pens that have written nothing.
    pub(crate) fn new(cells: &'c FlowCells, pens: &mut FlowPens) -> Reader<'c>
        requires pens { IsFresh cells.now pens.old }
        ensures same { pens.new ≡ pens.old }
        ensures cells { result.cells.now ≡ cells.now }
    {
        let stat = pens.stat.pass();
        let drive = pens.drive.pass();
        Reader { cells, stat, drive }
    }
}
