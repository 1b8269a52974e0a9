//! Reads the cells of all flows on a thread that does not write them.
ghost use Rattle.std.specs.Prelude.{◌≡◌, ◌≤◌, IfOk, map};
ghost use Rattle.counters.specs.Paired.{ArePaired};
ghost use Rattle.program.specs.ShownSums.{nothing_seen, read_by, sum_from, with_flow};

use crate::progress::reader::Reader;
use counters::{FlowCells, FlowPens};
use std::alloc::{AllocError, Global};
use std::sync::Wait;

/// The sums that were read.
#[derive(Clone, Copy)]
pub(crate) struct Seen {
    pub offered: u64,
    pub taken: u64,
    pub posted: u64,
}

impl Reader<'_> {
    /// Reads the flow's numbers and adds them to `seen`. A taken frame counts as offered, even if the controller has not
    /// written its cell since.
    fn add<R: Wait>(&mut self, rt: &R, seen: Seen) -> Seen
        ensures sum { result ≡ with_flow seen self.new }
        ensures order { seen.taken ≤ seen.offered → result.taken ≤ result.offered }
    {
        let driven = self.cells.drive.read(rt, &mut self.drive);
        let offered = self.cells.stat.read(rt, &mut self.stat);
        Seen {
            offered: seen
                .offered
                .saturating_add(offered.offered.max(driven.taken)),
            taken: seen.taken.saturating_add(driven.taken),
            posted: seen.posted.saturating_add(driven.posted),
        }
    }
}

/// Creates a reader for each flow.
pub(crate) fn readers_of<'c>(
    alloc: Global,
    cells: &'c [FlowCells],
    pens: &mut [FlowPens],
) -> Result<Vec<Reader<'c>>, AllocError>
    requires pens { ArePaired cells.now pens.old }
    ensures same { pens.new ≡ pens.old }
    ensures cells { IfOk result (λ readers. map read_by readers.items ≡ cells.now) }
{
    let mut readers = Vec::with_capacity(alloc, cells.len())?;
    for k in 0..cells.len() {
        readers.push(Reader::new(&cells[k], &mut pens[k]))?;
    }
    Ok(readers)
}

/// Reads all flows and returns the sums. No more frames are taken than offered.
pub(crate) fn read_all<R: Wait>(rt: &R, readers: &mut [Reader<'_>]) -> Seen
    ensures sum { result ≡ sum_from nothing_seen readers.new }
    ensures order { result.taken ≤ result.offered }
{
    let mut seen = Seen {
        offered: 0,
        taken: 0,
        posted: 0,
    };
    for reader in readers.iter_mut() {
        seen = reader.add(rt, seen);
    }
    seen
}
