//! The cells of flows.
ghost use Rattle.std.specs.Prelude.{◌≡◌, vec_len, IfOk, IfErr};
ghost use Rattle.counters.specs.Paired.{ArePaired, ArePensOf, IsFresh};
ghost use Rattle.refusals.specs.declared.errors.CounterError.TheVariants.{Memory};

use crate::{DriveCell, DrivePen, StatCell, StatPen};
use refusals::CounterError;
use std::alloc::Global;

/// The cells of a flow. Threads share them.
#[derive(Drop)]
pub struct FlowCells {
    /// The controller's cell.
    pub stat: StatCell,
    /// The driver's cell.
    pub drive: DriveCell,
}

/// The pens of a flow's cells. Readers take passes from the pens before these go to the workers.
#[derive(Drop)]
pub struct FlowPens {
    /// The pen of the controller's cell.
    pub stat: StatPen,
    /// The pen of the driver's cell.
    pub drive: DrivePen,
}

impl FlowCells {
    /// The cells of `count` flows, and their pens, in the order of the flows. Returns `CounterError::Memory` only if
    /// memory was refused.
    pub fn of(alloc: Global, count: usize) -> Result<(Vec<FlowCells>, Vec<FlowPens>), CounterError>
        ensures refused { IfErr result (λ e. e ≡ Memory) }
        ensures count { IfOk result (λ made. vec_len made.0 ≡ count) }
        ensures pens { IfOk result (λ made. ArePaired made.0.items made.1.items) }
        ensures own { IfOk result (λ made. ArePensOf made.0.items made.1.items) }
    {
        let mut cells = Vec::with_capacity(alloc, count)?;
        let mut pens = Vec::with_capacity(alloc, count)?;
        for _ in 0..count {
            let (flow, its_pens) = flow(alloc)?;
            cells.push_reserved(flow);
            pens.push_reserved(its_pens);
        }
        Ok((cells, pens))
    }
}

/// The cells of one flow, and their pens.
fn flow(alloc: Global) -> Result<(FlowCells, FlowPens), CounterError>
    ensures refused { IfErr result (λ e. e ≡ Memory) }
    ensures pens { IfOk result (λ made. IsFresh made.0 made.1) }
{
    let (stat, stat_pen) = StatCell::with_pen(alloc)?;
    let (drive, drive_pen) = DriveCell::with_pen(alloc)?;
    let cells = FlowCells { stat, drive };
    let pens = FlowPens {
        stat: stat_pen,
        drive: drive_pen,
    };
    Ok((cells, pens))
}
