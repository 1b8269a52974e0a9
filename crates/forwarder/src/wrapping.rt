//! Joining flows with their cells, and separating them again.
ghost use Rattle.std.specs.Prelude.{◌≡◌, ◌≤◌, All, [], IfOk, length, map, vec_len, vec_capacity};
ghost use Rattle.counters.specs.Kinds.{none_taken, nothing};
ghost use Rattle.counters.specs.Paired.{ArePensOf};
ghost use Rattle.forwarder.specs.LiveStatistics.{DrivenGoesOn, TallyGoesOn};

use crate::live_flow::LiveFlow;
use counters::{DRIVEN_NUMBERS, Driven, FlowCells, FlowPens, TALLY_NUMBERS, Tally};
use flows::{ControllerFlow, DriverFlow};
use std::alloc::{AllocError, Global};
use std::sync::Wait;

/// Both sides of all flows, each with its cell, in the order of the flows.
#[derive(Drop)]
pub(crate) struct Wrapped<'a> {
    pub drivers: Vec<LiveFlow<'a, DriverFlow<'a>, Driven, DRIVEN_NUMBERS>>,
    pub controllers: Vec<LiveFlow<'a, ControllerFlow<'a>, Tally, TALLY_NUMBERS>>,
}

/// Both sides of all flows, and the pens that showed their numbers, in the order of the flows.
#[derive(Drop)]
pub(crate) struct Unwrapped<'a> {
    pub drivers: Vec<DriverFlow<'a>>,
    pub controllers: Vec<ControllerFlow<'a>>,
    pub pens: Vec<FlowPens>,
}

impl<'a> Wrapped<'a> {
    /// Room for `flows` flows.
    pub(crate) fn rooms(alloc: Global, flows: usize) -> Result<Wrapped<'a>, AllocError>
        ensures drivers { IfOk result (λ r. (r.drivers.items ≡ []) × (flows ≤ vec_capacity r.drivers)) }
        ensures controllers { IfOk result (λ r. (r.controllers.items ≡ []) × (flows ≤ vec_capacity r.controllers)) }
    {
        let drivers = Vec::with_capacity(alloc, flows)?;
        let controllers = Vec::with_capacity(alloc, flows)?;
        Ok(Wrapped {
            drivers,
            controllers,
        })
    }
}

impl<'a> Unwrapped<'a> {
    /// Room for `flows` flows.
    pub(crate) fn rooms(alloc: Global, flows: usize) -> Result<Unwrapped<'a>, AllocError>
        ensures drivers { IfOk result (λ r. (r.drivers.items ≡ []) × (flows ≤ vec_capacity r.drivers)) }
        ensures controllers { IfOk result (λ r. (r.controllers.items ≡ []) × (flows ≤ vec_capacity r.controllers)) }
        ensures pens { IfOk result (λ r. (r.pens.items ≡ []) × (flows ≤ vec_capacity r.pens)) }
    {
        let drivers = Vec::with_capacity(alloc, flows)?;
        let controllers = Vec::with_capacity(alloc, flows)?;
        let pens = Vec::with_capacity(alloc, flows)?;
        Ok(Unwrapped {
            drivers,
            controllers,
            pens,
        })
    }
}

/// Joins both sides of each flow with their cells, in room allocated before. No flow has counted anything yet.
pub(crate) fn wrap_all<'a, R: Wait>(
    rt: &R,
    drivers: Vec<DriverFlow<'a>>,
    controllers: Vec<ControllerFlow<'a>>,
    cells: &'a [FlowCells],
    pens: Vec<FlowPens>,
    mut rooms: Wrapped<'a>,
) -> Wrapped<'a>
    requires flows { (vec_len drivers ≡ length cells.now) × (vec_len controllers ≡ length cells.now) }
    requires count { vec_len pens ≡ length cells.now }
    requires pens { ArePensOf cells.now pens.items }
    requires counts { All (λ f. f.counts ≡ none_taken) drivers.items }
    requires tallies { All (λ f. f.tally ≡ nothing) controllers.items }
    requires none { (rooms.drivers.items ≡ []) × (rooms.controllers.items ≡ []) }
    requires room { (length cells.now ≤ vec_capacity rooms.drivers) × (length cells.now ≤ vec_capacity rooms.controllers) }
    ensures drivers { map (λ w. w.flow) result.drivers.items ≡ drivers.entry.items }
    ensures controllers { map (λ w. w.flow) result.controllers.items ≡ controllers.entry.items }
    ensures drive { map (λ w. w.pen.cell) result.drivers.items ≡ map (λ c. c.drive) cells.entry.now }
    ensures stat { map (λ w. w.pen.cell) result.controllers.items ≡ map (λ c. c.stat) cells.entry.now }
    ensures drive_base { map (λ w. w.base) result.drivers.items ≡ map (λ p. p.drive.last) pens.items }
    ensures stat_base { map (λ w. w.base) result.controllers.items ≡ map (λ p. p.stat.last) pens.items }
{
    let mut controllers = controllers.into_iter();
    let mut pens = pens.into_iter();
    let mut number = 0;
    for driver in drivers {
        let Some(controller) = controllers.next() else {
            unreachable!()
        };
        let Some(own) = pens.next() else {
            unreachable!()
        };
        let cell = &cells[number];
        rooms
            .drivers
            .push_reserved(LiveFlow::new(rt, driver, &cell.drive, own.drive));
        rooms
            .controllers
            .push_reserved(LiveFlow::new(rt, controller, &cell.stat, own.stat));
        number += 1;
    }
    rooms
}

/// Separates both sides of each flow from their cells, in room allocated before.
pub(crate) fn unwrap_all<'a>(
    drivers: Vec<LiveFlow<'a, DriverFlow<'a>, Driven, DRIVEN_NUMBERS>>,
    controllers: Vec<LiveFlow<'a, ControllerFlow<'a>, Tally, TALLY_NUMBERS>>,
    mut room: Unwrapped<'a>,
) -> Unwrapped<'a>
    requires flows { vec_len controllers ≡ vec_len drivers }
    requires none { (room.drivers.items ≡ []) × (room.controllers.items ≡ []) × (room.pens.items ≡ []) }
    requires room { (vec_len drivers ≤ vec_capacity room.drivers) × (vec_len drivers ≤ vec_capacity room.controllers) × (vec_len drivers ≤ vec_capacity room.pens) }
    ensures drivers { result.drivers.items ≡ map (λ w. w.flow) drivers.entry.items }
    ensures controllers { result.controllers.items ≡ map (λ w. w.flow) controllers.entry.items }
    ensures drive { map (λ p. p.drive) result.pens.items ≡ map (λ w. w.pen) drivers.entry.items }
    ensures stat { map (λ p. p.stat) result.pens.items ≡ map (λ w. w.pen) controllers.entry.items }
    ensures driven { All (λ w. DrivenGoesOn w.base w.flow.counts w.pen.last) drivers.entry.items }
    ensures offered { All (λ w. TallyGoesOn w.base w.flow.tally w.pen.last) controllers.entry.items }
{
    let mut controllers = controllers.into_iter();
    for driver in drivers {
        let Some(controller) = controllers.next() else {
            unreachable!()
        };
        let (driver, drive) = driver.into_parts();
        let (controller, stat) = controller.into_parts();
        room.drivers.push_reserved(driver);
        room.controllers.push_reserved(controller);
        room.pens.push_reserved(FlowPens { stat, drive });
    }
    room
}
