//! Real threads on one ring of 8.
ghost use Rattle.std.specs.Prelude.{◌≡◌};
ghost use Rattle.rx_ring.specs.Ends.{reclaimed};

mod hands;

use crate::tests::back::Back;
use crate::tests::wanted::{holds, same};
use crate::{Closed, full_stash};
use buffer_pool::{Buf, Stash};
use hands::{ask_for, fetch, fill_ring, left, receive, reclaim_all, renew, serve};
use rx_ring::{Control, RxControllerEnd, RxDriverEnd, RxRing, close, meet_rx};
use std::alloc::Global;
use std::process::Abort;
use std::sync::Wait;
use std::thread;
use std::thread::Threads;

/// The number of frames in one epoch.
const FRAMES: u32 = 300;

/// The plan of the two threads.
#[derive(Clone, Copy)]
enum Plan {
    /// This many epochs, with a renewal after each. The ends meet before the ring is closed.
    Epochs(u32),
    /// The queue is not disabled. The given numbers of frames are stored and taken, and one more buffer is fetched.
    On(u32, u32),
}

/// The report of a driver's thread.
#[derive(Clone, Copy)]
struct Driven {
    /// How many frames were as expected.
    good: u32,
    /// How many segments were left to take in the last epoch.
    left: Option<u32>,
    /// How many buffers came back.
    back: u32,
    /// How many epochs ended with a renewal.
    epochs: u32,
}

impl Driven {
    const NOTHING: Driven = Driven {
        good: 0,
        left: None,
        back: 0,
        epochs: 0,
    };
}

/// A driver's end with the spare buffers and its thread's report.
#[derive(Drop)]
struct Driving {
    end: RxDriverEnd,
    spare: Stash,
    told: Driven,
}

/// A controller's end with the buffer that it holds, and the number of frames stored in the last epoch.
#[derive(Drop)]
struct Serving {
    end: RxControllerEnd,
    held: Option<Buf>,
    stored: u32,
}

/// One epoch of a driver: enables, uses and disables the queue, and takes the buffers back.
fn epoch<R: Wait>(
    rt: &R,
    ring: &RxRing,
    driver: &mut RxDriverEnd,
    spare: &mut Stash,
    told: &mut Driven,
)
    requires own { driver.old.table ≡ ring.now }
    requires fresh { reclaimed driver.old ≡ 0 }
    ensures { driver.new.table ≡ ring.now }
{
    fill_ring(ring, driver, spare);
    ask_for(rt, ring, driver, Control::Enabled);
    told.good = told.good.saturating_add(receive(rt, ring, driver, FRAMES));
    ask_for(rt, ring, driver, Control::Disabled);
    told.left = left(ring, driver);
    told.back = told.back.saturating_add(reclaim_all(ring, driver, spare));
}

/// The driver's side of `epochs` epochs.
fn drive_epochs<R: Wait>(
    rt: &R,
    ring: &RxRing,
    driver: &mut RxDriverEnd,
    spare: &mut Stash,
    epochs: u32,
) -> Driven
    requires own { driver.old.table ≡ ring.now }
    requires fresh { reclaimed driver.old ≡ 0 }
    ensures { driver.new.table ≡ ring.now }
{
    let mut told = Driven::NOTHING;
    for _ in 0..epochs {
        epoch(rt, ring, driver, spare, &mut told);
        if !renew(ring, driver) {
            break;
        }
        told.epochs = told.epochs.saturating_add(1);
    }
    told
}

/// The driver's side of a queue that nobody disables. Takes `takes` frames.
fn drive_on<R: Wait>(rt: &R, ring: &RxRing, side: &mut Driving, takes: u32)
    requires { side.old.end.table ≡ ring.now }
    ensures { side.new.end.table ≡ ring.now }
{
    fill_ring(ring, &mut side.end, &mut side.spare);
    ask_for(rt, ring, &mut side.end, Control::Enabled);
    side.told.good = receive(rt, ring, &mut side.end, takes);
}

/// The driver's side of the plan.
fn drive<R: Wait>(rt: &R, ring: &RxRing, mut side: Driving, plan: Plan) -> Driving
    requires own { side.end.table ≡ ring.now }
    requires fresh { reclaimed side.end ≡ 0 }
    ensures { result.end.table ≡ ring.now }
{
    match plan {
        Plan::Epochs(epochs) => {
            side.told = drive_epochs(rt, ring, &mut side.end, &mut side.spare, epochs);
        }
        Plan::On(_, takes) => drive_on(rt, ring, &mut side, takes),
    }
    side
}

/// The controller's side of `epochs` epochs. Returns the number of frames stored in the last.
fn control_epochs<R: Wait>(rt: &R, ring: &RxRing, end: &mut RxControllerEnd, epochs: u32) -> u32
    requires { end.old.table ≡ ring.now }
    ensures { end.new.table ≡ ring.now }
{
    let mut stored = 0;
    for _ in 0..epochs {
        stored = serve(rt, ring, end, u32::MAX);
    }
    stored
}

/// Fetches a buffer as soon as a descriptor is free.
fn fetch_when_free<R: Wait>(rt: &R, ring: &RxRing, controller: &mut RxControllerEnd) -> Buf
    requires { controller.old.table ≡ ring.now }
    ensures { controller.new.table ≡ ring.now }
{
    for _ in rt.forever() {
        if let Some(held) = fetch(ring, controller) {
            return held;
        }
        thread::yield_now();
    }
    unreachable!()
}

/// The controller's side of the plan.
fn control<R: Wait>(rt: &R, ring: &RxRing, mut side: Serving, plan: Plan) -> Serving
    requires { side.end.table ≡ ring.now }
    ensures { result.end.table ≡ ring.now }
{
    match plan {
        Plan::Epochs(epochs) => side.stored = control_epochs(rt, ring, &mut side.end, epochs),
        Plan::On(stores, _) => {
            side.stored = serve(rt, ring, &mut side.end, stores);
            side.held = Some(fetch_when_free(rt, ring, &mut side.end));
        }
    }
    side
}

/// The results of both threads.
#[derive(Clone, Copy)]
struct Ran {
    told: Driven,
    /// How many frames the controller stored in the last epoch.
    stored: u32,
    back: Back,
}

/// Lets the ends meet if the queue was disabled.
fn meet(ring: &RxRing, serving: &mut Serving, driving: &mut Driving, plan: Plan)
    requires serves { serving.old.end.table ≡ ring.now }
    requires drives { driving.old.end.table ≡ ring.now }
    ensures serves { serving.new.end.table ≡ ring.now }
    ensures drives { driving.new.end.table ≡ ring.now }
{
    if let Plan::Epochs(_) = plan {
        meet_rx(ring, &mut driving.end, &mut serving.end);
    }
}

/// Closes the ring.
fn close_both(ring: RxRing, serving: Serving, driving: Driving) -> Ran
    requires serves { serving.end.table ≡ ring }
    requires drives { driving.end.table ≡ ring }
{
    let (told, stored) = (driving.told, serving.stored);
    let slots = close(ring, driving.end, serving.end);
    Ran {
        told,
        stored,
        back: Back::of(Closed::of(slots, driving.spare, serving.held)),
    }
}

/// Runs both sides of a new ring of 8 with 16 buffers, each in its own thread, and then closes the ring.
fn run<R: Threads + Wait + Sync + Abort>(rt: &R, alloc: Global, plan: Plan) -> Ran {
    let spare = full_stash(alloc, 16).expect(rt, "buffers");
    let (ring, driver, controller) = RxRing::new(alloc, 8).expect(rt, "a ring");
    let driving = Driving {
        end: driver,
        spare,
        told: Driven::NOTHING,
    };
    let serving = Serving {
        end: controller,
        held: None,
        stored: 0,
    };
    let (mut serving, mut driving) = thread::join(
        rt,
        || control(rt, &ring, serving, plan),
        || drive(rt, &ring, driving, plan),
    );
    meet(&ring, &mut serving, &mut driving, plan);
    close_both(ring, serving, driving)
}

#[test]
fn stop_while_running(rt: HostRuntime) {
    let Ran { told, stored, .. } = run(&rt, rt.alloc(), Plan::Epochs(1));
    same(&rt, (told.good, told.back), (FRAMES, 7));
    same(&rt, told.left, stored.checked_sub(FRAMES));
    holds(&rt, told.left.is_some());
}

#[test]
fn three_epochs(rt: HostRuntime) {
    let Ran { told, back, .. } = run(&rt, rt.alloc(), Plan::Epochs(3));
    same(
        &rt,
        (told.good, told.back, told.epochs),
        (3 * FRAMES, 21, 3),
    );
    same(&rt, (back.lying, back.is_whole), (0, true));
}

#[test]
fn closed(rt: HostRuntime) {
    let Ran { told, back, .. } = run(&rt, rt.alloc(), Plan::On(45, 40));
    same(&rt, (told.good, back.at_hand, back.held), (40, 9, true));
    same(&rt, (back.lying, back.is_whole), (6, true));
}
