//! Drivers beside a device with controllers.
ghost use Rattle.std.specs.Prelude.{◌≡◌, ◌<◌};
ghost use Rattle.controller.specs.Receiving.{IsIdle as IsIdleRx};
ghost use Rattle.controller.specs.Transmitting.{IsIdle as IsIdleTx};

use crate::full_stash;
use crate::tests::threads::device::{Device, DeviceSink, DeviceSource};
use crate::tests::threads::forwarder::{Ends, Forwarder, Plan};
use crate::tests::threads::frames::{Frames, Lens};
use crate::tests::threads::rings::Rings;
use crate::tests::threads::side::{Shared, run_both};
use crate::tests::wanted::holds;
use buffer_pool::Stash;
use controller::{RxController, Tally, TxController, Wire};
use rx_ring::{ControllerEnd, RxControllerEnd};
use std::alloc::Global;
use std::process::Abort;
use std::sync::Wait;
use std::thread::Threads;
use tx_ring::{Completion, TxControllerEnd};

/// The parameters of a run.
#[derive(Clone, Copy, Drop)]
struct Case {
    n: u32,
    /// Whether buffers are filled to 2,048 bytes, or to 1,024.
    large: bool,
    drop_en: bool,
    lens: Lens,
    completion: Completion,
    epochs: u32,
    /// How many frames are offered at least in each epoch.
    frames: u32,
}

/// Whether the frames with these numbers are on the wire, in order, and no others.
fn carries(wire: &Wire, frames: &Frames, numbers: &[u32]) -> bool {
    let mut k = 0usize;
    for sent in wire.iter() {
        let Some(number) = numbers.get(k) else {
            return false;
        };
        if frames.frame(*number) != sent {
            return false;
        }
        k = k.saturating_add(1);
    }
    k == numbers.len()
}

/// The counts, if all stored frames were taken and sent, and nothing was refused.
fn seen(forwarder: &Forwarder, device: &Device, frames: &Frames) -> Option<Tally> {
    let (source, sink) = (&device.source, &device.sink);
    let stored = source.stored.len();
    let is_whole = forwarder.taken == stored
        && forwarder.sent == stored
        && carries(&sink.wire, frames, source.stored.as_slice());
    let is_counted = source.seen.stored == stored as u64
        && source.seen == source.controller.tally();
    if is_whole && is_counted && !source.refused && !sink.refused {
        Some(source.seen)
    } else {
        None
    }
}

/// The device of a case, with these ends.
fn device(alloc: Global, case: &Case, stores: RxControllerEnd, sends: TxControllerEnd) -> Device
    requires stores { IsIdleRx stores }
    requires sends { IsIdleTx sends }
    ensures stores { result.source.controller.end ≡ stores }
    ensures sends { result.sink.controller ≡ sends }
{
    let bsize = if case.large { 2_048 } else { 1_024 };
    let controller = RxController::new(stores, bsize, case.drop_en);
    let source = DeviceSource::new(alloc, controller, case.frames);
    let sink = DeviceSink::new(alloc, TxController::new(sends));
    Device {
        source,
        sink,
        most: case.epochs,
    }
}

/// Both sides of a case over these rings.
fn sides(alloc: Global, case: &Case, rings: Rings, stash: Stash) -> (Shared, Forwarder, Device)
    ensures forwarder { (result.1.taking.driver.end.table ≡ result.0.from) × (result.1.sending.driver.end.table ≡ result.0.to) }
    ensures device { (result.2.source.controller.end.table ≡ result.0.from) × (result.2.sink.controller.table ≡ result.0.to) }
{
    let plan = Plan {
        batch: 7,
        ends: Ends::WhenQuiet,
        epochs: case.epochs,
    };
    let _size = rings.stores.size();
    let forwarder = Forwarder::new(rings.takes, rings.posts, stash, plan);
    let device = device(alloc, case, rings.stores, rings.sends);
    (rings.shared, forwarder, device)
}

/// Runs both sides, and returns the counts if all was correct.
fn counted<R: Threads + Wait + Sync + Abort>(rt: &R, alloc: Global, case: Case) -> Option<Tally> {
    let stash = full_stash(alloc, 128).expect(rt, "buffers");
    let rings = Rings::new(rt, alloc, case.n, case.completion, case.lens);
    let (shared, forwarder, device) = sides(alloc, &case, rings, stash);
    let (forwarder, device) = run_both(rt, &shared, forwarder, device);
    let tally = seen(&forwarder, &device, &shared.frames);
    drop(shared);
    drop(forwarder);
    drop(device);
    tally
}

/// The number of places of the rings, and whether frames without a descriptor are dropped.
const RINGS: &[(u32, bool)] = &[(8, false), (64, false), (8, true), (64, true)];

/// Checks that all stored frames are sent, in three epochs.
fn all_goes_out<R: Threads + Wait + Sync + Abort>(
    rt: &R,
    alloc: Global,
    completion: Completion,
    (n, drop_en): (u32, bool),
) {
    let case = Case {
        n,
        large: n == 8,
        drop_en,
        lens: Lens::of_ring(n),
        completion,
        epochs: 3,
        frames: 3_334,
    };
    let tally = counted(rt, alloc, case).expect(rt, "another wire or count");
    holds(rt, tally.offered >= 10_002 && tally.oversize == 0);
    holds(rt, drop_en || tally.dropped == 0);
}

#[test]
fn all_that_is_stored_goes_out(rt: HostRuntime) {
    for ring in RINGS {
        all_goes_out(&rt, rt.alloc(), Completion::Status, *ring);
        all_goes_out(&rt, rt.alloc(), Completion::Head, *ring);
    }
}

/// Every second frame is too long for a ring of 8 with small buffers, and all others are sent.
const OVERSIZE: Case = Case {
    n: 8,
    large: false,
    drop_en: false,
    lens: Lens::InTurn(9_000, 60),
    completion: Completion::Status,
    epochs: 1,
    frames: 200,
};

const HALF: Tally = Tally {
    offered: 200,
    stored: 100,
    dropped: 0,
    oversize: 100,
};

#[test]
fn oversize_frames_between_others(rt: HostRuntime) {
    for completion in [Completion::Status, Completion::Head] {
        let case = Case {
            completion,
            ..OVERSIZE
        };
        holds(&rt, counted(&rt, rt.alloc(), case) == Some(HALF));
    }
}
