//! Drivers beside a device that is played with the rings' own ends.
ghost use Rattle.std.specs.Prelude.{◌≡◌, ◌<◌, ◌≤◌};

use crate::tests::threads::forwarder::{Ends, Forwarder, Plan};
use crate::tests::threads::frames::Lens;
use crate::tests::threads::played::{Coming, Heard, Hearing, Played, Storing};
use crate::tests::threads::rings::Rings;
use crate::tests::threads::side::{Shared, run_both};
use crate::tests::wanted::same;
use crate::{Closed, Storer, full_stash};
use buffer_pool::Stash;
use std::alloc::Global;
use std::process::Abort;
use std::sync::Wait;
use std::thread::Threads;
use tx_ring::Completion;

/// The number of buffers.
const BUFFERS: u32 = 128;

/// The number of epochs, and the least number of frames taken in each.
const EPOCHS: u32 = 3;

const FRAMES: usize = 3_334;

/// Both sides over these rings, in batches of `batch`.
fn sides(rings: Rings, stash: Stash, batch: usize) -> (Shared, Forwarder, Played)
    requires some { 0 < batch }
    requires few { batch ≤ 32 }
    ensures forwarder { (result.1.taking.driver.end.table ≡ result.0.from) × (result.1.sending.driver.end.table ≡ result.0.to) }
    ensures played { (result.2.storing.storer.controller.table ≡ result.0.from) × (result.2.hearing.end.table ≡ result.0.to) }
{
    let plan = Plan {
        batch,
        ends: Ends::After(FRAMES),
        epochs: EPOCHS,
    };
    let forwarder = Forwarder::new(rings.takes, rings.posts, stash, plan);
    let storing = Storing {
        storer: Storer::new(rings.stores),
        coming: Coming::default(),
    };
    let played = Played {
        storing,
        hearing: Hearing {
            end: rings.sends,
            heard: Heard::default(),
        },
        most: EPOCHS,
    };
    (rings.shared, forwarder, played)
}

/// Whether enough frames were taken, posted and sent, and each was sent as it was stored.
fn is_good(forwarder: &Forwarder, played: &Played) -> bool {
    forwarder.taken >= EPOCHS as usize * FRAMES
        && forwarder.sent == forwarder.taken
        && played.hearing.heard.frames == forwarder.sent
        && played.hearing.heard.bad == 0
}

/// Closes both rings, and returns whether their slots are empty and each buffer is back once.
fn closes(shared: Shared, forwarder: Forwarder, played: Played) -> bool
    requires forwarder { (forwarder.taking.driver.end.table ≡ shared.from) × (forwarder.sending.driver.end.table ≡ shared.to) }
    requires played { (played.storing.storer.controller.table ≡ shared.from) × (played.hearing.end.table ≡ shared.to) }
{
    let Shared { from, to, .. } = shared;
    let Forwarder {
        taking,
        sending,
        driver_buffers,
        ..
    } = forwarder;
    let Played {
        storing,
        hearing,
        ..
    } = played;
    let lying = tx_ring::close(to, sending.driver.into_end(), hearing.end);
    let is_empty = Closed::of(lying, Stash::new(), None).lying() == 0;
    let (end, _chain) = taking.driver.into_end();
    let slots = rx_ring::close(from, end, storing.storer.controller);
    let closed = Closed::of(slots, driver_buffers.stash, None);
    is_empty && closed.has_each_once(BUFFERS as usize)
}

/// Runs both sides over rings of `n` places, and closes the rings. Returns whether the frames and the closed rings were
/// correct.
fn passes<R: Threads + Wait + Sync + Abort>(
    rt: &R,
    alloc: Global,
    n: u32,
    batch: usize,
    completion: Completion,
) -> (bool, bool)
    requires some { 0 < batch }
    requires few { batch ≤ 32 }
{
    let stash = full_stash(alloc, BUFFERS).expect(rt, "buffers");
    let rings = Rings::new(rt, alloc, n, completion, Lens::of_ring(n));
    let (shared, forwarder, played) = sides(rings, stash, batch);
    let (forwarder, played) = run_both(rt, &shared, forwarder, played);
    let is_good = is_good(&forwarder, &played);
    (is_good, closes(shared, forwarder, played))
}

/// The same over rings of 8 and 64, in batches of 1, 7 and 32.
fn all_pass<R: Threads + Wait + Sync + Abort>(rt: &R, alloc: Global, completion: Completion) {
    for n in [8, 64] {
        for batch in [1, 7, 32] {
            let told = passes(rt, alloc, n, batch, completion);
            same(rt, (n, batch, told), (n, batch, (true, true)));
        }
    }
}

#[test]
fn frames_are_sent_on_in_order(rt: HostRuntime) {
    all_pass(&rt, rt.alloc(), Completion::Status)
}

#[test]
fn frames_are_sent_on_in_order_by_head(rt: HostRuntime) {
    all_pass(&rt, rt.alloc(), Completion::Head)
}
