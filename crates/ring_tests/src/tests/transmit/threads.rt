//! Real threads on one ring of 8, in both completions.
ghost use Rattle.std.specs.Prelude.{◌≡◌};

mod hands;

use crate::tests::back::Back;
use crate::tests::wanted::{holds, same};
use crate::{Closed, full_stash};
use buffer_pool::{Buf, Stash};
use hands::{Passed, ask_for, drain, fetch, left, renew, serve, transmit};
use std::alloc::Global;
use std::process::Abort;
use std::sync::Wait;
use std::thread;
use std::thread::Threads;
use tx_ring::{Completion, Control, TxControllerEnd, TxDriverEnd, TxRing, close, meet_tx};

/// The number of frames posted in one epoch; the last asks for a report.
const FRAMES: u32 = 300;

/// The plan of the two threads.
#[derive(Clone, Copy)]
enum Plan {
    /// This many epochs. In each, the driver waits until the given number of frames is cleaned.
    Epochs(u32, u32),
    /// The queue is not disabled. The given numbers of frames are posted, sent and cleaned.
    On(u32, u32, u32),
}

/// A driver's end with the spare buffers and its thread's report.
#[derive(Drop)]
struct Driving {
    end: TxDriverEnd,
    spare: Stash,
    /// The frames whose buffers came back, cleaned and then reclaimed, in all epochs.
    back: Passed,
    /// How many frames were not sent in all epochs, if known for each.
    left: Option<u32>,
}

/// A controller's end with the buffer that it holds, and the frames that it sent in all.
#[derive(Drop)]
struct Serving {
    end: TxControllerEnd,
    held: Option<Buf>,
    sent: Passed,
}

/// The sum of both numbers, if both are known.
fn sum_of(before: Option<u32>, more: Option<u32>) -> Option<u32> {
    Some(before?.saturating_add(more?))
}

/// Enables the queue, posts `posts` frames and cleans `cleans`. Returns the cleaned frames.
fn posts_on<R: Wait>(rt: &R, ring: &TxRing, side: &mut Driving, posts: u32, cleans: u32) -> Passed
    requires { side.old.end.table ≡ ring.now }
    ensures { side.new.end.table ≡ ring.now }
{
    let (driver, spare) = (&mut side.end, &mut side.spare);
    ask_for(rt, ring, driver, Control::Enabled);
    let mut cleaned = transmit(rt, ring, driver, spare, posts);
    drain(rt, ring, driver, spare, &mut cleaned, cleans);
    cleaned
}

/// The driver's side of one epoch. Waits until `waits_for` frames are cleaned, and leaves the rest to the disabling.
fn epoch<R: Wait>(rt: &R, ring: &TxRing, side: &mut Driving, waits_for: u32)
    requires { side.old.end.table ≡ ring.now }
    ensures { side.new.end.table ≡ ring.now }
{
    let mut back = posts_on(rt, ring, side, FRAMES, waits_for);
    let (driver, spare) = (&mut side.end, &mut side.spare);
    ask_for(rt, ring, driver, Control::Disabled);
    side.left = sum_of(side.left, left(ring, driver));
    renew(ring, driver, spare, &mut back);
    side.back = side.back.then(back);
}

/// The driver's side of `epochs` epochs.
fn drive_epochs<R: Wait>(rt: &R, ring: &TxRing, side: &mut Driving, epochs: u32, waits_for: u32)
    requires { side.old.end.table ≡ ring.now }
    ensures { side.new.end.table ≡ ring.now }
{
    for _ in 0..epochs {
        epoch(rt, ring, side, waits_for);
    }
}

/// The driver's side of the plan.
fn drive<R: Wait>(rt: &R, ring: &TxRing, mut side: Driving, plan: Plan) -> Driving
    requires { side.end.table ≡ ring.now }
    ensures { result.end.table ≡ ring.now }
{
    match plan {
        Plan::Epochs(epochs, waits_for) => drive_epochs(rt, ring, &mut side, epochs, waits_for),
        Plan::On(posts, _, cleans) => side.back = posts_on(rt, ring, &mut side, posts, cleans),
    }
    side
}

/// The controller's side of `epochs` epochs. Returns all frames sent.
fn control_epochs<R: Wait>(rt: &R, ring: &TxRing, end: &mut TxControllerEnd, epochs: u32) -> Passed
    requires { end.old.table ≡ ring.now }
    ensures { end.new.table ≡ ring.now }
{
    let mut sent = Passed::NONE;
    for _ in 0..epochs {
        sent = sent.then(serve(rt, ring, end, u32::MAX));
    }
    sent
}

/// The controller's side of the plan. If not all frames are sent, it holds one more buffer.
fn control<R: Wait>(rt: &R, ring: &TxRing, mut side: Serving, plan: Plan) -> Serving
    requires { side.end.table ≡ ring.now }
    ensures { result.end.table ≡ ring.now }
{
    match plan {
        Plan::Epochs(epochs, _) => side.sent = control_epochs(rt, ring, &mut side.end, epochs),
        Plan::On(posts, sends, _) => {
            side.sent = serve(rt, ring, &mut side.end, sends);
            if sends < posts {
                side.held = Some(fetch_when_ready(rt, ring, &mut side.end));
            }
        }
    }
    side
}

/// Fetches a buffer as soon as one is ready.
fn fetch_when_ready<R: Wait>(rt: &R, ring: &TxRing, controller: &mut TxControllerEnd) -> Buf
    requires { controller.old.table ≡ ring.now }
    ensures { controller.new.table ≡ ring.now }
{
    for _ in rt.forever() {
        if let Some((held, _)) = fetch(ring, controller) {
            return held;
        }
        thread::yield_now();
    }
    unreachable!()
}

/// The results of both threads: the frames sent, the number not sent, the frames back with the driver, and the buffers
/// that the closed ring returned.
#[derive(Clone, Copy)]
struct Ran {
    sent: Passed,
    left: Option<u32>,
    back: Passed,
    closed: Back,
}

/// Lets the ends meet, and closes the ring.
fn close_both(ring: TxRing, mut serving: Serving, mut driving: Driving) -> Ran
    requires serves { serving.end.table ≡ ring }
    requires drives { driving.end.table ≡ ring }
{
    meet_tx(&ring, &mut driving.end, &mut serving.end);
    let (sent, left, back) = (serving.sent, driving.left, driving.back);
    let slots = close(ring, driving.end, serving.end);
    Ran {
        sent,
        left,
        back,
        closed: Back::of(Closed::of(slots, driving.spare, serving.held)),
    }
}

/// Runs both sides of a new ring of 8 with 16 buffers, each in its own thread. Then lets the ends meet and closes the
/// ring.
fn run<R: Threads + Wait + Sync + Abort>(
    rt: &R,
    alloc: Global,
    completion: Completion,
    plan: Plan,
) -> Ran {
    let spare = full_stash(alloc, 16).expect(rt, "buffers");
    let (ring, driver, controller) = TxRing::new_with(alloc, 8, completion).expect(rt, "a ring");
    let driving = Driving {
        end: driver,
        spare,
        back: Passed::NONE,
        left: Some(0),
    };
    let serving = Serving {
        end: controller,
        held: None,
        sent: Passed::NONE,
    };
    let (serving, driving) = thread::join(
        rt,
        || control(rt, &ring, serving, plan),
        || drive(rt, &ring, driving, plan),
    );
    close_both(ring, serving, driving)
}

const BOTH_WAYS: [Completion; 2] = [Completion::Status, Completion::Head];

/// Ten epochs, in each of which the queue is disabled while frames are sent.
#[test]
fn stop_while_running(rt: HostRuntime) {
    for completion in BOTH_WAYS {
        let ran = run(&rt, rt.alloc(), completion, Plan::Epochs(10, 0));
        let Passed { count, good } = ran.sent;
        same(&rt, good, count);
        same(&rt, ran.left, (10 * FRAMES).checked_sub(count));
        holds(&rt, ran.left.is_some());
        same(&rt, (ran.back.good, ran.closed.lying), (10 * FRAMES, 0));
    }
}

/// Three epochs, in each of which all frames are sent and cleaned.
#[test]
fn three_epochs(rt: HostRuntime) {
    for completion in BOTH_WAYS {
        let ran = run(&rt, rt.alloc(), completion, Plan::Epochs(3, FRAMES));
        same(
            &rt,
            (ran.sent.good, ran.back.good),
            (3 * FRAMES, 3 * FRAMES),
        );
        same(&rt, ran.left, Some(0));
        holds(&rt, ran.closed.is_whole);
    }
}

/// The last frame asks for no report.
#[test]
fn two_threads_tx(rt: HostRuntime) {
    for completion in BOTH_WAYS {
        let ran = run(&rt, rt.alloc(), completion, Plan::On(1_000, 1_000, 999));
        let told = (ran.sent.good, ran.back.good, ran.closed.lying);
        same(&rt, told, (1_000, 999, 1));
    }
}

/// A queue that nobody disables is closed while its controller holds a buffer.
#[test]
fn closed(rt: HostRuntime) {
    for completion in BOTH_WAYS {
        let ran = run(&rt, rt.alloc(), completion, Plan::On(40, 37, 36));
        same(&rt, (ran.sent.good, ran.back.good), (37, 36));
        let Back {
            lying,
            at_hand,
            held,
            is_whole,
        } = ran.closed;
        same(&rt, (at_hand, lying, held), (12, 3, true));
        holds(&rt, is_whole);
    }
}
