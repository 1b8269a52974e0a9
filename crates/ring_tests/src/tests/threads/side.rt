//! Two sides of two rings, each in a thread.

use crate::tests::threads::frames::Frames;
use rx_ring::RxRing;
use std::sync::Wait;
use std::thread;
use std::thread::Threads;
use tx_ring::TxRing;

/// The data that both sides share: the receive ring, the transmit ring, and the frames.
#[derive(Drop)]
pub(crate) struct Shared {
    pub from: RxRing,
    pub to: TxRing,
    pub frames: Frames,
}

/// The number of idle turns after which a side yields. On a processor of its own, the other side has mostly progressed
/// by then.
const TRIES: u32 = 10_000;

/// The work of one thread with its ends of both rings.
pub(crate) trait ThreadSide {
    ghost use Rattle.ring_tests.specs.declared.tests.threads.side.Shared.{Shared};

    /// Its ends belong to these rings.
    ghost is_of: { Shared → Self → Type 0 };

    /// Progresses as far as it can without waiting, and returns whether it did anything.
    fn turn(&mut self, shared: &Shared) -> bool
        requires { is_of shared.now self.old }
        ensures { is_of shared.now self.new };

    /// Whether it is done.
    fn is_over(&self) -> bool;
}

/// The epochs of a queue, as its controller sees them.
#[derive(Default, Drop)]
pub(crate) struct Epochs {
    on: bool,
    /// How many ended.
    pub ended: u32,
}

impl Epochs {
    pub(crate) fn new() -> Epochs {
        Epochs {
            on: false,
            ended: 0,
        }
    }

    /// Notes whether the queue is on now, and returns whether an epoch begins.
    pub(crate) fn see(&mut self, on: bool) -> bool {
        let was_on = self.on;
        self.on = on;
        if was_on && !on {
            self.ended = self.ended.saturating_add(1);
        }
        on && !was_on
    }
}

/// Gives a side turns until it is done.
pub(crate) fn run<R: Wait, S: ThreadSide + Drop>(rt: &R, shared: &Shared, mut side: S) -> S
    requires { S.is_of shared.now side }
    ensures { S.is_of shared.now result }
{
    let mut tries = 0;
    for _ in rt.forever() {
        if side.is_over() {
            break;
        }
        if side.turn(shared) {
            tries = 0;
        } else if tries < TRIES {
            tries += 1;
        } else {
            thread::yield_now();
            tries = 0;
        }
    }
    side
}

/// Gives two sides turns, each in a thread of its own, until both are done.
pub(crate) fn run_both<
    R: Threads + Wait + Sync,
    A: ThreadSide + Drop + Send,
    B: ThreadSide + Drop + Send,
>(rt: &R, shared: &Shared, one: A, other: B) -> (A, B)
    requires one { A.is_of shared.now one }
    requires other { B.is_of shared.now other }
    ensures one { A.is_of shared.now result.0 }
    ensures other { B.is_of shared.now result.1 }
{
    thread::join(rt, || run(rt, shared, one), || run(rt, shared, other))
}
