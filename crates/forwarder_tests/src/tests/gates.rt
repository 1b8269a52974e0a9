//! Gates that hold workers back, and gates that refuse.
ghost use Rattle.std.specs.Prelude.{◌≡◌};

use forwarding::{Event, Gate, Who};
use std::sync::atomic::{AtomicBool, AtomicU64, Ordering};
use std::thread;

/// How often a gate looks in vain before it lets its worker pass.
const LIMIT: u32 = 1_000_000;

/// Waits until the flag is set, within the limit. Returns whether it is.
pub(crate) fn wait_for(flag: &AtomicBool) -> bool {
    for _ in 0..LIMIT {
        if flag.load(Ordering::SeqCst) {
            return true;
        }
        thread::yield_now();
    }
    false
}

/// Waits until the number is reached, within the limit. Returns whether it is.
fn wait_until(number: &AtomicU64, least: u64) -> bool {
    for _ in 0..LIMIT {
        if number.load(Ordering::SeqCst) >= least {
            return true;
        }
        thread::yield_now();
    }
    false
}

/// Flow 0's receive batches and its offers wait for one another, before the first of either.
#[derive(Drop)]
pub(crate) struct Meeting {
    batch: AtomicBool,
    offer: AtomicBool,
}

impl Meeting {
    pub(crate) fn new() -> Meeting {
        Meeting {
            batch: AtomicBool::new(false),
            offer: AtomicBool::new(false),
        }
    }

    /// Whether both arrived.
    pub(crate) fn took_place(&self) -> bool {
        self.batch.load(Ordering::SeqCst) && self.offer.load(Ordering::SeqCst)
    }
}

impl Gate for Meeting {
    ghost use Rattle.std.specs.Prelude.{◌≡◌};

    ghost answers = { λ _ _ _ b. b ≡ b };

    fn pass(&self, who: Who, event: Event) -> bool {
        match (who, event) {
            (Who::Driver(0), Event::RxBatch) => {
                self.batch.store(true, Ordering::SeqCst);
                wait_for(&self.offer)
            }
            (Who::Controller(0), Event::Offer) => {
                self.offer.store(true, Ordering::SeqCst);
                wait_for(&self.batch)
            }
            _ => true,
        }
    }
}

/// Flow 0's first receive batch waits for flow 0's first transmit turn after `most` offers.
#[derive(Drop)]
pub(crate) struct After {
    most: u64,
    offers: AtomicU64,
    over: AtomicBool,
    late: AtomicBool,
}

impl After {
    pub(crate) fn new(most: u64) -> After {
        After {
            most,
            offers: AtomicU64::new(0),
            over: AtomicBool::new(false),
            late: AtomicBool::new(false),
        }
    }

    /// Whether that turn happened within the limit.
    pub(crate) fn was_in_time(&self) -> bool {
        self.over.load(Ordering::SeqCst) && !self.late.load(Ordering::SeqCst)
    }
}

impl Gate for After {
    ghost use Rattle.std.specs.Prelude.{◌≡◌, true};

    ghost answers = { λ _ _ _ b. b ≡ true };

    fn pass(&self, who: Who, event: Event) -> bool {
        match (who, event) {
            (Who::Driver(0), Event::RxBatch) => {
                if !wait_for(&self.over) {
                    self.late.store(true, Ordering::SeqCst);
                }
            }
            (Who::Controller(0), Event::Offer) => {
                self.offers.fetch_add(1, Ordering::SeqCst);
            }
            (Who::Controller(0), Event::TxTurn) => {
                if self.offers.load(Ordering::SeqCst) >= self.most {
                    self.over.store(true, Ordering::SeqCst);
                }
            }
            _ => {}
        }
        true
    }
}

/// A gate that returns true a number of times, and then refuses.
#[derive(Drop)]
pub(crate) struct Shuts {
    left: AtomicU64,
}

impl Shuts {
    pub(crate) fn after(left: u64) -> Shuts {
        Shuts {
            left: AtomicU64::new(left),
        }
    }

    /// How many more times it would return true.
    pub(crate) fn left(&self) -> u64 {
        self.left.load(Ordering::SeqCst)
    }
}

impl Gate for Shuts {
    ghost use Rattle.std.specs.Prelude.{◌≡◌};

    ghost answers = { λ _ _ _ b. b ≡ b };

    fn pass(&self, _who: Who, _event: Event) -> bool {
        self.left
            .fetch_update(Ordering::SeqCst, Ordering::SeqCst, |n| n.checked_sub(1))
            .is_ok()
    }
}

/// How long a driver stays at its gate after the refusal.
const STAY: u32 = 10_000;

/// A gate that refuses flow 0's first offer once `drivers` drivers are at their first receive batches. They stay there
/// for some time after that.
#[derive(Drop)]
pub(crate) struct Leaving {
    drivers: u64,
    came: AtomicU64,
    left: AtomicU64,
    refused: AtomicBool,
}

impl Leaving {
    pub(crate) fn new(drivers: u64) -> Leaving {
        Leaving {
            drivers,
            came: AtomicU64::new(0),
            left: AtomicU64::new(0),
            refused: AtomicBool::new(false),
        }
    }

    /// How many drivers came to the gate, and how many left it.
    pub(crate) fn came_and_left(&self) -> (u64, u64) {
        (
            self.came.load(Ordering::SeqCst),
            self.left.load(Ordering::SeqCst),
        )
    }
}

impl Gate for Leaving {
    ghost use Rattle.std.specs.Prelude.{◌≡◌};

    ghost answers = { λ _ _ _ b. b ≡ b };

    fn pass(&self, who: Who, event: Event) -> bool {
        match (who, event) {
            (Who::Driver(_), Event::RxBatch) => {
                self.came.fetch_add(1, Ordering::SeqCst);
                wait_for(&self.refused);
                for _ in 0..STAY {
                    thread::yield_now();
                }
                self.left.fetch_add(1, Ordering::SeqCst);
                true
            }
            (Who::Controller(0), Event::Offer) => {
                wait_until(&self.came, self.drivers);
                self.refused.store(true, Ordering::SeqCst);
                false
            }
            _ => true,
        }
    }
}

/// A gate that lets flow 1's frames be offered only once a reader has seen all previous ones. It refuses if that takes
/// too long.
#[derive(Drop)]
pub(crate) struct Paced {
    seen: AtomicU64,
    offers: AtomicU64,
}

impl Paced {
    pub(crate) fn new() -> Paced {
        Paced {
            seen: AtomicU64::new(0),
            offers: AtomicU64::new(0),
        }
    }

    /// Notes that `offers` offers were seen.
    pub(crate) fn see(&self, offers: u64) {
        self.seen.store(offers, Ordering::SeqCst);
    }
}

impl Gate for Paced {
    ghost use Rattle.std.specs.Prelude.{◌≡◌};

    ghost answers = { λ _ _ _ b. b ≡ b };

    fn pass(&self, who: Who, event: Event) -> bool {
        if (who, event) != (Who::Controller(1), Event::Offer) {
            return true;
        }
        wait_until(&self.seen, self.offers.fetch_add(1, Ordering::SeqCst))
    }
}

/// A gate that refuses flow 0's driver after `most` passes. It holds the driver back until three frames were offered.
#[derive(Drop)]
pub(crate) struct Stops {
    most: u64,
    passes: AtomicU64,
    offers: AtomicU64,
}

impl Stops {
    pub(crate) fn after(most: u64) -> Stops {
        Stops {
            most,
            passes: AtomicU64::new(0),
            offers: AtomicU64::new(0),
        }
    }
}

impl Gate for Stops {
    ghost use Rattle.std.specs.Prelude.{◌≡◌};

    ghost answers = { λ _ _ _ b. b ≡ b };

    fn pass(&self, who: Who, event: Event) -> bool {
        match (who, event) {
            (Who::Driver(0), _) => {
                wait_until(&self.offers, 3);
                self.passes.fetch_add(1, Ordering::SeqCst) < self.most
            }
            (Who::Controller(0), Event::Offer) => {
                self.offers.fetch_add(1, Ordering::SeqCst);
                true
            }
            _ => true,
        }
    }
}

/// A gate that refuses flow 0's driver once three of its turns in a row were within one offer: most likely it has taken
/// a part of a long frame then.
#[derive(Drop)]
pub(crate) struct Midway {
    /// Odd while a frame is offered.
    offers: AtomicU64,
    began: AtomicU64,
    turns: AtomicU64,
}

impl Midway {
    pub(crate) fn new() -> Midway {
        Midway {
            offers: AtomicU64::new(0),
            began: AtomicU64::new(0),
            turns: AtomicU64::new(0),
        }
    }

    /// Whether a turn ends now within the offer in which it began, after two such turns.
    fn is_midway(&self) -> bool {
        let now = self.offers.load(Ordering::SeqCst);
        if now % 2 == 0 || now != self.began.load(Ordering::SeqCst) {
            self.turns.store(0, Ordering::SeqCst);
            return false;
        }
        2 <= self.turns.fetch_add(1, Ordering::SeqCst)
    }
}

impl Gate for Midway {
    ghost use Rattle.std.specs.Prelude.{◌≡◌};

    ghost answers = { λ _ _ _ b. b ≡ b };

    fn pass(&self, who: Who, event: Event) -> bool {
        match (who, event) {
            (Who::Controller(0), Event::Offer) => {
                self.offers.fetch_add(1, Ordering::SeqCst);
            }
            (Who::Controller(0), Event::TxTurn) => {
                if self.offers.load(Ordering::SeqCst) % 2 == 1 {
                    self.offers.fetch_add(1, Ordering::SeqCst);
                }
            }
            (Who::Driver(0), Event::RxBatch) => {
                let now = self.offers.load(Ordering::SeqCst);
                self.began.store(now, Ordering::SeqCst);
            }
            (Who::Driver(0), Event::TxBatch) => return !self.is_midway(),
            _ => {}
        }
        true
    }
}

/// Counts the turns in which flow 1's driver came to its transmit batch, and sets a flag at one of them.
#[derive(Drop)]
pub(crate) struct Turns {
    made: AtomicU64,
    /// The turn at which the flag is set; 0 for none.
    at: u64,
    flag: AtomicBool,
}

impl Turns {
    pub(crate) fn new() -> Turns {
        Turns::with_flag_at(0)
    }

    pub(crate) fn with_flag_at(at: u64) -> Turns {
        Turns {
            made: AtomicU64::new(0),
            at,
            flag: AtomicBool::new(false),
        }
    }

    pub(crate) fn made(&self) -> u64 {
        self.made.load(Ordering::SeqCst)
    }

    pub(crate) fn flag(&self) -> &AtomicBool {
        &self.flag
    }
}

impl Gate for Turns {
    ghost use Rattle.std.specs.Prelude.{◌≡◌, true};

    ghost answers = { λ _ _ _ b. b ≡ true };

    fn pass(&self, who: Who, event: Event) -> bool {
        if let (Who::Driver(1), Event::TxBatch) = (who, event) {
            let before = self.made.fetch_add(1, Ordering::SeqCst);
            if before.checked_add(1) == Some(self.at) {
                self.flag.store(true, Ordering::SeqCst);
            }
        }
        true
    }
}

/// Flow 0's first offer waits until its driver found nothing, and the driver then waits until that offer was made.
#[derive(Drop)]
pub(crate) struct Missed {
    batch: AtomicBool,
    offer: AtomicBool,
    over: AtomicBool,
    late: AtomicBool,
}

impl Missed {
    pub(crate) fn new() -> Missed {
        Missed {
            batch: AtomicBool::new(false),
            offer: AtomicBool::new(false),
            over: AtomicBool::new(false),
            late: AtomicBool::new(false),
        }
    }

    /// Whether each waited within the limit.
    pub(crate) fn was_in_time(&self) -> bool {
        self.over.load(Ordering::SeqCst) && !self.late.load(Ordering::SeqCst)
    }

    fn wait(&self, flag: &AtomicBool) {
        if !wait_for(flag) {
            self.late.store(true, Ordering::SeqCst);
        }
    }
}

impl Gate for Missed {
    ghost use Rattle.std.specs.Prelude.{◌≡◌, true};

    ghost answers = { λ _ _ _ b. b ≡ true };

    fn pass(&self, who: Who, event: Event) -> bool {
        match (who, event) {
            (Who::Controller(0), Event::Offer) => {
                self.wait(&self.batch);
                self.offer.store(true, Ordering::SeqCst);
            }
            (Who::Controller(0), Event::TxTurn) => {
                if self.offer.load(Ordering::SeqCst) {
                    self.over.store(true, Ordering::SeqCst);
                }
            }
            (Who::Driver(0), Event::TxBatch) => {
                self.batch.store(true, Ordering::SeqCst);
                self.wait(&self.over);
            }
            _ => {}
        }
        true
    }
}

/// Refuses flow 0's driver while the controllers' worker waits at flow 0's first offer. That worker goes on once the stop
/// word has surely been set, and its passes are counted from then on.
#[derive(Drop)]
pub(crate) struct LateStop {
    waits: AtomicBool,
    refused: AtomicBool,
    counts: AtomicBool,
    passes: AtomicU64,
}

impl LateStop {
    pub(crate) fn new() -> LateStop {
        LateStop {
            waits: AtomicBool::new(false),
            refused: AtomicBool::new(false),
            counts: AtomicBool::new(false),
            passes: AtomicU64::new(0),
        }
    }

    /// The passes after the stop, if there was one.
    pub(crate) fn passes(&self) -> Option<u64> {
        if self.counts.load(Ordering::SeqCst) {
            Some(self.passes.load(Ordering::SeqCst))
        } else {
            None
        }
    }
}

impl Gate for LateStop {
    ghost use Rattle.std.specs.Prelude.{◌≡◌};

    ghost answers = { λ _ _ _ b. b ≡ b };

    fn pass(&self, who: Who, event: Event) -> bool {
        if self.counts.load(Ordering::SeqCst) {
            self.passes.fetch_add(1, Ordering::SeqCst);
            return true;
        }
        match (who, event) {
            (Who::Driver(0), Event::RxBatch) if self.waits.load(Ordering::SeqCst) => {
                self.refused.store(true, Ordering::SeqCst);
                false
            }
            (Who::Controller(0), Event::Offer) => {
                self.waits.store(true, Ordering::SeqCst);
                wait_for(&self.refused);
                for _ in 0..LIMIT / 10 {
                    thread::yield_now();
                }
                self.counts.store(true, Ordering::SeqCst);
                true
            }
            _ => true,
        }
    }
}
