//! The frames that are still to be posted, and the frames that ask for a report.
ghost use Rattle.std.specs.Prelude.{◌≡◌, ◌+◌, ◌<◌};
ghost use Rattle.ring_bench.specs.Sending.{asks_after};

use crate::tx::words::TxPlan;
use std::marker::Model;

/// An iteration over the frames of a plan.
#[derive(Drop)]
pub struct Course {
    plan: TxPlan,
    posted: u32,
    // how many frames remain up to the next that asks for a report
    until: u32,
}

impl Model for Course {
    ghost use Rattle.ring_bench.specs.Sending.{Progress, IsCourse};

    ghost Value = { Progress };

    ghost view = { λ c. record { plan = c.plan; posted = c.posted } };

    ghost invariant = { λ c. IsCourse c.plan c.posted c.until };
}

impl Course {
    pub fn new(plan: TxPlan) -> Course
        requires { 0 < plan.report }
        ensures { result ≡ record { plan = plan; posted = 0 } }
    {
        Course {
            plan,
            posted: 0,
            until: plan.report,
        }
    }

    /// How many frames are still to be posted.
    #[inline]
    pub fn left(&self) -> u32
        ensures { result + self.now.posted ≡ self.now.plan.load.frames }
    {
        self.plan.load.frames - self.posted
    }

    /// Advances to the next frame. Returns whether it asks for a report.
    #[inline]
    pub fn next(&mut self) -> bool
        requires { self.old.posted < self.old.plan.load.frames }
        ensures asks { result ≡ asks_after self.old.plan self.old.posted }
        ensures one { self.new ≡ record self.old { posted = self.old.posted + 1 } }
    {
        let due = self.until == 1;
        self.until = if due {
            self.plan.report
        } else {
            self.until - 1
        };
        self.posted += 1;
        due || self.posted == self.plan.load.frames
    }
}
