//! When a flow is cut.
ghost use Rattle.std.specs.Prelude.{◌≡◌, ◌≢◌, ◌+◌, ◌<◌, true, false};
ghost use Rattle.std.specs.Option.{is_some};
ghost use Rattle.flows.specs.Driven.{IsLastTurn};

use std::sync::atomic::{AtomicBool, Ordering};

/// When a flow is cut, if it is not drained before.
#[derive(Clone, Copy)]
pub struct CutRule<'a> {
    /// The number of turns after which the flow is cut; 0 for never.
    pub turns: u32,
    /// A flag that cuts the flow at its next turn once it is set.
    pub stop: Option<&'a AtomicBool>,
}

impl<'a> CutRule<'a> {
    /// Whether the turn that follows `made` others is the last.
    #[inline]
    pub(crate) fn is_last(self, made: u32) -> bool
        requires { self.turns ≢ 0 → made < self.turns }
        ensures last { result ≡ true → IsLastTurn self.entry.turns (is_some self.entry.stop) made }
        ensures more { result ≡ false → self.entry.turns ≢ 0 → made + 1 < self.entry.turns }
    {
        if self.turns != 0 && made == self.turns - 1 {
            return true;
        }
        match self.stop {
            Some(flag) => flag.load(Ordering::Relaxed),
            None => false,
        }
    }
}
