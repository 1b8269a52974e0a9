//! The progress shows the numbers of a run that is not over.

use crate::tests::forward::forty::forty;
use crate::tests::runs::{Host, text_of};
use crate::tests::wanted::holds;
use forwarder::Config;
use forwarding::{Event, Gate, Who};
use program::progress::forward;
use requests::ProgressForm;
use std::alloc::Global;
use std::io::Write;
use std::sync::atomic::{AtomicBool, AtomicU64, Ordering};
use std::{io, thread};
use wire_script::parse;

/// How often a gate looks in vain before it lets its worker pass.
const LIMIT: u32 = 100_000_000;

/// What is shown while 20 of the 40 frames are held back, up to the rate.
const HALF: &str = "offered 20 of 40 taken 20 posted 20 per-second ";

/// A screen that says when it has shown this.
#[derive(Drop)]
struct Noticed<'s> {
    text: Vec<u8>,
    is_shown: &'s AtomicBool,
}

impl<'s> Write for Noticed<'s> {
    fn write(&mut self, buf: &[u8]) -> io::Result<usize> {
        let count = self.text.write(buf)?;
        if text_of(self.text.as_slice()).contains(HALF) {
            self.is_shown.store(true, Ordering::SeqCst);
        }
        Ok(count)
    }

    fn flush(&mut self) -> io::Result<()> {
        Ok(())
    }
}

/// Flow 1's frame 21 is offered only once the screen has shown those before it.
#[derive(Drop)]
struct Halved<'s> {
    offers: AtomicU64,
    is_shown: &'s AtomicBool,
}

impl<'s> Halved<'s> {
    fn wait(&self) {
        for _ in 0..LIMIT {
            if self.is_shown.load(Ordering::SeqCst) {
                return;
            }
            thread::yield_now();
        }
    }
}

impl<'s> Gate for Halved<'s> {
    ghost use Rattle.std.specs.Prelude.{◌≡◌, true};

    ghost answers = { λ _ _ _ b. b ≡ true };

    fn pass(&self, who: Who, event: Event) -> bool {
        if (who, event) == (Who::Controller(1), Event::Offer)
            && self.offers.fetch_add(1, Ordering::SeqCst) == 20
        {
            self.wait();
        }
        true
    }
}

/// The rate in the line of a half of the frames, in frames per second.
fn rate_in(shown: &str) -> Option<u64> {
    let (_, behind) = shown.split_once(HALF)?;
    let (rate, _) = behind.split_once('\n')?;
    rate.parse().ok()
}

/// The rate that was shown with 20 frames.
fn rate_shown<R: Host>(rt: &R, alloc: Global) -> Option<u64> {
    let text = forty(alloc).ok()?;
    let script = parse(alloc, text.as_bytes()).ok()?;
    let config = Config {
        pairs: 2,
        ring: 64,
        ..Config::DEFAULT
    };
    let is_shown = AtomicBool::new(false);
    let gate = Halved {
        offers: AtomicU64::new(0),
        is_shown: &is_shown,
    };
    let mut screen = Noticed {
        text: Vec::new(alloc),
        is_shown: &is_shown,
    };
    let form = Some(ProgressForm::Lines);
    forward(rt, alloc, &script, &config, &gate, &mut screen, form).ok()?;
    rate_in(text_of(screen.text.as_slice()))
}

// At least a second passed since the run began, in which 20 frames were posted.
#[test]
fn half_of_the_frames_are_shown_while_the_others_wait(rt: HostRuntime) {
    let rate = rate_shown(&rt, rt.alloc());
    holds(&rt, rate.is_some_and(|rate| rate <= 20));
}
