//! The frames that are offered to a flow.
ghost use Rattle.std.specs.Prelude.{◌≡◌, ◌+◌, ◌<◌, All, IfSome, length, option_map, slice_get};
ghost use Rattle.ring_model.specs.shared.Frames.{HasFrameLength};
ghost use Rattle.flows.specs.Keys.{frames_at, repeated};

use std::marker::Model;
use wire_script::WireFrame;

/// The most frames that a flow is offered: a million frames, a million times.
pub const MOST_OFFERED: usize = 1_000_000_000_000;

const _: () = prove!(MOST_OFFERED == 1_000_000_000_000);

/// The frames that are offered to a flow, one after another: those at some places of a script, in order, one or more
/// times. Contracts see the list of all of them, and how many were offered.
#[derive(Drop)]
pub struct FlowFrames<'a> {
    script: &'a [WireFrame],
    places: &'a [u32],
    repeat: u32,
    /// How often the frames are still offered, this time included.
    rounds: u32,
    /// The index of the next frame's place.
    at: usize,
}

impl<'a> Model for FlowFrames<'a> {
    ghost use Rattle.std.specs.Prelude.{◌<◌, All, length};
    ghost use Rattle.flows.specs.Keys.{frames_at};
    ghost use Rattle.flows.specs.Offering.{Offering, IsWithin, offering};

    ghost Value = { Offering };

    ghost view = { λ f. offering (frames_at f.script.now f.places.now) f.repeat f.rounds f.at };

    ghost invariant = { λ f. All (λ k. k < length f.script.now) f.places.now × IsWithin (length f.places.now) f.repeat f.rounds f.at };
}

impl<'a> FlowFrames<'a> {
    /// The frames of a script at these places, this many times. None was offered yet.
    pub fn new(script: &'a [WireFrame], places: &'a [u32], repeat: u32) -> FlowFrames<'a>
        requires { All (λ k. k < length script.now) places.now }
        ensures frames { result.frames ≡ repeated repeat (frames_at script.now places.now) }
        ensures next { result.next ≡ 0 }
    {
        let rounds = if places.is_empty() { 0 } else { repeat };
        FlowFrames {
            script,
            places,
            repeat,
            rounds,
            at: 0,
        }
    }

    /// The next frame, or `None` after the last one.
    #[inline]
    pub(crate) fn upcoming(&self) -> Option<&'a [u8]>
        ensures frame { option_map (λ f. f.now) result ≡ slice_get self.now.frames self.now.next }
        ensures length { IfSome result (λ f. HasFrameLength f.now) }
    {
        if self.rounds == 0 {
            return None;
        }
        Some(self.script[self.places[self.at] as usize].bytes())
    }

    /// Goes on to the frame after the next one.
    #[inline]
    pub(crate) fn advance(&mut self)
        requires { self.old.next < length self.old.frames }
        ensures frames { self.new.frames ≡ self.old.frames }
        ensures next { self.new.next ≡ self.old.next + 1 }
    {
        self.at += 1;
        if self.at == self.places.len() {
            self.at = 0;
            self.rounds -= 1;
        }
    }
}
