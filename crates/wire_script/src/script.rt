//! The frames of a script.

ghost use Rattle.std.specs.Prelude.{◌≡◌, ◌≤◌, List, length, vec_len};
ghost use Rattle.limits.specs.declared.profile.TheConstants.{MOST_SCRIPT_FRAMES};
ghost use Rattle.wire_script.specs.Frame.{Frame};

use crate::frame::WireFrame;
use std::marker::Model;

/// The frames of a script in their order, at most [`MOST_SCRIPT_FRAMES`](limits::MOST_SCRIPT_FRAMES) of them.
#[derive(Debug, Drop)]
pub struct Script {
    frames: Vec<WireFrame>,
}

impl Model for Script {
    ghost Value = { List Frame };

    ghost view = { λ s. s.frames.items };

    ghost invariant = { λ s. length s.frames.items ≤ MOST_SCRIPT_FRAMES };
}

impl Script {
    /// The script of these frames, which are moved and not copied.
    pub fn new(frames: Vec<WireFrame>) -> Self
        requires { vec_len frames ≤ MOST_SCRIPT_FRAMES }
        ensures { result ≡ frames.items }
    {
        Script { frames }
    }

    /// The frames in their order.
    pub fn frames(&self) -> &[WireFrame]
        ensures value { result.now ≡ self.now }
        ensures most { length result.now ≤ MOST_SCRIPT_FRAMES }
    {
        &self.frames
    }
}
