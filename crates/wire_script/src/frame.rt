//! A frame with its port and queue.

ghost use Rattle.std.specs.Prelude.{◌≡◌, ◌<◌, ◌≤◌, vec_len};
ghost use Rattle.limits.specs.declared.profile.TheConstants.{LEAST_FRAME, MOST_FRAME, MOST_PAIRS, PORTS};
ghost use Rattle.wire_script.specs.Frame.{Frame, InRange};

use std::marker::Model;

/// A frame of the wire: its port, its queue and its bytes, each in its range.
#[derive(Debug, Drop)]
pub struct WireFrame {
    port: u8,
    queue: u8,
    bytes: Vec<u8>,
}

impl Model for WireFrame {
    ghost Value = { Frame };

    ghost view = { λ f. record { port = f.port; queue = f.queue; bytes = f.bytes.items } };

    ghost invariant = { λ f. InRange (record { port = f.port; queue = f.queue; bytes = f.bytes.items }) };
}

impl WireFrame {
    /// A frame with these bytes, which are moved and not copied.
    pub fn new(port: u8, queue: u8, bytes: Vec<u8>) -> Self
        requires port { port < PORTS }
        requires queue { queue < MOST_PAIRS }
        requires least { LEAST_FRAME ≤ vec_len bytes }
        requires greatest { vec_len bytes ≤ MOST_FRAME }
        ensures { result ≡ record { port = port; queue = queue; bytes = bytes.items } }
    {
        WireFrame { port, queue, bytes }
    }

    /// The port, 0 or 1.
    pub fn port(&self) -> u8
        ensures value { result ≡ self.now.port }
        ensures in_range { result < PORTS }
    {
        self.port
    }

    /// The queue, 0 to 7.
    pub fn queue(&self) -> u8
        ensures value { result ≡ self.now.queue }
        ensures in_range { result < MOST_PAIRS }
    {
        self.queue
    }

    /// The frame's bytes, without CRC.
    pub fn bytes(&self) -> &[u8]
        ensures value { result.now ≡ self.now.bytes }
        ensures in_range { InRange self.now }
    {
        &self.bytes
    }
}
