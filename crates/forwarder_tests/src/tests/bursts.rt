//! Scripts of frames with distinct bytes.

use crate::tests::counted::{Counts, NONE};
use std::alloc::Global;
use std::process::Abort;
use wire_script::{Script, WireFrame};

/// Frames for one queue: frame `k` has `len` bytes, each of them `first + k`, modulo 256.
#[derive(Clone, Copy)]
pub(crate) struct Burst {
    pub port: u8,
    pub queue: u8,
    pub len: usize,
    pub first: u8,
    pub count: u8,
}

/// One frame of 60 bytes for flow 0.
pub(crate) const FRAME: Burst = Burst {
    port: 0,
    queue: 0,
    len: 60,
    first: 0,
    count: 1,
};

/// 40 frames of 60 bytes for port 0, queue 1. The bytes of the last are `ff`, which a touch turns into `00`.
pub(crate) const FORTY: &[Burst] = &[
    Burst {
        port: 0,
        queue: 1,
        len: 60,
        first: 0,
        count: 39,
    },
    Burst {
        port: 0,
        queue: 1,
        len: 60,
        first: 255,
        count: 1,
    },
];

/// Their counts with two pairs.
pub(crate) const FORTY_COUNTS: &[Counts] = &[NONE, [40, 40, 0, 0, 40, 40, 0, 40, 0], NONE, NONE];

/// Frame `k` of a burst, if it is lawful.
fn frame_of<R: Abort>(rt: &R, alloc: Global, burst: &Burst, k: u8) -> Option<WireFrame> {
    let (port, queue, len) = (burst.port, burst.queue, burst.len);
    if port > 1 || queue > 7 || len < 14 || len > 15_000 {
        return None;
    }
    let bytes = Vec::from_elem(alloc, burst.first.wrapping_add(k), len).expect(rt, "bytes");
    Some(WireFrame::new(port, queue, bytes))
}

/// The script of these bursts.
pub(crate) fn script_of<R: Abort>(rt: &R, alloc: Global, bursts: &[Burst]) -> Script {
    let mut frames = Vec::new(alloc);
    for burst in bursts {
        for k in 0..burst.count {
            let frame = frame_of(rt, alloc, burst, k).expect(rt, "a frame");
            frames.push(frame).expect(rt, "a frame's room");
        }
    }
    script_with(frames).expect(rt, "a script")
}

/// The script of these frames, if they are not too many.
fn script_with(frames: Vec<WireFrame>) -> Option<Script> {
    if frames.len() > 1_000_000 {
        None
    } else {
        Some(Script::new(frames))
    }
}
