//! Frames with distinct lengths and bytes. They are slices of one sequence of random bytes, so none is allocated.

use crate::Random;
use limits::LEAST_FRAME;
use std::alloc::{AllocError, Global};

/// The number of places at which a frame may begin.
const BEGINNINGS: u32 = 2_003;

/// The number of bytes.
const BYTES: usize = 17_003;

/// The lengths of the frames.
#[derive(Clone, Copy, Drop)]
pub(crate) enum Lens {
    /// From the least length to this one.
    UpTo(usize),
    /// These two in turn.
    InTurn(usize, usize),
}

impl Lens {
    /// From the least length to the greatest that rings of `n` places carry: one of 8 has 7 descriptors.
    pub(crate) fn of_ring(n: u32) -> Lens {
        Lens::UpTo(if n == 8 { 14_336 } else { 15_000 })
    }
}

/// All frames.
#[derive(Drop)]
pub(crate) struct Frames {
    bytes: Vec<u8>,
    lens: Lens,
}

impl Frames {
    pub(crate) fn new(alloc: Global, lens: Lens) -> Result<Frames, AllocError> {
        let mut random = Random::new(82_599);
        let mut bytes = Vec::with_capacity(alloc, BYTES)?;
        for _ in 0..BYTES {
            bytes.push(random.below(256) as u8)?;
        }
        Ok(Frames { bytes, lens })
    }

    /// The length of frame `k`.
    fn len(&self, k: u32) -> usize {
        match self.lens {
            Lens::UpTo(most) => {
                let lens = most.saturating_sub(LEAST_FRAME) + 1;
                LEAST_FRAME + k.wrapping_mul(4_633) as usize % lens
            },
            Lens::InTurn(even, odd) => if k % 2 == 0 { even } else { odd },
        }
    }

    /// Frame `k`.
    pub(crate) fn frame(&self, k: u32) -> &[u8] {
        let start = (k % BEGINNINGS) as usize;
        let end = start.saturating_add(self.len(k));
        self.bytes.get(start..end).unwrap_or(&[])
    }
}
