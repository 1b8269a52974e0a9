//! A run of a ring that two threads share.
ghost use Rattle.std.specs.Prelude.{◌≡◌};

/// A run: the ring, the frame, and the plan.
#[derive_where(Clone, Copy; P)]
pub struct Run<'a, R, P> {
    pub ring: &'a R,
    pub frame: &'a [u8],
    pub plan: P,
}

impl<'a, R, P> Run<'a, R, P> {
    pub fn new(ring: &'a R, frame: &'a [u8], plan: P) -> Run<'a, R, P>
        ensures ring { result.ring.now ≡ ring.entry.now }
        ensures frame { result.frame.now ≡ frame.entry.now }
        ensures plan { result.plan ≡ plan }
    {
        Run { ring, frame, plan }
    }
}
