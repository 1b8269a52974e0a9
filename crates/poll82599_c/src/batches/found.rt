//! The result of a call that counts something.
ghost use Rattle.std.specs.Prelude.{◌≡◌};

/// The result number of a call, and how many packets, buffers, segments or bytes it counted.
#[derive(Clone, Copy)]
pub(crate) struct Found {
    pub(crate) answer: u32,
    pub(crate) count: usize,
}

impl Found {
    /// A result without a count: `count` is 0.
    pub(crate) fn nothing(answer: u32) -> Found
        ensures answer { result.answer ≡ answer }
        ensures none { result.count ≡ 0 }
    {
        Found { answer, count: 0 }
    }
}
