//! The result of a call that may hand out a segment.
ghost use Rattle.std.specs.Prelude.{◌≡◌, ◌≤◌, ◌++◌, length, drop};
ghost use Rattle.std.specs.Int.{from_bool};
ghost use Rattle.limits.specs.declared.profile.TheConstants.{BUFFER_BYTES};

use buffer_pool::Buf;
use ffi_handle::overwrite;

/// The result number, and the length and EOP of the segment that is handed out.
#[derive(Clone, Copy)]
pub(crate) struct Handed {
    pub(crate) answer: u32,
    pub(crate) len: u32,
    pub(crate) eop: u32,
}

impl Handed {
    /// A result with a number in `len`, and no segment.
    pub(crate) fn told(answer: u32, len: u32) -> Handed
        ensures answer { result.answer ≡ answer }
        ensures len { result.len ≡ len }
    {
        Handed {
            answer,
            len,
            eop: 0,
        }
    }

    /// A result without a number and a segment.
    pub(crate) fn nothing(answer: u32) -> Handed
        ensures { result.answer ≡ answer }
    {
        Handed::told(answer, 0)
    }

    /// Copies a segment to the beginning of `bytes`, which has a buffer's size. The result is 1.
    pub(crate) fn segment(bytes: &mut [u8], buf: &Buf, eop: bool) -> Handed
        requires { BUFFER_BYTES ≤ length bytes.old }
        ensures answer { result.answer ≡ 1 }
        ensures len { result.len ≡ length buf.now.bytes }
        ensures eop { result.eop ≡ from_bool eop }
        ensures copied { bytes.new ≡ buf.now.bytes ++ drop (length buf.now.bytes) bytes.old }
    {
        overwrite(bytes, buf.bytes());
        Handed {
            answer: 1,
            len: buf.len() as u32,
            eop: u32::from(eop),
        }
    }
}
