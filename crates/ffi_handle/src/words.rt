//! Words as flags, and bytes copied into a room.
ghost use Rattle.std.specs.Prelude.{◌≡◌, ◌≤◌, ◌++◌, length, drop};
ghost use Rattle.ffi_handle.specs.Words.{is_set};

/// Whether a word of C means yes: any word but 0.
#[inline]
pub fn is_set(word: u32) -> bool
    ensures { result ≡ is_set word }
{
    match word {
        0 => false,
        _ => true,
    }
}

/// The word for a flag: 1 or 0.
#[inline]
pub fn flag_word(yes: bool) -> u32
    ensures { is_set result ≡ yes }
{
    if yes { 1 } else { 0 }
}

/// Copies `bytes` to the beginning of `room`, and leaves the rest unchanged.
#[inline]
pub fn overwrite(room: &mut [u8], bytes: &[u8])
    requires { length bytes.now ≤ length room.old }
    ensures { room.new ≡ bytes.now ++ drop (length bytes.now) room.old }
{
    room[..bytes.len()].copy_from_slice(bytes);
}
