//! The numbers in a capture's bytes.

ghost use Rattle.std.specs.Prelude.{◌≡◌, ◌+◌, ◌≤◌, drop, length};
ghost use Rattle.capture.specs.Layout.{numbers_in};

use crate::header::Order;
use byteorder::{BigEndian, ByteOrder, LittleEndian};

/// Reads the number at a place of the bytes in a byte order, by this method of [`ByteOrder`].
macro_rules! number_at {
    ($order:expr, $bytes:expr, $place:expr, $read:ident) => {{
        let field = $bytes.split_at($place).1;
        match $order {
            Order::Big => BigEndian::$read(field),
            Order::Little => LittleEndian::$read(field),
        }
    }};
}

/// Reads two bytes at `place` as a number.
pub fn half(order: Order, bytes: &[u8], place: usize) -> u16
    requires { place + 2 ≤ length bytes.now }
    ensures { result ≡ numbers_in order 2 (drop place bytes.now) }
{
    number_at!(order, bytes, place, read_u16)
}

/// Reads four bytes at `place` as a number.
pub fn word(order: Order, bytes: &[u8], place: usize) -> u32
    requires { place + 4 ≤ length bytes.now }
    ensures { result ≡ numbers_in order 4 (drop place bytes.now) }
{
    number_at!(order, bytes, place, read_u32)
}
