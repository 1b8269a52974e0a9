//! Parses an argument of hex digits.
ghost use Rattle.std.specs.Prelude.{◌≡◌, ◌⊎◌, IfOk, IfErr};
ghost use Rattle.commands.specs.Digits.{bytes_in};

use hex::FromHexError;
use requests::Refusal;
use std::alloc::Global;

/// Parses pairs of hex digits of either case.
///
/// Returns `Hex` if the digits are not pairs of hex digits, and `Memory` if an allocation fails.
pub fn bytes_of(alloc: Global, digits: &str) -> Result<Vec<u8>, Refusal>
    ensures ok { IfOk result (λ bytes. bytes_in digits.now ≡ Ok bytes.items) }
    ensures err { IfErr result (λ e. (e ≡ Refusal.Memory) ⊎ (bytes_in digits.now ≡ Err e)) }
{
    match hex::decode(alloc, digits) {
        Ok(bytes) => Ok(bytes),
        Err(FromHexError::OutOfMemory) => Err(Refusal::Memory),
        Err(_) => Err(Refusal::Hex),
    }
}
