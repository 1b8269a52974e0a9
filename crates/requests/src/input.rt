//! Reads standard input.
ghost use Rattle.std.specs.Prelude.{◌≡◌, ◌⊎◌, IfErr, IfOk, IfSome};
ghost use Rattle.requests.specs.declared.refusal.Refusal.TheVariants as refusal;

use crate::refusal::Refusal;
use std::alloc::Global;
use std::io::{ErrorKind, Read};

/// Reads all bytes of the input. Returns `Input` if they cannot be read, and `Memory` if an allocation fails.
pub fn read_text<I: Read>(alloc: Global, input: &mut I) -> Result<Vec<u8>, Refusal>
    ensures read { IfOk result (λ text. IfSome (I.remaining input.old) (λ bytes. text.items ≡ bytes)) }
    ensures refused { IfErr result (λ e. (e ≡ refusal.Input) ⊎ (e ≡ refusal.Memory)) }
{
    let mut text = Vec::new(alloc);
    match input.read_to_end(&mut text) {
        Ok(_) => Ok(text),
        Err(error) if error.kind() == ErrorKind::OutOfMemory => Err(Refusal::Memory),
        Err(_) => Err(Refusal::Input),
    }
}
