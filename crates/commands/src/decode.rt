//! The command `decode`: prints the descriptor that 16 bytes in hex digits encode.
ghost use Rattle.std.specs.Prelude.{◌≡◌, ◌⊎◌, ◌↔◌, ◌∷◌, [], ◌++◌, Some, IfOk, IfErr, IfSome, MatchResult};
ghost use Rattle.std.specs.String.{string_bytes};
ghost use Rattle.descriptor.specs.Layout.{AreBytes, KeepsBytes};
ghost use Rattle.descriptor.specs.Refusal.{IsLowest};
ghost use Rattle.commands.specs.Digits.{bytes_in};
ghost use Rattle.commands.specs.Decoding.{IsDecoded, IsRead};
ghost use Rattle.requests.specs.Decoding.{format_word, ring_word};

use crate::digits::bytes_of;
use descriptor::{DescError, Descriptor, RxBack, RxRead, TxBack, TxRead};
use requests::{DescriptorForm, Refusal};
use std::alloc::Global;
use std::fmt::Display;

/// Decodes a descriptor, and returns its line of text.
///
/// Returns `Hex` if the digits are not pairs of hex digits, `Descriptor` with the lowest refusal that applies if the
/// bytes do not have that form, and `Memory` if an allocation fails.
pub fn decode(alloc: Global, form: DescriptorForm, digits: &str) -> Result<String, Refusal>
    ensures ok { IfOk result (λ line. IsDecoded form (bytes_in digits.now) (Ok (string_bytes line))) }
    ensures err { IfErr result (λ e. (e ≡ Refusal.Memory) ⊎ IsDecoded form (bytes_in digits.now) (Err e)) }
{
    let bytes = bytes_of(alloc, digits)?;
    read_as(alloc, form, bytes.as_slice())
}

/// Decodes bytes in this form, and returns the descriptor's line.
fn read_as(alloc: Global, form: DescriptorForm, bytes: &[u8]) -> Result<String, Refusal>
    ensures { MatchResult result (λ line. IsRead form bytes.now (Ok (string_bytes line))) (λ e. (e ≡ Refusal.Memory) ⊎ IsRead form bytes.now (Err e)) }
{
    match form {
        DescriptorForm::RxRead => line_of::<RxRead>(alloc, bytes),
        DescriptorForm::RxBack => line_of::<RxBack>(alloc, bytes),
        DescriptorForm::TxRead => line_of::<TxRead>(alloc, bytes),
        DescriptorForm::TxBack => line_of::<TxBack>(alloc, bytes),
    }
}

/// Decodes bytes as a descriptor of type `D`, and returns its line.
fn line_of<D: Descriptor + Display + Drop>(alloc: Global, bytes: &[u8]) -> Result<String, Refusal>
    ensures { MatchResult result
        (λ line. (d : D) × AreBytes D.form (D.numbers d) bytes.now × IfSome (D.output d) (λ text. string_bytes line ≡ text ++ 10 ∷ []))
        (λ e. (e ≡ Refusal.Memory) ⊎ ((refused : DescError) × (e ≡ Refusal.Descriptor refused) × IsLowest (KeepsBytes D.form bytes.now) refused)) }
{
    match D::from_bytes(bytes) {
        Ok(value) => Ok(format!(in alloc; "{value}\n")?),
        Err(refused) => Err(Refusal::Descriptor(refused)),
    }
}
