//! Explains why a request was refused, as far as the request shows it.

use crate::digits::bytes_of;
use crate::explaining::fields::explain_field;
use crate::passing::MOST_PASSED;
use byteorder::{ByteOrder, LittleEndian};
use descriptor::DescError;
use limits::LEAST_FRAME;
use requests::{DescriptorForm, Refusal, Request, explain_queues};
use ring_machine::MachineError;
use std::alloc::{AllocError, Global};

/// Writes the explanation of a refused request. Writes nothing if the request is not at fault, or if the fault is in
/// the list of moves.
pub(crate) fn explain_request(
    alloc: Global,
    why: &mut String,
    request: Request<'_>,
    refusal: Refusal,
) -> Result<(), AllocError> {
    match (request, refusal) {
        (Request::Once { digits } | Request::Decode { digits, .. }, Refusal::Hex) => {
            explain_digits(why, digits)
        }
        (Request::Once { digits }, Refusal::FrameLength) => write!(
            why,
            "the frame's length in bytes is {}, but must be {LEAST_FRAME} to {MOST_PASSED}",
            digits.len() / 2
        ),
        (Request::Decode { form, digits }, Refusal::Descriptor(error)) => {
            explain_descriptor(alloc, why, form, digits, error)
        }
        (Request::Replay { plan }, Refusal::Machine(MachineError::RingLength)) => {
            explain_queues(why, plan.pairs, plan.ring)
        }
        _ => Ok(()),
    }
}

/// Explains why an argument is not pairs of hex digits.
fn explain_digits(why: &mut String, digits: &str) -> Result<(), AllocError> {
    let bytes = digits.as_bytes();
    match bytes.iter().position(|byte| !byte.is_ascii_hexdigit()) {
        Some(at) => write!(
            why,
            "byte {} of the argument is not a hex digit",
            at.saturating_add(1)
        ),
        None => write!(
            why,
            "the number of hex digits is {}, but must be even: two for each byte",
            bytes.len()
        ),
    }
}

/// Explains why an argument's bytes are not a descriptor of this form.
fn explain_descriptor(
    alloc: Global,
    why: &mut String,
    form: DescriptorForm,
    digits: &str,
    error: DescError,
) -> Result<(), AllocError> {
    let Ok(bytes) = bytes_of(alloc, digits) else {
        return Ok(());
    };
    if bytes.len() != 16 {
        return write!(
            why,
            "the descriptor's length in bytes is {}, but must be 16",
            bytes.len()
        );
    }
    let (first, second) = bytes.as_slice().split_at(8);
    let quadwords = (
        LittleEndian::read_u64(first),
        LittleEndian::read_u64(second),
    );
    explain_field(why, form, quadwords, error)
}
