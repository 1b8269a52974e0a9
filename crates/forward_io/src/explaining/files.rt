//! Explains refusals of files.

use requests::Refusal;
use std::alloc::AllocError;
use std::io::Error;

/// Explains why a file could not be read or written: its name, with control characters escaped, and the system's
/// reason.
pub(crate) fn explain_file(
    why: &mut String,
    file: &str,
    refusal: Refusal,
) -> Result<(), AllocError> {
    match refusal {
        Refusal::FileNotRead { code: Some(code) } => {
            let error = Error::from_raw_os_error(code);
            write!(why, "{file:?} cannot be read: {error}")
        }
        Refusal::FileNotWritten { code: Some(code) } => {
            let error = Error::from_raw_os_error(code);
            write!(why, "{file:?} cannot be written: {error}")
        }
        _ => Ok(()),
    }
}
