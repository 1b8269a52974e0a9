//! A refusal, and the file that it concerns.
ghost use Rattle.std.specs.Prelude.{◌≡◌};
ghost use Rattle.requests.specs.declared.answers.TheConstants.{EXIT_REFUSED};
ghost use Rattle.forward_io.specs.Refusals.{refused_itself};

use crate::explaining::{explain_config, explain_file};
use forwarding::ForwardError;
use requests::{Refusal, Source, WireFile, refuse_explained};
use settings::Config;
use std::alloc::AllocError;
use std::io::Write;

/// The subject of a refusal.
#[derive(Clone, Copy, Debug)]
pub enum RefusalSubject {
    /// The source at this index, counted from 0.
    Source(usize),
    /// The wire file at this index, counted from 0.
    Wire(usize),
    /// The command itself, or one of its streams.
    Command,
}

/// A refusal, and its subject.
#[derive(Clone, Copy, Debug)]
pub struct FileRefusal {
    /// The file that the refusal concerns, or the command.
    pub place: RefusalSubject,
    /// The refusal.
    pub refusal: Refusal,
}

impl From<Refusal> for FileRefusal {
    ghost from_gives = { λ refusal refused. refused ≡ refused_itself refusal };

    fn from(refusal: Refusal) -> FileRefusal {
        FileRefusal {
            place: RefusalSubject::Command,
            refusal,
        }
    }
}

/// The file that a refusal concerns, if any.
fn file_of<'a>(
    sources: &[Source<'a>],
    wires: &[WireFile<'a>],
    place: RefusalSubject,
) -> Option<&'a str> {
    match place {
        RefusalSubject::Source(at) => sources.get(at).map(|source| source.file()),
        RefusalSubject::Wire(at) => wires.get(at).map(|wire| wire.file()),
        RefusalSubject::Command => None,
    }
}

/// Appends to `why` what the options show of a refusal: a number outside its range, a queue that does not exist, or the
/// system's reason for refusing a file.
fn explain_refused(
    why: &mut String,
    config: &Config,
    sources: &[Source<'_>],
    wires: &[WireFile<'_>],
    refused: FileRefusal,
) -> Result<(), AllocError> {
    if let Refusal::Forward(ForwardError::Config) = refused.refusal {
        return explain_config(why, config, sources);
    }
    match file_of(sources, wires, refused.place) {
        Some(file) => explain_file(why, file, refused.refusal),
        None => Ok(()),
    }
}

/// Prints a refusal as the other commands do, after the name of the file that it concerns, if any. Returns its status.
/// Explains it by `why` and what the options show of it.
pub fn tell<E: Write>(
    faults: &mut E,
    config: &Config,
    sources: &[Source<'_>],
    wires: &[WireFile<'_>],
    refused: FileRefusal,
    mut why: String,
    explain: bool,
) -> u8
    ensures { result ≡ EXIT_REFUSED }
{
    if let Some(file) = file_of(sources, wires, refused.place) {
        let _ = write!(faults, "{file}: ");
    }
    let _ = explain_refused(&mut why, config, sources, wires, refused);
    refuse_explained(faults, refused.refusal, why.as_str(), explain)
}
