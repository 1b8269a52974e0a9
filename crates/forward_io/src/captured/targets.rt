//! The targets of wire captures, determined before anything is forwarded.
ghost use Rattle.std.specs.Prelude.{◌≡◌, ◌⊎◌, ◌+◌, length, IfErr, IfOk, OnOk};
ghost use Rattle.requests.specs.declared.refusal.Refusal.TheVariants as refusal;
ghost use Rattle.forward_io.specs.WireFiles.{IsTaken, IsUntargeted};

use crate::captured::files::{not_written, source_path};
use crate::captured::identity::{Identity, absent, identity_of};
use crate::captured::refused::{FileRefusal, RefusalSubject};
use requests::{Refusal, Source, WireFile, names_output};
use std::alloc::{AllocError, Global};
use std::fs;
use std::fs::{Metadata, OpenOptions};
use std::io::ErrorKind;
use std::path::Path;
use std::rt::Files;

/// The maximum number of consecutive symbolic links, as in Linux.
const MOST_LINKS: u32 = 40;

/// The system's error number for a folder.
const EISDIR: i32 = 21;

/// The system's error number for too many symbolic links.
const ELOOP: i32 = 40;

/// The target of a port's capture.
#[derive(Drop)]
pub enum Target {
    /// Standard output.
    Output,
    /// A FIFO, a device or a socket: the capture is written into it.
    Stream,
    /// A missing file: the capture is written beside this path, and then renamed.
    New { path: String },
    /// A regular file: the capture is written beside it, and then replaces it or its contents.
    Regular { path: String, old: Metadata },
}

/// Determines the target of each wire file. Changes nothing.
///
/// Refuses the first wire file that cannot be written, or that is the same file as an earlier one or as a source. A
/// character device such as `/dev/null` may be named any number of times.
pub fn targets_of<R: Files>(
    rt: &R,
    alloc: Global,
    sources: &[Source<'_>],
    wires: &[WireFile<'_>],
) -> Result<Vec<Target>, FileRefusal>
    ensures each { IfOk result (λ targets. length targets.items ≡ length wires.now) }
    ensures refused { IfErr result (λ e. IsUntargeted wires.now e) }
{
    let mut taken = taken_by(rt, alloc, sources)?;
    let mut targets = Vec::new(alloc);
    for at in 0..wires.len() {
        let added = add_target(rt, alloc, wires[at].file(), &mut taken, &mut targets);
        if let Err(refusal) = added {
            let place = RefusalSubject::Wire(at);
            return Err(FileRefusal { place, refusal });
        }
    }
    Ok(targets)
}

/// The files of the sources. A missing one is refused when it is read.
fn taken_by<R: Files>(
    rt: &R,
    alloc: Global,
    sources: &[Source<'_>],
) -> Result<Vec<Identity>, Refusal>
    ensures { IfErr result (λ e. e ≡ refusal.Memory) }
{
    let mut taken = Vec::new(alloc);
    for source in sources {
        if let Some(found) = source_identity(rt, source.file()) {
            taken.push(found).map_err(|_| Refusal::Memory)?;
        }
    }
    Ok(taken)
}

/// The identity of a source's file, if it exists.
fn source_identity<R: Files>(rt: &R, file: &str) -> Option<Identity> {
    match fs::metadata(rt, source_path(file)) {
        Ok(found) => identity_of(&found),
        Err(_) => None,
    }
}

/// Appends the target of this file, and its identity to those taken.
fn add_target<R: Files>(
    rt: &R,
    alloc: Global,
    file: &str,
    taken: &mut Vec<Identity>,
    targets: &mut Vec<Target>,
) -> Result<(), Refusal>
    ensures one { OnOk result (length targets.new.items ≡ length targets.old.items + 1) }
    ensures refused { IfErr result IsTaken }
{
    let (target, identity) = target_of(rt, alloc, file)?;
    if let Some(identity) = identity {
        if taken.contains(&identity) {
            return Err(Refusal::SameFile);
        }
        taken.push(identity).map_err(|_| Refusal::Memory)?;
    }
    targets.push(target).map_err(|_| Refusal::Memory)
}

/// The target of this file's capture, and the file's identity.
fn target_of<R: Files>(
    rt: &R,
    alloc: Global,
    file: &str,
) -> Result<(Target, Option<Identity>), Refusal>
    ensures { IfErr result IsTaken }
{
    if names_output(file) {
        return Ok((Target::Output, Some(Identity::Output)));
    }
    match fs::metadata(rt, file) {
        Ok(old) if old.is_dir() => Err(Refusal::FileNotWritten { code: Some(EISDIR) }),
        Ok(old) if old.is_file() => regular(rt, alloc, file, old),
        Ok(old) => Ok((Target::Stream, identity_of(&old))),
        Err(error) if error.kind() == ErrorKind::NotFound => new(rt, alloc, file),
        Err(error) => Err(not_written(error)),
    }
}

/// A regular file. It must be writable.
fn regular<R: Files>(
    rt: &R,
    alloc: Global,
    file: &str,
    old: Metadata,
) -> Result<(Target, Option<Identity>), Refusal>
    ensures { IfErr result IsTaken }
{
    let opened = OpenOptions::new().write(true).open(rt, file);
    let _opened = opened.map_err(not_written)?;
    let whole = rt.canonicalize(alloc, file);
    let path = whole.map_err(not_written)?.into_string();
    let identity = identity_of(&old);
    Ok((Target::Regular { path, old }, identity))
}

/// A missing file, after following symbolic links.
fn new<R: Files>(rt: &R, alloc: Global, file: &str) -> Result<(Target, Option<Identity>), Refusal>
    ensures { IfErr result IsTaken }
{
    let path = followed(rt, alloc, file)?;
    let identity = absent(rt, alloc, path.as_str())?;
    Ok((Target::New { path }, Some(identity)))
}

/// Follows the symbolic links at the end of this path.
fn followed<R: Files>(rt: &R, alloc: Global, file: &str) -> Result<String, Refusal>
    ensures { IfErr result IsTaken }
{
    let mut path = String::from_str(alloc, file)?;
    for _ in 0..MOST_LINKS {
        let Some(next) = link_at(rt, alloc, path.as_str())? else {
            return Ok(path);
        };
        path = next;
    }
    Err(Refusal::FileNotWritten { code: Some(ELOOP) })
}

/// The target of the symbolic link at this path, if there is one.
fn link_at<R: Files>(rt: &R, alloc: Global, path: &str) -> Result<Option<String>, AllocError> {
    let Ok(link) = rt.read_link(alloc, path) else {
        return Ok(None);
    };
    let Some(folder) = Path::new(path).parent() else {
        return Ok(None);
    };
    Ok(Some(folder.join(alloc, link)?.into_string()))
}
