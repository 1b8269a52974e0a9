//! The identity of the file at a path, so that no file is named twice.
ghost use Rattle.std.specs.Prelude.{IfErr};
ghost use Rattle.forward_io.specs.WireFiles.{IsTaken};

use crate::captured::files::not_written;
use requests::Refusal;
use std::alloc::Global;
use std::fs::Metadata;
use std::os::unix::fs::{FileTypeExt, MetadataExt};
use std::path::Path;
use std::rt::Files;

/// The identity of the file at a path.
#[derive(PartialEq, Eq, Drop)]
pub(crate) enum Identity {
    /// Standard output.
    Output,
    /// An existing file: its device and its inode.
    File { device: u64, inode: u64 },
    /// A missing file: its absolute path, without symbolic links.
    Absent { path: String },
}

/// The identity of an existing file. A character device has none: it may be named any number of times.
pub(crate) fn identity_of(found: &Metadata) -> Option<Identity> {
    if found.file_type().is_char_device() {
        return None;
    }
    let (device, inode) = (found.dev(), found.ino());
    Some(Identity::File { device, inode })
}

/// The identity of a missing file. Its folder must exist.
pub(crate) fn absent<R: Files>(rt: &R, alloc: Global, path: &str) -> Result<Identity, Refusal>
    ensures { IfErr result IsTaken }
{
    let path = Path::new(path);
    let folder = match path.parent() {
        Some(folder) if !folder.as_str().is_empty() => folder.as_str(),
        _ => ".",
    };
    let found = rt.canonicalize(alloc, folder);
    let mut whole = found.map_err(not_written)?;
    whole.push(path.file_name().unwrap_or(""))?;
    let path = whole.into_string();
    Ok(Identity::Absent { path })
}
