//! Reads and writes whole files.
ghost use Rattle.std.specs.Prelude.{◌≡◌, ◌⊎◌, IfErr};
ghost use Rattle.requests.specs.declared.refusal.Refusal.TheVariants as refusal;
ghost use Rattle.forward_io.specs.WireFiles.{IsLost};
ghost use Rattle.forward_io.specs.Refusals.{IsFileNotRead, IsFileNotWritten};

use requests::Refusal;
use std::alloc::Global;
use std::fs;
use std::fs::{File, Metadata, OpenOptions};
use std::io::{Error, ErrorKind, Read, Write};
use std::os::unix::fs::MetadataExt;
use std::rt::Files;

/// The number of names that are tried for a new file beside another.
const MOST_PARTS: u32 = 1_000;

/// The file of standard input.
const INPUT: &str = "/dev/stdin";

/// The system's error number for a file that exists.
const EEXIST: i32 = 17;

/// The refusal of a file that cannot be read.
fn not_read(error: Error) -> Refusal
    ensures { IsFileNotRead result }
{
    let code = error.raw_os_error();
    Refusal::FileNotRead { code }
}

/// The refusal of a file that cannot be written.
pub fn not_written(error: Error) -> Refusal
    ensures { IsFileNotWritten result }
{
    let code = error.raw_os_error();
    Refusal::FileNotWritten { code }
}

/// The path of a source's file; `-` is standard input.
pub fn source_path(file: &str) -> &str {
    if file == "-" { INPUT } else { file }
}

/// Reads a source's file. Returns `FileNotRead` if it cannot be read, and `Memory` if there is no memory for its
/// bytes.
pub fn read_file<R: Files>(rt: &R, alloc: Global, file: &str) -> Result<Vec<u8>, Refusal>
    ensures { IfErr result (λ e. IsFileNotRead e ⊎ (e ≡ refusal.Memory)) }
{
    let mut opened = File::open(rt, source_path(file)).map_err(not_read)?;
    let mut bytes = Vec::new(alloc);
    match opened.read_to_end(&mut bytes) {
        Ok(_) => Ok(bytes),
        Err(error) if error.kind() == ErrorKind::OutOfMemory => Err(Refusal::Memory),
        Err(error) => Err(not_read(error)),
    }
}

/// Writes these bytes to a new file beside this path. It gets the owner and permissions of the old file, if there is
/// one. Returns the new file's name. Removes the new file if it cannot be written.
pub fn write_part<R: Files>(
    rt: &R,
    alloc: Global,
    path: &str,
    old: Option<&Metadata>,
    bytes: &[u8],
) -> Result<String, Refusal>
    ensures { IfErr result IsLost }
{
    let (part, mut file) = new_part(rt, alloc, path)?;
    if let Some(old) = old {
        let _ = rt.chown(part.as_str(), Some(old.uid()), Some(old.gid()));
        let _ = fs::set_permissions(rt, part.as_str(), old.permissions());
    }
    if let Err(error) = file.write_all(bytes) {
        remove(rt, part.as_str());
        return Err(not_written(error));
    }
    Ok(part)
}

/// Creates a file beside this path, under an unused name.
fn new_part<R: Files>(rt: &R, alloc: Global, path: &str) -> Result<(String, R::File), Refusal>
    ensures { IfErr result IsLost }
{
    for number in 0..MOST_PARTS {
        let part = format!(in alloc; "{path}.{number}.part")?;
        match File::create_new(rt, part.as_str()) {
            Ok(file) => return Ok((part, file)),
            Err(error) if error.kind() == ErrorKind::AlreadyExists => {}
            Err(error) => return Err(not_written(error)),
        }
    }
    Err(Refusal::FileNotWritten { code: Some(EEXIST) })
}

/// Whether this part can replace the old file: that has no other name, and the part has its owner and permissions.
pub fn is_kept_by<R: Files>(rt: &R, part: &str, old: &Metadata) -> bool {
    match fs::metadata(rt, part) {
        Ok(new) => {
            old.nlink() == 1
                && new.uid() == old.uid()
                && new.gid() == old.gid()
                && new.mode() == old.mode()
        }
        Err(_) => false,
    }
}

/// Writes these bytes into a FIFO, a device or a socket.
pub fn write_into<R: Files>(rt: &R, file: &str, bytes: &[u8]) -> Result<(), Refusal>
    ensures { IfErr result IsFileNotWritten }
{
    put(rt, OpenOptions::new().write(true), file, bytes)
}

/// Replaces the contents of a regular file with these bytes.
pub fn overwrite<R: Files>(rt: &R, file: &str, bytes: &[u8]) -> Result<(), Refusal>
    ensures { IfErr result IsFileNotWritten }
{
    put(
        rt,
        OpenOptions::new().write(true).truncate(true),
        file,
        bytes,
    )
}

/// Opens an existing file, and writes these bytes.
fn put<R: Files>(rt: &R, how: &OpenOptions, file: &str, bytes: &[u8]) -> Result<(), Refusal>
    ensures { IfErr result IsFileNotWritten }
{
    let mut opened = how.open(rt, file).map_err(not_written)?;
    opened.write_all(bytes).map_err(not_written)
}

/// Renames a file, replacing the file at the new name. Removes the file if it cannot be renamed.
pub fn rename<R: Files>(rt: &R, from: &str, to: &str) -> Result<(), Refusal>
    ensures { IfErr result IsFileNotWritten }
{
    match fs::rename(rt, from, to) {
        Ok(()) => Ok(()),
        Err(error) => {
            remove(rt, from);
            Err(not_written(error))
        }
    }
}

/// Removes a file, if possible.
pub fn remove<R: Files>(rt: &R, file: &str) {
    let _ = fs::remove_file(rt, file);
}
