//! Writes wire captures to their files.
//!
//! First, all captures for regular and missing files are written to new files beside them, so that a refusal leaves
//! the old files unchanged. Then each new file is moved into place, and captures for FIFOs, devices and sockets are
//! written.
ghost use Rattle.std.specs.Prelude.{◌≡◌, ◌+◌, ◌*◌, ◌<◌, ◌≤◌, length, IfErr, OnOk};
ghost use Rattle.limits.specs.declared.profile.TheConstants.{MOST_PAIRS, PORTS};
ghost use Rattle.forward_io.specs.WireFiles.{IsLost, IsUnpaged};

use crate::captured::files::{is_kept_by, overwrite, remove, rename, write_into, write_part};
use crate::captured::refused::{FileRefusal, RefusalSubject};
use crate::captured::targets::Target;
use crate::captured::wires::wire_capture;
use forwarding::FlowReport;
use requests::{Refusal, WireFile};
use std::alloc::Global;
use std::rt::Files;

/// Writes the captures of wire files to their targets, except standard output.
///
/// While new files are written beside their targets, a refusal removes them and leaves the old files unchanged. After
/// that, the first capture that cannot be moved into place is refused, and the new files after it are removed.
pub(crate) fn write_wires<R: Files>(
    rt: &R,
    alloc: Global,
    pairs: usize,
    wires: &[WireFile<'_>],
    targets: &[Target],
    flows: &[FlowReport],
) -> Result<(), FileRefusal>
    requires pairs { pairs ≤ MOST_PAIRS }
    requires flows { length flows.now ≡ PORTS * pairs }
    requires targets { length targets.now ≡ length wires.now }
    ensures { IfErr result (λ e. IsUnpaged wires.now e) }
{
    let mut parts = Vec::new(alloc);
    for at in 0..wires.len() {
        let port = wires[at].port();
        let written = add_part(rt, alloc, pairs, port, &targets[at], flows, &mut parts);
        if let Err(refusal) = written {
            remove_all(rt, parts.as_slice());
            let place = RefusalSubject::Wire(at);
            return Err(FileRefusal { place, refusal });
        }
    }
    put_all(rt, alloc, pairs, wires, targets, parts.as_slice(), flows)
}

/// Writes the capture of a port beside its file, unless that is a stream or standard output. Appends the part's name.
fn add_part<R: Files>(
    rt: &R,
    alloc: Global,
    pairs: usize,
    port: u8,
    target: &Target,
    flows: &[FlowReport],
    parts: &mut Vec<Option<String>>,
) -> Result<(), Refusal>
    requires pairs { pairs ≤ MOST_PAIRS }
    requires flows { length flows.now ≡ PORTS * pairs }
    requires port { port < PORTS }
    ensures one { OnOk result (length parts.new.items ≡ length parts.old.items + 1) }
    ensures refused { IfErr result IsLost }
{
    let at = parts.len();
    parts.push(None).map_err(|_| Refusal::Memory)?;
    let (path, old) = match target {
        Target::Output | Target::Stream => return Ok(()),
        Target::New { path } => (path.as_str(), None),
        Target::Regular { path, old } => (path.as_str(), Some(old)),
    };
    let bytes = wire_capture(alloc, flows, pairs, port)?;
    let part = write_part(rt, alloc, path, old, bytes.as_slice())?;
    parts[at] = Some(part);
    Ok(())
}

/// Moves each capture into place.
fn put_all<R: Files>(
    rt: &R,
    alloc: Global,
    pairs: usize,
    wires: &[WireFile<'_>],
    targets: &[Target],
    parts: &[Option<String>],
    flows: &[FlowReport],
) -> Result<(), FileRefusal>
    requires pairs { pairs ≤ MOST_PAIRS }
    requires flows { length flows.now ≡ PORTS * pairs }
    requires targets { length targets.now ≡ length wires.now }
    requires parts { length parts.now ≡ length wires.now }
    ensures { IfErr result (λ e. IsUnpaged wires.now e) }
{
    for at in 0..wires.len() {
        let put = put_one(
            rt,
            alloc,
            pairs,
            &wires[at],
            &targets[at],
            &parts[at],
            flows,
        );
        if let Err(refusal) = put {
            remove_all(rt, &parts[at + 1..]);
            let place = RefusalSubject::Wire(at);
            return Err(FileRefusal { place, refusal });
        }
    }
    Ok(())
}

/// Moves a capture into place. A part that cannot be renamed is removed; one that cannot be copied stays.
fn put_one<R: Files>(
    rt: &R,
    alloc: Global,
    pairs: usize,
    wire: &WireFile<'_>,
    target: &Target,
    part: &Option<String>,
    flows: &[FlowReport],
) -> Result<(), Refusal>
    requires pairs { pairs ≤ MOST_PAIRS }
    requires flows { length flows.now ≡ PORTS * pairs }
    ensures { IfErr result IsLost }
{
    match (target, part) {
        (Target::Stream, _) => {
            let bytes = wire_capture(alloc, flows, pairs, wire.port())?;
            write_into(rt, wire.file(), bytes.as_slice())
        }
        (Target::New { path }, Some(part)) => rename(rt, part.as_str(), path.as_str()),
        (Target::Regular { path, old }, Some(part)) if is_kept_by(rt, part.as_str(), old) => {
            rename(rt, part.as_str(), path.as_str())
        }
        (Target::Regular { path, .. }, Some(part)) => {
            let bytes = wire_capture(alloc, flows, pairs, wire.port())?;
            overwrite(rt, path.as_str(), bytes.as_slice())?;
            remove(rt, part.as_str());
            Ok(())
        }
        _ => Ok(()),
    }
}

/// Removes these parts, as far as possible.
fn remove_all<R: Files>(rt: &R, parts: &[Option<String>]) {
    for part in parts {
        if let Some(part) = part {
            remove(rt, part.as_str());
        }
    }
}
