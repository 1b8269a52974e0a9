//! Reads the frames of captures.
ghost use Rattle.std.specs.Prelude.{◌≡◌, ◌++◌, ◌<◌, ◌≤◌, ℕ, List, length, Ok, IfErr, IfOk, OnOk};
ghost use Rattle.capture.specs.CaptureError.{Fails};
ghost use Rattle.refusals.specs.declared.errors.CaptureError.TheVariants.{Memory};
ghost use Rattle.capture.specs.Frames.{frames_at};
ghost use Rattle.limits.specs.declared.profile.TheConstants.{MOST_PAIRS, MOST_SCRIPT_FRAMES, PORTS};
ghost use Rattle.wire_script.specs.Frame.{frame_of};
ghost use Rattle.forward_io.specs.Gathering.{AreGathered, IsAdded, IsUngathered, IsUnread, with_capture};

use crate::captured::files::read_file;
use crate::captured::refused::{FileRefusal, RefusalSubject};
use crate::explaining::explain_capture;
use capture::{CaptureError, CaptureRecord, ReadOptions, Skipped, read_with};
use limits::MOST_SCRIPT_FRAMES;
use requests::{Refusal, Source};
use std::alloc::{AllocError, Global};
use std::rt::Files;
use wire_script::WireFrame;

/// Frames of captures, and how many records were left out of each.
#[derive(Drop)]
pub struct CapturedScript {
    /// The frames, capture by capture.
    pub frames: Vec<WireFrame>,
    /// For each capture, how many records were left out.
    pub skipped: Vec<Skipped>,
}

/// Appends the frames of a capture, read with these options, each at this port, 0 or 1, and this queue, 0 to 7. Returns
/// how many records were left out.
///
/// Returns the capture's first fault or `Memory`. If the capture alone is good, but the total would exceed
/// [`MOST_SCRIPT_FRAMES`](limits::MOST_SCRIPT_FRAMES), it returns `TooMany` with the number of the first frame beyond
/// that, without records left out. After a refusal, some of the capture's frames may already be appended.
pub fn add_capture(
    alloc: Global,
    reading: ReadOptions,
    frames: &mut Vec<WireFrame>,
    port: u8,
    queue: u8,
    bytes: &[u8],
) -> Result<Skipped, CaptureError>
    requires port { port < PORTS }
    requires queue { queue < MOST_PAIRS }
    requires room { length frames.old.items ≤ MOST_SCRIPT_FRAMES }
    ensures added { IfOk result (λ skipped. with_capture reading frames.old.items port queue bytes.now ≡ Ok (frames.new.items, skipped)) }
    ensures room { OnOk result (length frames.new.items ≤ MOST_SCRIPT_FRAMES) }
    ensures refused { IfErr result (λ e. Fails e (with_capture reading frames.old.items port queue bytes.now)) }
{
    let (found, skipped) = read_with(alloc, bytes, reading)?;
    let room = MOST_SCRIPT_FRAMES - frames.len();
    if found.records().len() > room {
        let number = room as u64 + 1;
        return Err(CaptureError::TooMany { number });
    }
    push_frames(alloc, frames, port, queue, found.records())?;
    Ok(skipped)
}

/// Appends the frames of these records.
fn push_frames(
    alloc: Global,
    frames: &mut Vec<WireFrame>,
    port: u8,
    queue: u8,
    records: &[CaptureRecord<'_>],
) -> Result<(), CaptureError>
    requires port { port < PORTS }
    requires queue { queue < MOST_PAIRS }
    ensures pushed { OnOk result (frames.new.items ≡ frames.old.items ++ frames_at port queue records.now) }
    ensures err { IfErr result (λ e. e ≡ Memory) }
{
    for found in records {
        let Ok(frame) = frame_for(alloc, port, queue, found) else {
            return Err(CaptureError::Memory);
        };
        frames.push(frame).map_err(|_| CaptureError::Memory)?;
    }
    Ok(())
}

/// Copies the frame of a record.
fn frame_for(
    alloc: Global,
    port: u8,
    queue: u8,
    found: &CaptureRecord<'_>,
) -> Result<WireFrame, AllocError>
    requires port { port < PORTS }
    requires queue { queue < MOST_PAIRS }
    ensures { IfOk result (λ frame. frame ≡ frame_of port queue found.now.frame) }
{
    let held = found.frame();
    let mut bytes = Vec::with_capacity(alloc, held.len())?;
    bytes.extend_from_slice(held)?;
    Ok(WireFrame::new(port, queue, bytes))
}

/// Returns the frames of the captures in these files, read with these options, source by source, each at its port and
/// queue, and how many records were left out of each.
///
/// Returns the first source that is refused, with `FileNotRead` if its file cannot be read, `Memory` if its bytes
/// cannot be allocated, or the fault of its capture, whose explanation is appended to `why`. The bytes of a file are
/// freed before the next file is read.
pub fn gather<R: Files>(
    rt: &R,
    alloc: Global,
    reading: ReadOptions,
    sources: &[Source<'_>],
    why: &mut String,
) -> Result<CapturedScript, FileRefusal>
    ensures frames { IfOk result (λ g. AreGathered reading sources.now g.frames.items g.skipped.items) }
    ensures room { IfOk result (λ g. length g.frames.items ≤ MOST_SCRIPT_FRAMES) }
    ensures refused { IfErr result (λ e. IsUngathered reading sources.now e) }
{
    let mut frames = Vec::new(alloc);
    let mut skipped = Vec::new(alloc);
    let mut at = 0usize;
    for source in sources {
        let added = add_file(rt, alloc, reading, &mut frames, &mut skipped, source, why);
        if let Err(refusal) = added {
            drop(frames);
            let place = RefusalSubject::Source(at);
            return Err(FileRefusal { place, refusal });
        }
        at += 1;
    }
    Ok(CapturedScript { frames, skipped })
}

/// Appends the frames of a source's capture, and how many records were left out.
fn add_file<R: Files>(
    rt: &R,
    alloc: Global,
    reading: ReadOptions,
    frames: &mut Vec<WireFrame>,
    skipped: &mut Vec<Skipped>,
    source: &Source<'_>,
    why: &mut String,
) -> Result<(), Refusal>
    requires room { length frames.old.items ≤ MOST_SCRIPT_FRAMES }
    ensures added { OnOk result (IsAdded reading source.now frames.old.items frames.new.items skipped.old.items skipped.new.items) }
    ensures room { OnOk result (length frames.new.items ≤ MOST_SCRIPT_FRAMES) }
    ensures refused { IfErr result (λ e. IsUnread reading source.now frames.old.items e) }
{
    let bytes = read_file(rt, alloc, source.file())?;
    let (port, queue) = source.place();
    match add_capture(alloc, reading, frames, port, queue, bytes.as_slice()) {
        Ok(left_out) => skipped.push(left_out).map_err(|_| Refusal::Memory),
        Err(fault) => {
            let _ = explain_capture(alloc, why, bytes.as_slice(), fault);
            Err(Refusal::Capture(fault))
        }
    }
}
