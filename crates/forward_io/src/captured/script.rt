//! The script of the input, after the frames of captures.
ghost use Rattle.std.specs.Prelude.{◌≡◌, ◌≤◌, ◌+◌, ◌++◌, length, vec_len, true, Ok, IfErr, IfOk, OnOk};
ghost use Rattle.requests.specs.declared.refusal.Refusal.TheVariants as refusal;
ghost use Rattle.limits.specs.declared.profile.TheConstants.{MOST_SCRIPT_FRAMES};
ghost use Rattle.refusals.specs.declared.errors.ScriptError.{ScriptError as Fault};
ghost use Rattle.text_lines.specs.Parts.{lines_of};
ghost use Rattle.wire_script.specs.ScriptError.{Answers, Fails};
ghost use Rattle.forward_io.specs.ScriptIntakes.{IsContinued, IsFaulty};
ghost use Rattle.forward_io.specs.Intakes.{frame_line, left_after, script_within};

use crate::explaining::{explain_script, first_beyond};
use limits::MOST_SCRIPT_FRAMES;
use requests::{Excerpt, Refusal, read_text};
use std::alloc::{AllocError, Global};
use std::io::Read;
use text_lines::{cut, says_something};
use wire_script::{Script, ScriptError, WireFrame, parse};

/// Returns these frames of captures, and then those of the script of the input.
///
/// Returns the script's first fault. If the script alone is good, but the total would exceed
/// [`MOST_SCRIPT_FRAMES`](limits::MOST_SCRIPT_FRAMES), it returns `TooMany` with the line of the first frame beyond
/// that. Appends the explanation of a fault to `why`, and that of a frame whose queue is not below `pairs`. The text is
/// freed before frames are copied.
pub(crate) fn read_script<I: Read>(
    alloc: Global,
    pairs: u32,
    captured: Vec<WireFrame>,
    input: &mut I,
    why: &mut String,
) -> Result<Script, Refusal>
    requires room { vec_len captured ≤ MOST_SCRIPT_FRAMES }
    ensures script { IfOk result (λ script. IsContinued true (I.remaining input.old) captured.items script) }
    ensures refused { IfErr result (λ e. IsFaulty (I.remaining input.old) captured.items e) }
{
    let text = read_text(alloc, input)?;
    let room = MOST_SCRIPT_FRAMES - captured.len();
    let script = parsed(alloc, pairs, room, text, why)?;
    Ok(joined(alloc, captured, script)?)
}

/// Parses a script with at most `room` frames. Appends explanations to `why`.
fn parsed(
    alloc: Global,
    pairs: u32,
    room: usize,
    text: Vec<u8>,
    why: &mut String,
) -> Result<Script, Refusal>
    ensures script { IfOk result (λ script. script_within room text.items ≡ Ok script) }
    ensures room { IfOk result (λ script. length script ≤ room) }
    ensures refused { IfErr result (λ e. (fault : Fault) × (e ≡ refusal.Script fault) × Fails fault (script_within room text.items)) }
{
    let bytes = text.as_slice();
    match script_within(alloc, room, bytes) {
        Ok(script) => {
            explain_queue(why, pairs, bytes, &script);
            Ok(script)
        }
        Err(fault) => {
            let _ = explain_script(why, bytes, fault);
            Err(Refusal::Script(fault))
        }
    }
}

/// Returns the frames of a script's text, if they are at most `room`.
fn script_within(alloc: Global, room: usize, text: &[u8]) -> Result<Script, ScriptError>
    ensures script { Answers result (script_within room text.now) }
    ensures room { IfOk result (λ script. length script ≤ room) }
{
    let script = parse(alloc, text)?;
    if script.frames().len() > room {
        let line = frame_line(text, room);
        return Err(ScriptError::TooMany { line });
    }
    Ok(script)
}

/// Returns the number of the line of frame `place`, counted from 0, in the text of a script without a fault.
fn frame_line(text: &[u8], place: usize) -> u64
    ensures { result ≡ frame_line 1 place (lines_of text.now) }
{
    let mut rest = Some(text);
    let mut line: u64 = 1;
    let mut left = place;
    while let Some(bytes) = rest {
        let (content, after) = cut(bytes, b'\n');
        let Some(more) = left_after(content, left) else {
            return line;
        };
        left = more;
        rest = after;
        line += 1;
    }
    line
}

/// Returns how many frames come before the one that is looked for, after this line. Returns `None` if the line is that
/// frame.
fn left_after(line: &[u8], left: usize) -> Option<usize>
    ensures { result ≡ left_after line.now left }
{
    if !says_something(line) {
        return Some(left);
    }
    if left == 0 {
        return None;
    }
    Some(left - 1)
}

/// Explains the first line whose queue is not below `pairs`, if there is one.
fn explain_queue(why: &mut String, pairs: u32, text: &[u8], script: &Script) {
    let fits = |frame: &WireFrame| u32::from(frame.queue()) < pairs;
    if script.frames().iter().all(fits) {
        return;
    }
    if let Some((line, queue)) = first_beyond(text, pairs) {
        let most = pairs.saturating_sub(1);
        let _ = write!(
            why,
            "line {line} names queue {}, but --pairs {pairs} has queues 0 to {most}",
            Excerpt(queue)
        );
    }
}

/// Returns frames of captures, and then those of a script. Copies only the latter, and none without captures.
fn joined(alloc: Global, captured: Vec<WireFrame>, script: Script) -> Result<Script, AllocError>
    requires room { vec_len captured + length script ≤ MOST_SCRIPT_FRAMES }
    ensures { IfOk result (λ joined. joined ≡ captured.items ++ script) }
{
    if captured.is_empty() {
        return Ok(script);
    }
    let mut frames = captured;
    push_copies(alloc, &mut frames, script.frames())?;
    Ok(Script::new(frames))
}

/// Appends copies of these frames.
fn push_copies(
    alloc: Global,
    frames: &mut Vec<WireFrame>,
    more: &[WireFrame],
) -> Result<(), AllocError>
    ensures { OnOk result (frames.new.items ≡ frames.old.items ++ more.now) }
{
    for frame in more {
        frames.push(copy_of(alloc, frame)?)?;
    }
    Ok(())
}

/// Copies a frame.
fn copy_of(alloc: Global, frame: &WireFrame) -> Result<WireFrame, AllocError>
    ensures { IfOk result (λ copy. copy ≡ frame.now) }
{
    let held = frame.bytes();
    let mut bytes = Vec::with_capacity(alloc, held.len())?;
    bytes.extend_from_slice(held)?;
    Ok(WireFrame::new(frame.port(), frame.queue(), bytes))
}
