//! Reading a script.

ghost use Rattle.std.specs.Prelude.{◌≡◌, ◌≢◌, ◌<◌, [], ◌∷◌, ◌++◌, ◌⊎◌, ℕ, length, replicate, Ok, IfErr, IfOk, IsSome, OnOk, option_to_list};
ghost use Rattle.limits.specs.declared.profile.TheConstants.{MOST_SCRIPT_FRAMES};
ghost use Rattle.wire_script.specs.Frame.{Frame, InRange};
ghost use Rattle.wire_script.specs.Script.{Refuses, Says, fill_line, script_of};
ghost use Rattle.wire_script.specs.ScriptError.{Answers};
ghost use Rattle.refusals.specs.declared.errors.ScriptError.TheVariants.{Memory, TooMany};

use crate::frame::WireFrame;
use crate::line::line_of;
use crate::script::Script;
use limits::MOST_SCRIPT_FRAMES;
use refusals::ScriptError;
use std::alloc::Global;
use text_lines::cut;

/// Reads the frames of a text. Returns the fault of its first faulty line, and of several faults there the one with the
/// lowest number (71 to 76, see [`ScriptError`]). Returns 77, without a line, if memory is refused before a fault is
/// found. After a refusal nothing of the text is kept.
///
/// Reads the text once and makes no copy of it. The result takes the frames' bytes and, from the second frame on, at
/// most 64 bytes a frame: 32 for each, in a list that grows by doubling.
pub fn parse(alloc: Global, text: &[u8]) -> Result<Script, ScriptError>
    // The result, which is unique.
    ensures exact { Answers result (script_of text.now) }

    // Its meaning: no line has a fault, and the frames are those of the lines; or the lines before the refused one have
    // no fault.
    ensures frames { IfOk result (Says text.now) }
    ensures refused { IfErr result (λ e. (e ≡ Memory) ⊎ Refuses text.now e) }

    // A line with `fill` has its length in decimal and its byte in hex.
    ensures fill { (frame : Frame) (byte : ℕ) → InRange frame → byte < 256
        → frame.bytes ≡ replicate (length frame.bytes) byte → text.now ≡ fill_line frame byte
        → Answers result (Ok (frame ∷ [])) }
{
    read(alloc, text)
}

fn read(alloc: Global, text: &[u8]) -> Result<Script, ScriptError>
    ensures { Answers result (script_of text.now) }
{
    let mut frames = Vec::new(alloc);
    let mut rest = Some(text);
    let mut line: u64 = 0;
    while let Some(left) = rest {
        let (bytes, after) = cut(left, b'\n');
        line += 1;
        rest = after;
        add(&mut frames, line_of(alloc, bytes, line)?, line)?;
    }
    Ok(Script::new(frames))
}

// Adds the frame of this line, if it has one and there may be one more.
fn add(frames: &mut Vec<WireFrame>, said: Option<WireFrame>, line: u64) -> Result<(), ScriptError>
    ensures added { OnOk result (frames.new.items ≡ frames.old.items ++ option_to_list said) }
    ensures room { OnOk result (IsSome said → length frames.old.items ≢ MOST_SCRIPT_FRAMES) }
    ensures err { IfErr result (λ e. (e ≡ Memory) ⊎ ((e ≡ TooMany line) × IsSome said × (length frames.old.items ≡ MOST_SCRIPT_FRAMES))) }
{
    let Some(frame) = said else {
        return Ok(());
    };
    if frames.len() == MOST_SCRIPT_FRAMES {
        return Err(ScriptError::TooMany { line });
    }
    frames.push(frame).map_err(|_| ScriptError::Memory)
}
