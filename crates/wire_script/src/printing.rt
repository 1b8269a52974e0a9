//! Writing frames as a script.

ghost use Rattle.std.specs.Prelude.{◌≡◌, ◌++◌, ◌<◌, ◌≤◌, length, IfErr, IfOk, Ok, OnOk};
ghost use Rattle.std.specs.String.{string_bytes};
ghost use Rattle.limits.specs.declared.profile.TheConstants.{MOST_PAIRS, MOST_SCRIPT_FRAMES, PORTS};
ghost use Rattle.wire_script.specs.Frame.{frame_of};
ghost use Rattle.wire_script.specs.Script.{line_for, script_of, text_for};
ghost use Rattle.refusals.specs.declared.errors.ScriptError.TheVariants.{Memory};

use crate::frame::WireFrame;
use refusals::ScriptError;
use std::alloc::{AllocError, Global};

/// Writes one line `<port> <queue> <hex>` a frame, in lower case, each ended by LF.
///
/// Writes any number of frames; [`parse`](crate::parse) reads back up to
/// [`MOST_SCRIPT_FRAMES`](limits::MOST_SCRIPT_FRAMES) of them. Returns only `Memory`.
pub fn print(alloc: Global, frames: &[WireFrame]) -> Result<String, ScriptError>
    ensures text { IfOk result (λ text. string_bytes text ≡ text_for frames.now) }
    ensures read_back { IfOk result (λ text. length frames.now ≤ MOST_SCRIPT_FRAMES → script_of (string_bytes text) ≡ Ok frames.now) }
    ensures err { IfErr result (λ e. e ≡ Memory) }
{
    let mut text = String::new(alloc);
    for frame in frames {
        print_line(alloc, &mut text, frame.port(), frame.queue(), frame.bytes())?;
    }
    Ok(text)
}

/// Appends one frame's line to a text, as [`print`] writes it, without a `WireFrame`. `port` is 0 or 1, `queue` is 0 to
/// 7.
///
/// Returns only `Memory`; the text may then end with the beginning of the line.
pub fn print_line(
    alloc: Global,
    text: &mut String,
    port: u8,
    queue: u8,
    bytes: &[u8],
) -> Result<(), ScriptError>
    requires port { port < PORTS }
    requires queue { queue < MOST_PAIRS }
    ensures line { OnOk result (string_bytes text.new ≡ string_bytes text.old ++ line_for (frame_of port queue bytes.now)) }
    ensures err { IfErr result (λ e. e ≡ Memory) }
{
    push_line(alloc, text, port, queue, bytes).map_err(|_| ScriptError::Memory)
}

#[tactic(auto, unfolding(crate::specs::Script::line_for))]
fn push_line(
    alloc: Global,
    text: &mut String,
    port: u8,
    queue: u8,
    bytes: &[u8],
) -> Result<(), AllocError>
    requires port { port < PORTS }
    requires queue { queue < MOST_PAIRS }
    ensures { OnOk result (string_bytes text.new ≡ string_bytes text.old ++ line_for (frame_of port queue bytes.now)) }
{
    text.push(char::from(b'0' + port))?;
    text.push(' ')?;
    text.push(char::from(b'0' + queue))?;
    text.push(' ')?;
    text.push_str(hex::encode(alloc, bytes)?.as_str())?;
    text.push('\n')
}
