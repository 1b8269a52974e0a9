//! Skips the lines of flows among those of wires.
ghost use Rattle.std.specs.Prelude.{◌≡◌, true, map};
ghost use Rattle.text_lines.specs.Parts.{lines_of};
ghost use Rattle.forward_io.specs.Flows.{passed_line, tells_of_flow, without_flows};

/// The beginning of a flow's line.
const FLOW: &[u8] = b"flow ";

/// Turns each line that begins with `flow ` into a comment, so that the script parser skips it.
pub(crate) fn pass_flows(text: &mut [u8])
    ensures { lines_of text.new ≡ map passed_line (lines_of text.old) }
{
    comment_flows(text);
}

/// Replaces the first byte of each such line by `#`.
fn comment_flows(text: &mut [u8])
    ensures { text.new ≡ without_flows true text.old }
{
    let mut begins = true;
    for at in 0..text.len() {
        let ends = text[at] == b'\n';
        if begins && tells_of_flow(text.split_at(at).1) {
            text[at] = b'#';
        }
        begins = ends;
    }
}

/// Whether these bytes begin like the line of a flow.
fn tells_of_flow(bytes: &[u8]) -> bool
    ensures { result ≡ tells_of_flow bytes.now }
{
    bytes.len() >= FLOW.len() && bytes.split_at(FLOW.len()).0 == FLOW
}
