//! The text of a report.
ghost use Rattle.std.specs.Prelude.{◌≡◌, ◌++◌, ◌*◌, ◌<◌, ◌≤◌, length, map, IfErr, IfOk, OnOk};
ghost use Rattle.std.specs.String.{string_bytes};
ghost use Rattle.limits.specs.declared.profile.TheConstants.{MOST_PAIRS, PORTS};
ghost use Rattle.requests.specs.declared.refusal.Refusal.TheVariants.{Memory};
ghost use Rattle.wire_script.specs.Frame.{frame_of};
ghost use Rattle.wire_script.specs.Script.{text_for};
ghost use Rattle.forward_io.specs.Text.{ending_words, flow_line, flow_text, flow_texts, report_text, wires_from, wires_text};

use crate::counts::write_counters;
use crate::objects::{word_of, write_object, write_ports};
use crate::outputs::leaving;
use controller::Wire;
use forwarding::FlowReport;
use requests::{Printing, Refusal};
use std::alloc::Global;
use wire_script::print_line;

/// Bytes of a frame's line besides its digits: port, queue, two spaces and LF.
const AROUND_FRAME: usize = 5;

/// Capacity for the line or the object of a flow: its words, and numbers of up to 20 digits.
const FLOW_LINE: usize = 512;

/// Number of bytes of a wire's lines: two digits for each byte of its frames, and what is around each frame.
fn wire_room(wire: &Wire, bytes: u64) -> usize {
    let around = wire.len().saturating_mul(AROUND_FRAME);
    if wire.is_empty() {
        return around;
    }
    (bytes as usize).saturating_mul(2).saturating_add(around)
}

/// Capacity for the text of these flows.
fn room_for(flows: &[FlowReport], quiet: bool) -> usize {
    let mut room = 0usize;
    for flow in flows {
        let wire = if quiet {
            0
        } else {
            wire_room(&flow.wire, flow.sent_bytes)
        };
        room = room.saturating_add(wire).saturating_add(FLOW_LINE);
    }
    room
}

/// Writes a line for each frame of a wire.
fn write_wire(
    alloc: Global,
    text: &mut String,
    port: u8,
    queue: u8,
    wire: &Wire,
) -> Result<(), Refusal>
    requires port { port < PORTS }
    requires queue { queue < MOST_PAIRS }
    ensures lines { OnOk result (string_bytes text.new ≡ string_bytes text.old ++ text_for (map (frame_of port queue) wire.now)) }
    ensures refused { IfErr result (λ e. e ≡ Memory) }
{
    for frame in wire.iter() {
        let Ok(()) = print_line(alloc, text, port, queue, frame) else {
            return Err(Refusal::Memory);
        };
    }
    Ok(())
}

/// Writes the wires of the flows that leave a port, queues ascending.
fn write_wires(
    alloc: Global,
    text: &mut String,
    port: u8,
    flows: &[FlowReport],
) -> Result<(), Refusal>
    requires port { port < PORTS }
    requires queues { length flows.now ≤ MOST_PAIRS }
    ensures lines { OnOk result (string_bytes text.new ≡ string_bytes text.old ++ text_for (wires_from port 0 flows.now)) }
    ensures refused { IfErr result (λ e. e ≡ Memory) }
{
    for (queue, flow) in flows.iter().enumerate() {
        write_wire(alloc, text, port, queue as u8, &flow.wire)?;
    }
    Ok(())
}

/// Writes the wires of both ports, port 0's first, unless `quiet` is set.
fn write_both(
    alloc: Global,
    text: &mut String,
    quiet: bool,
    from_0: &[FlowReport],
    from_1: &[FlowReport],
) -> Result<(), Refusal>
    requires front { length from_0.now ≤ MOST_PAIRS }
    requires back { length from_1.now ≤ MOST_PAIRS }
    ensures lines { OnOk result (string_bytes text.new ≡ string_bytes text.old ++ wires_text quiet from_0.now from_1.now) }
    ensures refused { IfErr result (λ e. e ≡ Memory) }
{
    if quiet {
        return Ok(());
    }
    write_wires(alloc, text, 0, leaving(0, from_0, from_1))?;
    write_wires(alloc, text, 1, leaving(1, from_0, from_1))
}

/// Writes the line of the flow that came in at this port and queue.
fn write_flow(text: &mut String, port: u8, queue: u8, flow: &FlowReport) -> Result<(), Refusal>
    ensures line { OnOk result (string_bytes text.new ≡ string_bytes text.old ++ flow_line port queue flow.now) }
    ensures refused { IfErr result (λ e. e ≡ Memory) }
{
    write!(text, "flow {port} {queue}")?;
    write_counters(text, false, &flow.counters().entries())?;
    write_ending(text, flow)
}

/// Writes how many frames left a flow, how many remained, and how it ended.
fn write_ending(text: &mut String, flow: &FlowReport) -> Result<(), Refusal>
    ensures words { OnOk result (string_bytes text.new ≡ string_bytes text.old ++ ending_words flow.now) }
    ensures refused { IfErr result (λ e. e ≡ Memory) }
{
    let (wire, word) = (flow.sent, word_of(flow.ended));
    writeln!(text, " wire {wire} left {} ended {word}", flow.left)?;
    Ok(())
}

/// Writes the object or the line of a flow.
fn write_counts(
    text: &mut String,
    json: bool,
    port: u8,
    queue: u8,
    flow: &FlowReport,
) -> Result<(), Refusal>
    requires port { port < PORTS }
    ensures counts { OnOk result (string_bytes text.new ≡ string_bytes text.old ++ flow_text json port queue flow.now) }
    ensures refused { IfErr result (λ e. e ≡ Memory) }
{
    if json {
        write_object(text, port, queue, flow)
    } else {
        write_flow(text, port, queue, flow)
    }
}

/// Writes the objects or the lines of the flows that came in at a port.
fn write_flows(text: &mut String, json: bool, port: u8, flows: &[FlowReport]) -> Result<(), Refusal>
    requires port { port < PORTS }
    requires queues { length flows.now ≤ MOST_PAIRS }
    ensures lines { OnOk result (string_bytes text.new ≡ string_bytes text.old ++ flow_texts json port 0 flows.now) }
    ensures refused { IfErr result (λ e. e ≡ Memory) }
{
    for (queue, flow) in flows.iter().enumerate() {
        write_counts(text, json, port, queue as u8, flow)?;
    }
    Ok(())
}

/// Returns the text of a report with `pairs` queue pairs at each port. It begins with the wires, port 0's first and
/// queues ascending, unless `printing.quiet` is set. A line or an object for each flow follows, those that came in at
/// port 0 first, and with objects also one for each port, with the sums of its flows. Frames that come in at one port leave
/// at the other.
///
/// The text is allocated once, and frames are printed without an intermediate copy. Returns `Memory` if that fails.
pub fn text_of(
    alloc: Global,
    flows: &[FlowReport],
    pairs: usize,
    printing: Printing,
) -> Result<String, Refusal>
    requires pairs { pairs ≤ MOST_PAIRS }
    requires flows { length flows.now ≡ PORTS * pairs }
    ensures text { IfOk result (λ text. string_bytes text ≡ report_text printing pairs flows.now) }
    ensures refused { IfErr result (λ e. e ≡ Memory) }
{
    let (from_0, from_1) = flows.split_at(pairs);
    let mut text = String::with_capacity(alloc, room_for(flows, printing.quiet))?;
    write_both(alloc, &mut text, printing.quiet, from_0, from_1)?;
    write_flows(&mut text, printing.json, 0, from_0)?;
    write_flows(&mut text, printing.json, 1, from_1)?;
    write_ports(&mut text, printing.json, from_0, from_1)?;
    Ok(text)
}
