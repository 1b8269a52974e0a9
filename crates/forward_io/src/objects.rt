//! The reports of flows, and the sums of ports, as JSON objects.
ghost use Rattle.std.specs.Prelude.{◌≡◌, ◌<◌, ◌++◌, IfErr, OnOk};
ghost use Rattle.std.specs.String.{string_bytes};
ghost use Rattle.requests.specs.declared.refusal.Refusal.TheVariants.{Memory};
ghost use Rattle.limits.specs.declared.profile.TheConstants.{PORTS};
ghost use Rattle.forward_io.specs.Objects.{direction_members, end_members, ended_member, ended_word, flow_object, port_object, port_objects, received_members, remaining_members, sent_members};

use crate::counts::write_counters;
use crate::outputs::leaving;
use crate::sums::PortSums;
use forwarding::{Ended, FlowReport, PortQueue, peer};
use requests::Refusal;

/// The printed word for how a flow ended.
pub(crate) fn word_of(ended: Ended) -> &'static str
    ensures { result.now ≡ ended_word ended }
{
    match ended {
        Ended::Drained => "drained",
        Ended::Cut => "cut",
    }
}

/// Writes the object of the flow that came in at this port and queue, and LF.
pub(crate) fn write_object(
    text: &mut String,
    port: u8,
    queue: u8,
    flow: &FlowReport,
) -> Result<(), Refusal>
    requires port { port < PORTS }
    ensures object { OnOk result (string_bytes text.new ≡ string_bytes text.old ++ flow_object port queue flow.now) }
    ensures refused { IfErr result (λ e. e ≡ Memory) }
{
    let input = PortQueue { port, queue };
    write_ends(text, input, peer(input))?;
    write_counters(text, true, &flow.counters().entries())?;
    write_remaining(text, flow)?;
    write_directions(text, flow)?;
    write_ended(text, flow)
}

/// Begins an object with the ends of a flow: where its frames come in, and where they leave.
fn write_ends(text: &mut String, input: PortQueue, output: PortQueue) -> Result<(), Refusal>
    ensures members { OnOk result (string_bytes text.new ≡ string_bytes text.old ++ end_members input output) }
    ensures refused { IfErr result (λ e. e ≡ Memory) }
{
    write!(
        text,
        "{{\"port\":{},\"queue\":{},\"rx_port\":{},\"rx_queue\":{},\"tx_port\":{},\"tx_queue\":{}",
        input.port, input.queue, input.port, input.queue, output.port, output.queue,
    )?;
    Ok(())
}

/// Writes how many frames left a flow, and how many segments remained.
fn write_remaining(text: &mut String, flow: &FlowReport) -> Result<(), Refusal>
    ensures members { OnOk result (string_bytes text.new ≡ string_bytes text.old ++ remaining_members flow.now) }
    ensures refused { IfErr result (λ e. e ≡ Memory) }
{
    write!(text, ",\"wire\":{},\"left\":{}", flow.sent, flow.left)?;
    Ok(())
}

/// Writes the frames and the bytes of a flow by direction.
fn write_directions(text: &mut String, flow: &FlowReport) -> Result<(), Refusal>
    ensures members { OnOk result (string_bytes text.new ≡ string_bytes text.old ++ direction_members flow.now) }
    ensures refused { IfErr result (λ e. e ≡ Memory) }
{
    write!(
        text,
        ",\"rx_packets\":{},\"rx_bytes\":{},\"rx_dropped\":{},\"tx_packets\":{},\"tx_bytes\":{}",
        flow.tally.stored, flow.stored_bytes, flow.tally.dropped, flow.sent, flow.sent_bytes,
    )?;
    Ok(())
}

/// Writes how a flow ended, and closes its object.
fn write_ended(text: &mut String, flow: &FlowReport) -> Result<(), Refusal>
    ensures member { OnOk result (string_bytes text.new ≡ string_bytes text.old ++ ended_member flow.now) }
    ensures refused { IfErr result (λ e. e ≡ Memory) }
{
    let word = word_of(flow.ended);
    writeln!(text, ",\"ended\":\"{word}\"}}")?;
    Ok(())
}

/// Writes an object for each port with the sums of its flows, if `json` is set.
pub(crate) fn write_ports(
    text: &mut String,
    json: bool,
    from_0: &[FlowReport],
    from_1: &[FlowReport],
) -> Result<(), Refusal>
    ensures objects { OnOk result (string_bytes text.new ≡ string_bytes text.old ++ port_objects json from_0.now from_1.now) }
    ensures refused { IfErr result (λ e. e ≡ Memory) }
{
    if !json {
        return Ok(());
    }
    let (to_0, to_1) = (leaving(0, from_0, from_1), leaving(1, from_0, from_1));
    write_port(text, 0, PortSums::of(from_0, to_0))?;
    write_port(text, 1, PortSums::of(from_1, to_1))
}

/// Writes the object of a port, and LF.
fn write_port(text: &mut String, port: u8, sums: PortSums) -> Result<(), Refusal>
    ensures object { OnOk result (string_bytes text.new ≡ string_bytes text.old ++ port_object port sums) }
    ensures refused { IfErr result (λ e. e ≡ Memory) }
{
    write_received(text, port, sums)?;
    write_sent(text, sums)
}

/// Begins the object of a port with what came in.
fn write_received(text: &mut String, port: u8, sums: PortSums) -> Result<(), Refusal>
    ensures members { OnOk result (string_bytes text.new ≡ string_bytes text.old ++ received_members port sums) }
    ensures refused { IfErr result (λ e. e ≡ Memory) }
{
    let (packets, bytes, dropped) = (sums.rx_packets, sums.rx_bytes, sums.rx_dropped);
    write!(
        text,
        "{{\"port\":{port},\"rx_packets\":{packets},\"rx_bytes\":{bytes},\"rx_dropped\":{dropped}"
    )?;
    Ok(())
}

/// Ends the object of a port with what left it, and LF.
fn write_sent(text: &mut String, sums: PortSums) -> Result<(), Refusal>
    ensures members { OnOk result (string_bytes text.new ≡ string_bytes text.old ++ sent_members sums) }
    ensures refused { IfErr result (λ e. e ≡ Memory) }
{
    let (packets, bytes, dropped) = (sums.tx_packets, sums.tx_bytes, sums.tx_dropped);
    writeln!(
        text,
        ",\"tx_packets\":{packets},\"tx_bytes\":{bytes},\"tx_dropped\":{dropped}}}"
    )?;
    Ok(())
}
