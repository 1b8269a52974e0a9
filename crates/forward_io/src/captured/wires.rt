//! Builds the capture of the frames that leave a port.
ghost use Rattle.std.specs.Prelude.{◌≡◌, ◌+◌, ◌*◌, ◌<◌, ◌≤◌, ◌++◌, [], length, map, IfErr, IfOk, OnOk};
ghost use Rattle.std.specs.List.{flat_map};
ghost use Rattle.capture.specs.Writing.{capture_of, record_bytes};
ghost use Rattle.capture.specs.Records.{record_at, records_from};
ghost use Rattle.requests.specs.declared.refusal.Refusal.TheVariants.{Memory};
ghost use Rattle.forward_io.specs.Text.{wires_from};
ghost use Rattle.limits.specs.declared.profile.TheConstants.{MOST_PAIRS, PORTS};
ghost use Rattle.wire_script.specs.Frame.{frame_of};
ghost use Rattle.forward_io.specs.Wires.{IsUncaptured, port_capture};

use crate::outputs::leaving;
use capture::{CaptureError, CaptureRecord, write_header, write_record};
use controller::Wire;
use forwarding::FlowReport;
use limits::{LEAST_FRAME, MOST_FRAME};
use requests::Refusal;
use std::alloc::Global;

/// Microseconds in a second.
const SECOND: u32 = 1_000_000;

/// Length in bytes of a capture's header, and of the header of each record.
const HEADER: usize = 24;

const RECORD_HEADER: usize = 16;

/// Returns the capture of the frames that left a port, 0 or 1, from a report with `pairs` queue pairs at each port. It
/// has the wires of the flows that leave there, queues ascending; frame k, counted from 0, has a
/// timestamp of k microseconds. It is allocated once.
///
/// Returns `Memory`, also for 2³² frames or more, or `Capture` if a frame's length is not 14 to 15,000 bytes. All frames of
/// a script have such a length.
pub fn wire_capture(
    alloc: Global,
    flows: &[FlowReport],
    pairs: usize,
    port: u8,
) -> Result<Vec<u8>, Refusal>
    requires pairs { pairs ≤ MOST_PAIRS }
    requires flows { length flows.now ≡ PORTS * pairs }
    requires port { port < PORTS }
    ensures bytes { IfOk result (λ bytes. bytes.items ≡ port_capture port pairs flows.now) }
    ensures refused { IfErr result (λ e. IsUncaptured e) }
{
    let (from_0, from_1) = flows.split_at(pairs);
    capture_of_flows(alloc, port, leaving(port, from_0, from_1))
}

/// Returns the capture of the wires of flows that leave this port.
fn capture_of_flows(alloc: Global, port: u8, flows: &[FlowReport]) -> Result<Vec<u8>, Refusal>
    ensures bytes { IfOk result (λ bytes. bytes.items ≡ capture_of (records_from 0 (wires_from port 0 flows.now))) }
    ensures refused { IfErr result (λ e. IsUncaptured e) }
{
    let _port = port;
    let mut bytes = begun(alloc, capture_len(flows))?;
    let mut number = 0u32;
    for flow in flows {
        number = write_wire(&mut bytes, number, &flow.wire)?;
    }
    Ok(bytes)
}

/// Returns a capture's header in a vector of capacity `room`.
fn begun(alloc: Global, room: usize) -> Result<Vec<u8>, Refusal>
    ensures header { IfOk result (λ bytes. bytes.items ≡ capture_of []) }
    ensures refused { IfErr result (λ e. e ≡ Memory) }
{
    let mut bytes = Vec::with_capacity(alloc, room)?;
    match write_header(&mut bytes) {
        Ok(()) => Ok(bytes),
        Err(_) => Err(Refusal::Memory),
    }
}

/// Writes a record for each frame of a wire, the first at `number` microseconds. Returns the time of the next frame.
fn write_wire(bytes: &mut Vec<u8>, number: u32, wire: &Wire) -> Result<u32, Refusal>
    ensures written { OnOk result (bytes.new.items ≡ bytes.old.items ++ flat_map record_bytes (records_from number (map (frame_of 0 0) wire.now))) }
    ensures counted { IfOk result (λ n. n ≡ number + length wire.now) }
    ensures refused { IfErr result (λ e. IsUncaptured e) }
{
    let mut at = number;
    for frame in wire.iter() {
        write_frame(bytes, at, frame)?;
        at = at.checked_add(1).ok_or(Refusal::Memory)?;
    }
    Ok(at)
}

/// Writes a frame's record, at `number` microseconds.
fn write_frame(bytes: &mut Vec<u8>, number: u32, frame: &[u8]) -> Result<(), Refusal>
    ensures written { OnOk result (bytes.new.items ≡ bytes.old.items ++ record_bytes (record_at number (frame_of 0 0 frame.now))) }
    ensures refused { IfErr result (λ e. IsUncaptured e) }
{
    if frame.len() < LEAST_FRAME || MOST_FRAME < frame.len() {
        let place = u64::from(number) + 1;
        return Err(Refusal::Capture(CaptureError::FrameLength { number: place }));
    }
    let found = CaptureRecord::new(number / SECOND, number % SECOND, frame);
    write_record(bytes, &found).map_err(|_| Refusal::Memory)
}

/// Length of the capture in bytes. It is only a capacity, and no clause describes it.
fn capture_len(flows: &[FlowReport]) -> usize {
    let mut len = HEADER;
    for flow in flows {
        len = len.saturating_add(wire_len(&flow.wire));
    }
    len
}

/// Length of a wire's records in bytes.
fn wire_len(wire: &Wire) -> usize {
    let mut len = 0usize;
    for frame in wire.iter() {
        len = len
            .saturating_add(RECORD_HEADER)
            .saturating_add(frame.len());
    }
    len
}
