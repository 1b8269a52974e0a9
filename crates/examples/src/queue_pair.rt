//! A pair of queues: packets that come in on one are sent on the other.
ghost use Rattle.std.specs.Prelude.{All};
ghost use Rattle.buffer_pool.specs.Packed.{IsPacket};

use crate::ports::Ports;
use crate::rounds::forward;
use anyhow::Result;
use arrayvec::ArrayVec;
use buffer_pool::Packet;
use driver::{DriverError, MOST_BATCH};
use std::alloc::Global;

/// Two ports, and the packets for which there was no room.
#[derive(Drop)]
pub struct QueuePair {
    ports: Ports,
    packets: ArrayVec<Packet, MOST_BATCH>,
    ghost whole: { All IsPacket packets.items },
}

impl QueuePair {
    /// Makes two ports, without a waiting packet.
    pub fn new(alloc: Global) -> Result<QueuePair> {
        Ok(QueuePair {
            ports: Ports::new(alloc)?,
            packets: ArrayVec::new(),
        })
    }

    /// Receives what came in, and sends it on.
    pub fn forward(&mut self) -> Result<usize, DriverError> {
        let ports = &mut self.ports;
        forward(
            &ports.from,
            &mut ports.rx,
            &ports.to,
            &mut ports.tx,
            &mut ports.stash,
            &mut self.packets,
        )
    }
}

/// Lets a frame come in ten times. Returns how many frames went out.
pub fn forwarded(alloc: Global, frame: &[u8]) -> Result<usize> {
    let mut pair = QueuePair::new(alloc)?;
    let went = forward_ten(&mut pair, frame);
    let count = pair.ports.wire.len();
    drop(pair);
    went?;
    Ok(count)
}

/// Lets a frame come in ten times.
fn forward_ten(pair: &mut QueuePair, frame: &[u8]) -> Result<()> {
    for _ in 0..2 {
        pair.ports.enable()?; // asked, and then seen
    }
    for _ in 0..10 {
        pair.forward()?; // empty buffers are posted
        pair.ports.serve(frame)?;
    }
    pair.forward()?;
    pair.ports.serve(frame)?;
    Ok(())
}
