//! The values of a queue's registers, under the datasheet's names (82599 datasheet, 8.2.3.8 Receive DMA Registers,
//! 8.2.3.9 Transmit DMA Registers).

ghost use Rattle.std.specs.Prelude.{Some};
ghost use Rattle.ring_machine.specs.text.RegisterTexts.{registers_text};

use std::fmt;

/// The offset of RDH of receive queue 0 among the device's registers, in bytes. For queue `q` below 64 it is
/// `RDH + QUEUE_STRIDE * q`, and likewise for the registers below.
pub const RDH: u32 = 0x1010;

const _: () = prove!(RDH == 0x1010);

/// The offset of RDT of receive queue 0.
pub const RDT: u32 = 0x1018;

const _: () = prove!(RDT == 0x1018);

/// The offset of RXDCTL of receive queue 0. ENABLE is bit 25.
pub const RXDCTL: u32 = 0x1028;

const _: () = prove!(RXDCTL == 0x1028);

/// The offset of TDH of transmit queue 0.
pub const TDH: u32 = 0x6010;

const _: () = prove!(TDH == 0x6010);

/// The offset of TDT of transmit queue 0.
pub const TDT: u32 = 0x6018;

const _: () = prove!(TDT == 0x6018);

/// The offset of TXDCTL of transmit queue 0. ENABLE is bit 25.
pub const TXDCTL: u32 = 0x6028;

const _: () = prove!(TXDCTL == 0x6028);

/// The distance from a register of one queue to that of the next, in bytes, for queues below 64.
pub const QUEUE_STRIDE: u32 = 0x40;

const _: () = prove!(QUEUE_STRIDE == 0x40);

/// Whether a queue receives or transmits.
#[derive(Clone, Copy, PartialEq, Eq)]
pub enum QueueKind {
    Receive,
    Transmit,
}

/// The values that a reader of a queue's registers finds. It prints as `RDH 1 RDT 2 RXDCTL.ENABLE 1`, or as
/// `TDH 1 TDT 2 TXDCTL.ENABLE 1` for a transmit queue.
#[derive(Clone, Copy, PartialEq, Eq)]
pub struct Registers {
    pub kind: QueueKind,
    /// RDH or TDH: the place that the controller stored last, or 0 after it was cleared.
    pub head: u16,
    /// RDT or TDT: the place after the last descriptor that the driver published.
    pub tail: u16,
    /// ENABLE of RXDCTL or TXDCTL: set from the answer to an enabling until the answer to a disabling.
    pub enable: bool,
}

impl fmt::Display for Registers {
    ghost output = { λ r. Some (registers_text r) };

    fn fmt<W: fmt::Write>(&self, f: &mut fmt::Formatter<W>) -> fmt::Result {
        let (head, tail) = (self.head, self.tail);
        let enable = u8::from(self.enable);
        match self.kind {
            QueueKind::Receive => write!(f, "RDH {head} RDT {tail} RXDCTL.ENABLE {enable}"),
            QueueKind::Transmit => write!(f, "TDH {head} TDT {tail} TXDCTL.ENABLE {enable}"),
        }
    }
}
