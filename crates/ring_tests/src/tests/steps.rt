//! Steps as rows write them, with plain numbers. A step with a lawful length needs code, and each row of it a proof.

use ring_machine::{RxStep, SegmentDescriptor, SegmentLength, TxStep};

/// A step of a receive queue, with the number of stored bytes.
pub type RxNamed = RxStep<u16>;

/// A step of a transmit queue, with the buffer's number, its length, EOP, RS, and the frame's length.
pub type TxNamed = TxStep<(u16, u16, bool, bool, u16)>;

/// The receive step, if its length is lawful.
pub fn rx_step(named: RxNamed) -> Option<RxStep<SegmentLength>> {
    Some(match named {
        RxStep::Post(number) => RxStep::Post(number),
        RxStep::Publish => RxStep::Publish,
        RxStep::Look => RxStep::Look,
        RxStep::Fetch => RxStep::Fetch,
        RxStep::Store(len, eop) => RxStep::Store(SegmentLength::new(len)?, eop),
        RxStep::Take => RxStep::Take,
        RxStep::Head => RxStep::Head,
        RxStep::Control(step) => RxStep::Control(step),
        RxStep::Reclaim => RxStep::Reclaim,
        RxStep::StoreQuiet => RxStep::StoreQuiet,
        RxStep::LoadQuiet => RxStep::LoadQuiet,
        RxStep::ClearHead => RxStep::ClearHead,
        RxStep::ClearTail => RxStep::ClearTail,
        RxStep::ClearQuiet => RxStep::ClearQuiet,
    })
}

/// The transmit step, if its segment is lawful.
pub fn tx_step(named: TxNamed) -> Option<TxStep<SegmentDescriptor>> {
    Some(match named {
        TxStep::Post((number, len, eop, rs, paylen)) => {
            TxStep::Post(SegmentDescriptor::new(number, len, eop, rs, paylen)?)
        }
        TxStep::Publish => TxStep::Publish,
        TxStep::Look => TxStep::Look,
        TxStep::Fetch => TxStep::Fetch,
        TxStep::Send => TxStep::Send,
        TxStep::Report => TxStep::Report,
        TxStep::LoadReport => TxStep::LoadReport,
        TxStep::Clean => TxStep::Clean,
        TxStep::Control(step) => TxStep::Control(step),
        TxStep::Reclaim => TxStep::Reclaim,
        TxStep::ClearHead => TxStep::ClearHead,
        TxStep::ClearTail => TxStep::ClearTail,
        TxStep::ClearReport => TxStep::ClearReport,
    })
}
