//! The events that only the transmit ring's ends record. Values of these types exist in proofs only: no code makes one.

use buffer_pool::Buf;
use shared_ring::{ControllerEvent, DriverEvent};

/// A step that only a transmit driver has, with the place of the word that it stored or loaded, and that word.
pub enum TxDriverOwn {
    /// B7: loaded the word of the oldest outstanding report, which does not report it.
    NoReport(u64, u64),
    /// B7: loaded the word of the oldest outstanding report, which reports it and all before it.
    SawReport(u64, u64),
    /// B8: stored 0 as a descriptor, and took this buffer out of its slot.
    Cleaned(u64, Buf),
    /// C10 in a ring that reports by its descriptors: stored 0 as the tail, which ended the epoch.
    EndedEpoch,
    /// C12: stored 0 as the head word of reports, which ended the epoch.
    ClearedReport,
}

/// A step that only a transmit controller has.
pub enum TxControllerOwn {
    /// B5: stored the head, and put this buffer, whose descriptor had this word, into its slot.
    Sent(u64, u64, Buf),
    /// B6: stored this word as a report at this place.
    Reported(u64, u64),
}

/// A step of a transmit driver.
pub type TxDriverEvent = DriverEvent<TxDriverOwn>;

/// A step of a transmit controller.
pub type TxControllerEvent = ControllerEvent<TxControllerOwn>;
