//! The events that only the receive ring's ends record. Values of these types exist in proofs only: no code makes one.

use buffer_pool::Buf;
use shared_ring::{ControllerEvent, DriverEvent};

/// A step that only a receive driver has, with the place and the word that it stored or loaded.
pub enum RxDriverOwn {
    /// A6: loaded a descriptor without DD.
    NotDone(u64, u64),
    /// A6: loaded a descriptor with DD, and took this buffer out of its slot.
    Taken(u64, u64, Buf),
    /// C8: loaded the quiet word.
    LoadedQuiet(u64),
    /// C11: stored 0 as the quiet word.
    ClearedQuiet,
}

/// A step that only a receive controller has.
pub enum RxControllerOwn {
    /// A5: wrote a descriptor back, and put this buffer into its slot.
    WroteBack(u64, u64, Buf),
    /// C7: stored 1 as the quiet word.
    SaidQuiet,
}

/// A step of a receive driver.
pub type RxDriverEvent = DriverEvent<RxDriverOwn>;

/// A step of a receive controller.
pub type RxControllerEvent = ControllerEvent<RxControllerOwn>;
