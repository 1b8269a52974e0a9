//! The events of an end's record. Values of these types exist in proofs only: no code makes one.

use buffer_pool::Buf;
use std::collections::LinkedList;

/// A step of a driver, with the place and the word that it stored or loaded. `O` is the type of one direction's own
/// steps.
pub enum DriverEvent<O> {
    /// A1, B1: stored a descriptor, and put this buffer into its slot.
    Posted(u64, u64, Buf),
    /// A2, B2: stored the tail.
    Published(u64),
    /// C1: stored 1 as the control word.
    AskedEnable,
    /// C4: loaded the control word.
    LoadedControl(u64),
    /// C5: stored 3 as the control word.
    AskedDisable,
    /// Loaded the head.
    LoadedHead(u64),
    /// C6: stored 0 as a descriptor, and took this buffer out of its slot.
    Reclaimed(u64, Buf),
    /// C9: stored 0 as the head.
    ClearedHead,
    /// C10: stored 0 as the tail.
    ClearedTail,
    Own(O),
}

/// A step of a controller, with the place and the word that it stored or loaded. `O` is the type of one direction's own
/// steps.
pub enum ControllerEvent<O> {
    /// A3, B3: loaded the tail.
    Looked(u64),
    /// A4, B4: loaded a descriptor, and took this buffer out of its slot.
    Fetched(u64, u64, Buf),
    /// A7: stored the head.
    StoredHead(u64),
    /// C2: loaded the control word.
    LoadedRequest(u64),
    /// C3: stored 2 as the control word.
    Enabled,
    /// C3: stored 0 as the control word.
    Disabled,
    Own(O),
}

/// The end whose record a seat at the ring's table has. `D` and `C` are the events of driver and controller.
pub enum View<D, C> {
    /// The ring is being made, and all slots are in the table.
    Maker,
    Driver(LinkedList<D>),
    Controller(LinkedList<C>),
    /// The ends meet.
    Both(LinkedList<D>, LinkedList<C>),
    /// The seat has lent or given away its record.
    Nobody,
}
