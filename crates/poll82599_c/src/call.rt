//! The records that programs and exports exchange, and the results for a wrong handle or operation.

/// A step of a driver or a pool, its result, and a count of buffers or segments.
#[repr(C)]
#[derive(Clone, Copy)]
pub struct Poll82599Call {
    pub operation: u32,
    pub answer: u32,
    pub count: usize,
}

/// The frame counts of a receive queue's device.
#[repr(C)]
#[derive(Clone, Copy)]
pub struct Poll82599Counts {
    pub offered: u64,
    pub stored: u64,
    pub dropped: u64,
    pub oversize: u64,
}

/// The result for an unknown operation, and for a handle that is empty or of another kind.
pub(crate) const NO_OPERATION: u32 = 0xFFFF_FFFF;

/// The result of closing a handle that is empty or of another kind.
pub(crate) const UNHELD: i64 = -2;
