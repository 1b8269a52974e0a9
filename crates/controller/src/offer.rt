//! The outcome of an offered frame.

/// The outcome of an offered frame.
#[derive(Clone, Copy, Debug, PartialEq, Eq)]
pub enum Offer {
    /// The end does not serve the queue, or announced that it stores no more. No step was made.
    Off,
    /// The frame needs more descriptors than the ring can have free. No step was made.
    Oversize,
    /// The frame is stored, and the head after it.
    Stored,
    /// The tail was loaded, and too few descriptors were free: the frame is lost (82599 datasheet, SRRCTL.Drop_En).
    Dropped,
    /// The tail was loaded, and too few descriptors were free: the caller offers the frame again.
    Held,
}
