//! Why a move is not enabled: the first of its conditions that does not hold.

ghost use Rattle.std.specs.Prelude.{◌≡◌};
ghost use Rattle.ring_machine.specs.code.Obstacles.{obstacle_text};

/// A condition of a move that does not hold.
#[derive(Clone, Copy, PartialEq, Eq)]
pub enum Obstacle {
    /// There is no queue of this number.
    NoQueue,
    /// The driver asked for disabling and has not renewed the queue.
    NotOpen,
    /// The driver has not seen the queue enabled, or has seen it disabled.
    NotLive,
    /// The driver has already asked for enabling in this epoch.
    NotNew,
    /// The driver has not seen the queue enabled, or has asked for disabling.
    NotOn,
    /// The driver has not seen a disabling answered, or has begun to clear the registers.
    NotStopped,
    /// The head is not cleared, or the tail is cleared too.
    NotCleared,
    /// The tail is not cleared.
    NotTailed,
    /// No descriptor is free.
    Full,
    /// No buffer is outstanding.
    NoneOut,
    /// A buffer is outstanding.
    SomeOut,
    /// The last posted segment does not end its frame.
    PostedPart,
    /// No requested report is outstanding.
    NoReportAwaited,
    /// The oldest outstanding buffer is not reported.
    NotReported,
    /// The queue reports in its descriptors, and has no head word.
    NoHeadWord,
    /// The controller does not serve the queue.
    NotServing,
    /// The controller serves the queue.
    Serving,
    /// The controller holds a buffer.
    Holding,
    /// The controller holds no buffer.
    NotHolding,
    /// The controller knows of no descriptor.
    NoneKnown,
    /// The controller said that it stores no more frames.
    Quiet,
    /// The controller is between the segments of a frame.
    MidFrame,
    /// The controller has not stored its head.
    HeadBehind,
    /// A report is due.
    ReportDue,
    /// No report is due.
    NoReportDue,
    /// The control value that the controller loaded last asks for nothing.
    NothingAsked,
}

impl Obstacle {
    /// Returns the words for this obstacle, which name the side that it concerns.
    pub fn text(self) -> &'static str
        ensures { result.now ≡ obstacle_text self }
    {
        match self {
            Obstacle::NoQueue => "there is no such queue",
            Obstacle::NotOpen => "driver asked for disabling",
            Obstacle::NotLive => "driver does not see the queue enabled",
            Obstacle::NotNew => "driver already asked for enabling",
            Obstacle::NotOn => "driver is not On",
            Obstacle::NotStopped => "driver is not Stopped",
            Obstacle::NotCleared => "driver is not Cleared",
            Obstacle::NotTailed => "driver is not Tailed",
            Obstacle::Full => "ring is full",
            Obstacle::NoneOut => "no buffer is outstanding",
            Obstacle::SomeOut => "a buffer is outstanding",
            Obstacle::PostedPart => "a frame is posted in part",
            Obstacle::NoReportAwaited => "no report is outstanding",
            Obstacle::NotReported => "place is not reported",
            Obstacle::NoHeadWord => "queue reports in its descriptors",
            Obstacle::NotServing => "controller is not serving",
            Obstacle::Serving => "controller is serving",
            Obstacle::Holding => "controller holds a buffer",
            Obstacle::NotHolding => "controller holds no buffer",
            Obstacle::NoneKnown => "controller knows of no descriptor",
            Obstacle::Quiet => "controller is quiet",
            Obstacle::MidFrame => "controller is in a frame",
            Obstacle::HeadBehind => "head is not stored",
            Obstacle::ReportDue => "a report is due",
            Obstacle::NoReportDue => "no report is due",
            Obstacle::NothingAsked => "controller loaded no request",
        }
    }
}
