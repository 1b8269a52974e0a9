//! Who owns a place, how far each side is in enabling and disabling a queue, and how a transmit queue reports.

/// The owner of a place of a ring and its buffer.
#[derive(Clone, Copy, PartialEq, Eq)]
pub enum Owner {
    /// The driver can post a buffer there, or took the buffer from there.
    Driver,
    /// The place holds a buffer, posted or written back.
    Ring,
    /// The controller has fetched the descriptor and has not given it back yet.
    Controller,
}

/// How far the driver is in enabling and disabling a queue.
#[derive(Clone, Copy, PartialEq, Eq)]
pub enum DriverState {
    /// It has asked for nothing in this epoch.
    New,
    /// It asked for enabling, and has not seen the answer.
    Asked,
    /// It saw the queue enabled.
    On,
    /// It asked for disabling, and has not seen the answer.
    Stopping,
    /// It saw the disabling answered.
    Stopped,
    /// It cleared the head for the next epoch.
    Cleared,
    /// It cleared the tail too.
    Tailed,
}

impl DriverState {
    ghost use Rattle.std.specs.Prelude.{◌≡◌};
    ghost use Rattle.ring_model.specs.shared.Handshakes.{is_cleared, is_live, is_new, is_on, is_open, is_stopped, is_tailed, learned};

    /// Whether the driver may post and publish: it has not asked for disabling in this epoch.
    #[inline]
    pub fn is_open(self) -> bool
        ensures { result ≡ is_open self }
    {
        matches!(
            self,
            DriverState::New | DriverState::Asked | DriverState::On
        )
    }

    /// Whether the driver may look for completed work: it saw the queue enabled, and has not seen it disabled.
    #[inline]
    pub fn is_live(self) -> bool
        ensures { result ≡ is_live self }
    {
        matches!(self, DriverState::On | DriverState::Stopping)
    }

    /// Whether the driver has asked for nothing in this epoch.
    #[inline]
    pub fn is_new(self) -> bool
        ensures { result ≡ is_new self }
    {
        matches!(self, DriverState::New)
    }

    /// Whether the driver saw the queue enabled, and has not asked for disabling.
    #[inline]
    pub fn is_on(self) -> bool
        ensures { result ≡ is_on self }
    {
        matches!(self, DriverState::On)
    }

    /// Whether the driver saw the disabling answered, and has cleared nothing since.
    #[inline]
    pub fn is_stopped(self) -> bool
        ensures { result ≡ is_stopped self }
    {
        matches!(self, DriverState::Stopped)
    }

    /// Whether the head is cleared, and the tail is not.
    #[inline]
    pub fn is_cleared(self) -> bool
        ensures { result ≡ is_cleared self }
    {
        matches!(self, DriverState::Cleared)
    }

    /// Whether head and tail are cleared, and the queue is not renewed yet.
    #[inline]
    pub fn is_tailed(self) -> bool
        ensures { result ≡ is_tailed self }
    {
        matches!(self, DriverState::Tailed)
    }

    /// Returns the state after loading this control value, 0 to 3.
    #[inline]
    pub fn learned(self, control: u8) -> DriverState
        ensures { result ≡ learned self control }
    {
        match self {
            DriverState::Asked if control == 2 => DriverState::On,
            DriverState::Stopping if control == 0 => DriverState::Stopped,
            state => state,
        }
    }
}

/// How far the controller is in enabling and disabling a queue.
#[derive(Clone, Copy, PartialEq, Eq)]
pub enum ControllerState {
    /// It never served the queue.
    Off,
    /// It answered the enabling.
    Serving,
    /// It answered a disabling.
    Ended,
}

impl ControllerState {
    ghost use Rattle.std.specs.Prelude.{◌≡◌};
    ghost use Rattle.ring_model.specs.shared.Handshakes.{is_serving};

    /// Whether the controller answered the enabling, and no disabling since.
    #[inline]
    pub fn is_serving(self) -> bool
        ensures { result ≡ is_serving self }
    {
        matches!(self, ControllerState::Serving)
    }
}

/// How the controller of a transmit queue reports sent frames.
#[derive(Clone, Copy, PartialEq, Eq)]
pub enum Completion {
    /// It stores DD in the descriptor that asked for the report.
    Status,
    /// It stores its head in a separate word, after the queue's other words.
    Head,
}

impl Completion {
    ghost use Rattle.std.specs.Prelude.{◌≡◌};
    ghost use Rattle.ring_model.specs.transmit.Steps.{by_head};

    /// Whether the queue reports by a head word.
    #[inline]
    pub fn is_by_head(self) -> bool
        ensures { result ≡ by_head self }
    {
        matches!(self, Completion::Head)
    }
}
