//! The control word of a queue.
ghost use Rattle.std.specs.Prelude.{◌≡◌, ◌≤◌};
ghost use Rattle.shared_ring.specs.Words.{control_word};

/// The value of a queue's control word (82599 datasheet, RXDCTL.ENABLE and TXDCTL.ENABLE, which read as 1 for `Enabled`
/// and `DisableAsked`).
#[derive(Clone, Copy, Debug, PartialEq, Eq)]
pub enum Control {
    /// 0: nothing was asked, or the controller answered a disabling.
    Disabled,
    /// 1: the driver asked the controller to enable the queue.
    EnableAsked,
    /// 2: the controller answered, and serves the queue.
    Enabled,
    /// 3: the driver asked the controller to disable the queue.
    DisableAsked,
}

impl Control {
    /// Returns the word, 0 to 3.
    #[inline]
    pub fn word(self) -> u8
        ensures { result ≡ control_word self }
    {
        match self {
            Control::Disabled => 0,
            Control::EnableAsked => 1,
            Control::Enabled => 2,
            Control::DisableAsked => 3,
        }
    }

    /// Returns the meaning of a control word of 0 to 3.
    #[inline]
    pub fn of_word(word: u64) -> Control
        requires { word ≤ 3 }
        ensures { control_word result ≡ word }
    {
        match word {
            0 => Control::Disabled,
            1 => Control::EnableAsked,
            2 => Control::Enabled,
            _ => Control::DisableAsked,
        }
    }
}
