//! What `replay` prints, and on which queues.
ghost use Rattle.std.specs.Prelude.{◌≡◌};
ghost use Rattle.requests.specs.Replaying.{is_page};

use ring_model::Completion;

/// After which moves `replay` draws the queue of the move, and how.
#[derive(Clone, Copy, PartialEq, Eq)]
pub enum Pictures {
    /// After none.
    Never,
    /// After each, as `write_queue` of `pictures` draws it.
    Each,
    /// After the last one, as `write_queue` draws it.
    Last,
    /// After each, as a line of JSON (`write_state`). Before the first move there is a line for each queue
    /// (`write_opening`).
    States,
    /// The same, as the data of an HTML page, which is the whole output. It shows [`PAGE`].
    Page,
}

impl Pictures {
    /// Whether the output is a page.
    pub fn is_page(self) -> bool
        ensures { result ≡ is_page self }
    {
        matches!(self, Pictures::Page)
    }
}

/// The output for each move: its note as a line of words or as a JSON object, and, if selected, the registers and a
/// picture of its queue after the move.
#[derive(Clone, Copy)]
pub struct ReplayOutput {
    pub json: bool,
    pub registers: bool,
    pub pictures: Pictures,
}

/// Notes only, as lines of words.
pub const NOTES: ReplayOutput = ReplayOutput {
    json: false,
    registers: false,
    pictures: Pictures::Never,
};

/// The data of a page: notes and registers as objects, and states.
pub const PAGE_DATA: ReplayOutput = ReplayOutput {
    json: true,
    registers: true,
    pictures: Pictures::States,
};

/// An HTML page with these data.
pub const PAGE: ReplayOutput = ReplayOutput {
    json: true,
    registers: true,
    pictures: Pictures::Page,
};

/// The queues on which the moves are made, and the output: the number of pairs, the descriptors per ring, whether the
/// queues begin enabled, how the transmit queues report, whether each list has fresh queues, and the form of the
/// output.
#[derive(Clone, Copy)]
pub struct QueuePlan {
    pub pairs: u32,
    pub ring: u32,
    pub enabled: bool,
    pub completion: Completion,
    /// Whether a line `# end` ends a list: the count is printed, and the next list has fresh queues. Otherwise such a
    /// line is a comment.
    pub lists: bool,
    pub shown: ReplayOutput,
}
