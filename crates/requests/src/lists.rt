//! The lists that `schedules` prints.

use crate::replay::ReplayOutput;
use settings::SchedulePlan;

/// Lists of moves: the plan of each, the seed, the number of lists, and the text that follows each.
#[derive(Clone, Copy)]
pub struct ScheduleRequest {
    pub plan: SchedulePlan,
    pub seed: u32,
    pub count: u32,
    /// The form in which `replay` prints the outcome after each list; `None` for nothing. `PAGE` is a page with all
    /// lists.
    pub expect: Option<ReplayOutput>,
}

impl ScheduleRequest {
    ghost use Rattle.std.specs.Prelude.{◌≡◌};
    ghost use Rattle.requests.specs.Lists.{shows_page};

    /// Whether the lists are shown as a page.
    pub fn shows_page(&self) -> bool
        ensures { result ≡ shows_page self.now.expect }
    {
        match self.expect {
            Some(shown) => shown.pictures.is_page(),
            None => false,
        }
    }
}
