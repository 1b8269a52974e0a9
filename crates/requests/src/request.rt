//! The requests.

use crate::decode::DescriptorForm;
use crate::replay::QueuePlan;

/// A request, with its arguments.
#[derive(Clone, Copy)]
pub enum Request<'a> {
    /// Passes the frame of these hex digits through a receive ring.
    Once {
        digits: &'a str,
    },
    /// Decodes the descriptor of these hex digits in this form.
    Decode {
        form: DescriptorForm,
        digits: &'a str,
    },
    /// Makes the moves of standard input on queues of this plan.
    Replay {
        plan: QueuePlan,
    },
}
