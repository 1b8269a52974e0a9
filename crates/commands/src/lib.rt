//! The commands `once`, `decode` and `replay` of the program `poll82599`, as a library of typed requests on streams.
//! Depends on `requests`, `pictures`, the ring crates, `driver`, `controller`, `descriptor` and `ring_machine`, but on
//! no forwarder.
//! Guarantees the printed text of each request; a refusal other than `Output` leaves the output unchanged.
//!
//! [`perform`] serves a [`Request`]: the command builds its whole text, which is then printed. If printing fails, it
//! returns `Output`. [`answer`] also prints refusals and returns an exit status. A refusal is one line; [`refuse_explained`]
//! adds a second one, which names the option or the input at fault and the expected value.
//!
//! `once` passes a frame through a receive ring, between a controller and a driver on separate threads (`passing`).
//! `decode` reads a descriptor, and `replay` makes a list of moves on queues. `digits` and `frame` parse an argument of
//! hex digits.
#![tactic(auto)]

mod answering;
mod decode;
mod digits;
mod explaining;
mod frame;
mod lists;
mod once;
mod page;
mod passing;
mod replay;
mod telling;

pub use answering::{answer, perform};
pub use page::{PAGE_HEAD, PAGE_TAIL, page_with};
pub use replay::replay_text;
pub use requests::{
    DescriptorForm, EXIT_REFUSED, EXIT_SUCCESS, Excerpt, NOTES, PAGE, PAGE_DATA, Pictures,
    QueuePlan, Refusal, ReplayOutput, Request, explain_queues, line_at, print, put, read_text,
    refuse, refuse_explained,
};
