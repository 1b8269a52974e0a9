//! What the program's commands are asked to do, and how they answer: the types that a command line is parsed into, the
//! refusals, the exit statuses, and how texts and refusals are printed.
//! Depends on `limits`, `refusals`, `ring_model`, `ring_machine`, `capture`, `settings`, `text_lines` and `thiserror`.
//! Guarantees that each word of a file and each form of a descriptor has one meaning or none, and that each refusal has
//! one number.
//!
//! A [`Request`] is for `once`, `decode` or `replay`, a [`CaptureRequest`] for `from-capture` or `to-capture`, and a
//! [`ScheduleRequest`] or a [`CoverRequest`] for `schedules`. [`Printing`] says how `forward` prints its report, and
//! [`Source`] and [`WireFile`] are its captures. Its configuration is `Config` of `settings`.
//!
//! A command answers with a text ([`print`]) or with a [`Refusal`]: [`refuse`] prints it as one line, and
//! [`refuse_explained`] adds a second one, which names the option or the input at fault and the expected value.
#![tactic(auto)]

mod answers;
mod conversion;
mod covers;
mod decode;
mod excerpt;
mod files;
mod input;
mod lines;
mod lists;
mod printing;
mod queues;
mod refusal;
mod replay;
mod request;

pub use answers::{EXIT_REFUSED, EXIT_SUCCESS, print, put, refuse, refuse_explained};
pub use conversion::CaptureRequest;
pub use covers::CoverRequest;
pub use decode::DescriptorForm;
pub use excerpt::Excerpt;
pub use files::{Source, WireFile, names_input, names_output, source_of, wire_file_of};
pub use input::read_text;
pub use lines::line_at;
pub use lists::ScheduleRequest;
pub use printing::{Printing, ProgressForm};
pub use queues::explain_queues;
pub use refusal::Refusal;
pub use replay::{NOTES, PAGE, PAGE_DATA, Pictures, QueuePlan, ReplayOutput};
pub use request::Request;
