//! Lists of moves, made on the machines of queues.
ghost use Rattle.std.specs.Prelude.{◌≡◌, ◌≢◌};
ghost use Rattle.requests.specs.Refusals.{refused_line};
ghost use Rattle.c_data.specs.Moves.{IsRefused, Printed, TooSmall, line_of, plan_of};

use commands::{NOTES, QueuePlan, Refusal, ReplayOutput, replay_text};
use ffi_handle::{is_set, overwrite};
use ring_machine::Completion;
use std::alloc::Global;

/// The queues for a list of moves: `pairs` queue pairs, 1 to 8, of `descriptors` descriptors each, a power of two from
/// 8 to 4,096. If not 0: `enabled`, the queues begin enabled; `by_head`, the transmit queues report by a head word;
/// `json`, the output is JSON objects.
#[repr(C)]
#[derive(Clone, Copy)]
pub struct Poll82599Plan {
    pub pairs: u32,
    pub descriptors: u32,
    pub enabled: u32,
    pub by_head: u32,
    pub json: u32,
}

/// How many bytes the moves print, and the number of the first line that is not a move, counted from 1.
#[repr(C)]
#[derive(Clone, Copy)]
pub struct Poll82599Moved {
    pub needed: u64,
    pub line: u64,
}

/// Makes the moves of a text, one per line, on new queues, and writes their output, a line or an object each, to the
/// beginning of `page`. Any thread may call it. Returns 0: done; 1: `page` has fewer bytes than `needed`, which is set
/// with 0 and 1; or the number of a refusal: 14: the line `line` is not a move; 12: such queues cannot exist; others:
/// memory was refused. Only 0 changes the page.
#[unsafe(no_mangle)]
pub extern "C" fn poll82599_moves(
    alloc: Global,
    plan: &Poll82599Plan,
    text: &[u8],
    page: &mut [u8],
    moved: &mut Poll82599Moved,
) -> u32
    ensures printed { (result ≡ 0) → Printed (plan_of plan.now) text.now moved.new.needed page.old page.new }
    ensures small { (result ≡ 1) → TooSmall (plan_of plan.now) text.now moved.new.needed page.old }
    ensures refused { (result ≢ 0) → (result ≢ 1) → IsRefused (plan_of plan.now) text.now result moved.new.line }
    ensures kept { (result ≢ 0) → page.new ≡ page.old }
{
    let mut input = text;
    match replay_text(alloc, plan_read(plan), &mut input) {
        Ok(printed) => {
            let bytes = printed.as_bytes();
            moved.needed = bytes.len() as u64;
            if page.len() < bytes.len() {
                return 1;
            }
            overwrite(page, bytes);
            0
        }
        Err(why) => {
            moved.line = line_said(&why);
            u32::from(why.number())
        }
    }
}

fn plan_read(plan: &Poll82599Plan) -> QueuePlan
    ensures { result ≡ plan_of plan.now }
{
    let completion = if is_set(plan.by_head) {
        Completion::Head
    } else {
        Completion::Status
    };
    QueuePlan {
        pairs: plan.pairs,
        ring: plan.descriptors,
        enabled: is_set(plan.enabled),
        completion,
        lists: false,
        shown: ReplayOutput {
            json: is_set(plan.json),
            ..NOTES
        },
    }
}

fn line_said(why: &Refusal) -> u64
    ensures { result ≡ line_of (refused_line why.now) }
{
    match why.line() {
        Some(line) => line,
        None => 0,
    }
}
