//! Replays a list of moves: reads it whole, then builds the whole output.

ghost use Rattle.std.specs.Prelude.{◌≡◌, ◌↔◌, ◌⊎◌, ◌++◌, ℕ, false, IfErr, IfNone, IfOk, IfSome, IsTrue, OnOk};
ghost use Rattle.std.specs.String.{string_bytes};
ghost use Rattle.ring_model.specs.Worlds.{World, IsReachableWorld};
ghost use Rattle.refusals.specs.declared.errors.MachineError.TheVariants.{RingLength, Memory as MachineMemory};
ghost use Rattle.ring_machine.specs.Queues.{AreQueues, QueuesAgree};
ghost use Rattle.text_lines.specs.Parts.{lines_of, says_something};
ghost use Rattle.commands.specs.Lists.{lists_of};
ghost use Rattle.commands.specs.Replay.{ArePages, HasData, HasPage, IsFaulty, IsListPage, IsMoveList, IsNoMove, IsPageOf, IsReplayed, LacksMemory, Reads, RefusesReplay, ReplayRefused, WroteMove, drawn_at_last, drawn_at_once, drawn_of, framed, has_states, opening_of, queue_drawing, shown_registers, world_of};
ghost use Rattle.requests.specs.Replaying.{is_page};

use crate::explaining::explain_move;
use crate::lists::cut_list;
use crate::page::page_with;
use crate::telling::{write_count, write_told};
use pictures::{write_opening, write_queue, write_state};
use requests::{Pictures, QueuePlan, Refusal, ReplayOutput, line_at, read_text};
use ring_machine::{MachineError, Move, Queues, Registers};
use std::alloc::{AllocError, Global};
use std::io::Read;
use text_lines::{cut, says_something};

/// Whether queues are drawn as lines of JSON.
fn has_states(pictures: Pictures) -> bool
    ensures { result ≡ has_states pictures }
{
    matches!(pictures, Pictures::States | Pictures::Page)
}

/// The move whose queue is drawn directly after its line.
fn at_once(pictures: Pictures, action: Move) -> Option<Move>
    ensures { result ≡ drawn_at_once pictures action }
{
    match pictures {
        Pictures::Each | Pictures::States | Pictures::Page => Some(action),
        Pictures::Never | Pictures::Last => None,
    }
}

/// The move whose queue is drawn after all lines.
fn at_last(pictures: Pictures, last: Option<Move>) -> Option<Move>
    ensures { result ≡ drawn_at_last pictures last }
{
    match pictures {
        Pictures::Last => last,
        Pictures::Never | Pictures::Each | Pictures::States | Pictures::Page => None,
    }
}

/// Reads a list of moves to its end and makes them on new queues of this plan. Returns one line per move, then the
/// number of moves made and read. With `plan.lists`, does so for each list in the input, on fresh queues.
///
/// Returns the first refusal that applies: `Input` (or `Memory`) if the input cannot be read, `Move` if a line is not
/// a move, the machine's ring length if such queues cannot exist, and a lack of memory, here or in the machine.
pub fn replay_text<I: Read>(
    alloc: Global,
    plan: QueuePlan,
    input: &mut I,
) -> Result<String, Refusal>
    ensures done { IfOk result (λ page. IsReplayed plan (I.remaining input.old) (string_bytes page)) }
    ensures refused { IfErr result (λ e. RefusesReplay plan (I.remaining input.old) e) }
{
    let mut why = String::new(alloc);
    replay_explained(alloc, plan, input, &mut why)
}

/// The same. Appends the explanation of `Move` to `why`.
pub(crate) fn replay_explained<I: Read>(
    alloc: Global,
    plan: QueuePlan,
    input: &mut I,
    why: &mut String,
) -> Result<String, Refusal>
    ensures done { IfOk result (λ page. IsReplayed plan (I.remaining input.old) (string_bytes page)) }
    ensures refused { IfErr result (λ e. RefusesReplay plan (I.remaining input.old) e) }
{
    let text = read_text(alloc, input)?;
    let content = content_for(alloc, plan, text.as_slice(), why)?;
    Ok(framed(alloc, plan.shown.pictures, content)?)
}

/// Returns the output with this content, in a page if that is its form.
fn framed(alloc: Global, pictures: Pictures, content: String) -> Result<String, AllocError>
    ensures { IfOk result (λ page. string_bytes page ≡ framed (is_page pictures) (string_bytes content)) }
{
    if pictures.is_page() {
        page_with(alloc, content.as_str())
    } else {
        Ok(content)
    }
}

/// The output for a text, without the frame of a page. The text is checked first, so that no move of a faulty one is
/// made.
fn content_for(
    alloc: Global,
    plan: QueuePlan,
    text: &[u8],
    why: &mut String,
) -> Result<String, Refusal>
    ensures done { IfOk result (λ content. HasData plan text.now (string_bytes content)) }
    ensures refused { IfErr result (λ e. ReplayRefused plan text.now e) }
{
    if let Some(line) = faulty_line(text) {
        let _ = explain_move(why, line_at(text, line));
        return Err(Refusal::Move { line });
    }
    let mut queues = queues_of(alloc, plan)?;
    if plan.lists {
        return pages_of(alloc, plan, text);
    }
    Ok(page_of(alloc, plan.shown, &mut queues, text)?)
}

/// Creates the queues of this plan.
fn queues_of(alloc: Global, plan: QueuePlan) -> Result<Queues, MachineError>
    ensures refused { (result ≡ Err RingLength) ↔ ¬ (AreQueues plan.pairs plan.ring) }
    ensures error { IfErr result (λ e. (e ≡ RingLength) ⊎ (e ≡ MachineMemory)) }
    ensures made { IfOk result (λ queues. QueuesAgree queues (world_of plan)) }
{
    let (pairs, ring) = (plan.pairs as usize, plan.ring as usize);
    Queues::new_with(alloc, pairs, ring, plan.enabled, plan.completion)
}

/// The output for all lists of a text, joined.
fn pages_of(alloc: Global, plan: QueuePlan, text: &[u8]) -> Result<String, Refusal>
    requires moves { IsMoveList text.now }
    requires queues { AreQueues plan.pairs plan.ring }
    ensures done { IfOk result (λ pages. ArePages plan (lists_of (lines_of text.now)) (string_bytes pages)) }
    ensures refused { IfErr result LacksMemory }
{
    let mut pages = String::new(alloc);
    let mut rest = Some(text);
    while let Some(left) = rest {
        let cut = cut_list(left);
        rest = cut.rest;
        if cut.is_list {
            let page = list_page(alloc, plan, cut.list)?;
            pages.push_str(page.as_str())?;
        }
    }
    Ok(pages)
}

/// The output for a list on new queues.
fn list_page(alloc: Global, plan: QueuePlan, list: &[u8]) -> Result<String, Refusal>
    requires moves { IsMoveList list.now }
    requires queues { AreQueues plan.pairs plan.ring }
    ensures done { IfOk result (λ page. IsListPage plan (lines_of list.now) (string_bytes page)) }
    ensures refused { IfErr result LacksMemory }
{
    let mut queues = queues_of(alloc, plan)?;
    Ok(page_of(alloc, plan.shown, &mut queues, list)?)
}

/// Whether a line is a move or is skipped.
fn is_good(line: &[u8]) -> bool
    ensures read { IsTrue result → Reads line.now }
    ensures faulty { result ≡ false → IsNoMove line.now }
{
    !says_something(line) || Move::parse(line).is_ok()
}

/// The number of the first line that is neither a move nor skipped.
fn faulty_line(text: &[u8]) -> Option<u64>
    ensures none { IfNone result (IsMoveList text.now) }
    ensures first { IfSome result (λ k. IsFaulty (lines_of text.now) k) }
{
    let mut rest = Some(text);
    let mut number: u64 = 0;
    while let Some(left) = rest {
        let (line, after) = cut(left, b'\n');
        number += 1;
        if !is_good(line) {
            return Some(number);
        }
        rest = after;
    }
    None
}

/// Makes the moves of a text. Returns a line for each, and a line with the count.
fn page_of(
    alloc: Global,
    shown: ReplayOutput,
    queues: &mut Queues,
    text: &[u8],
) -> Result<String, AllocError>
    requires { IsMoveList text.now }
    ensures { IfOk result (λ page. (pairs n : ℕ) (w : World) → IsReachableWorld pairs n w → QueuesAgree queues.old w
        → IsPageOf shown w text.now (string_bytes page)) }
{
    let mut page = opening(alloc, shown.pictures, queues)?;
    let mut made: usize = 0;
    let mut read: usize = 0;
    let mut last = None;
    let mut rest = Some(text);
    while let Some(left) = rest {
        let (line, after) = cut(left, b'\n');
        rest = after;
        if !says_something(line) {
            continue;
        }
        if let Ok(action) = Move::parse(line) {
            read += 1;
            made += usize::from(write_move(&mut page, shown, queues, &action)?);
            last = Some(action);
        }
    }
    draw(
        &mut page,
        shown.pictures,
        queues,
        at_last(shown.pictures, last),
    )?;
    write_count(&mut page, shown.json, made, read)?;
    Ok(page)
}

/// The registers of a move's queue, if they are shown.
fn shown_registers(shown: ReplayOutput, queues: &Queues, action: &Move) -> Option<Registers>
    ensures { (w : World) → QueuesAgree queues.now w → result ≡ shown_registers shown w action.now }
{
    if shown.registers {
        queues.registers(action)
    } else {
        None
    }
}

/// The text before the first move.
fn opening(alloc: Global, pictures: Pictures, queues: &Queues) -> Result<String, AllocError>
    ensures { IfOk result (λ text. string_bytes text ≡ opening_of pictures queues.now) }
{
    let mut text = String::new(alloc);
    if has_states(pictures) {
        write_opening(&mut text, queues)?;
    }
    Ok(text)
}

/// Draws the queue of a move, if there is one.
fn draw(
    page: &mut String,
    pictures: Pictures,
    queues: &Queues,
    action: Option<Move>,
) -> Result<(), AllocError>
    ensures { OnOk result (string_bytes page.new ≡ string_bytes page.old ++ drawn_of pictures queues.now action) }
{
    match action {
        Some(action) => draw_queue(page, pictures, queues, &action),
        None => Ok(()),
    }
}

/// Draws the queue of a move.
fn draw_queue(
    page: &mut String,
    pictures: Pictures,
    queues: &Queues,
    action: &Move,
) -> Result<(), AllocError>
    ensures { OnOk result (string_bytes page.new ≡ string_bytes page.old ++ queue_drawing pictures queues.now action.now) }
{
    if has_states(pictures) {
        write_state(page, queues, action)
    } else {
        write_queue(page, queues, action)
    }
}

/// Makes a move. Writes its line, with the registers and the picture that are shown after it. Returns whether the
/// move was made.
fn write_move(
    page: &mut String,
    shown: ReplayOutput,
    queues: &mut Queues,
    action: &Move,
) -> Result<bool, AllocError>
    ensures { IfOk result (λ made. (pairs n : ℕ) (w : World) → IsReachableWorld pairs n w → QueuesAgree queues.old w
        → WroteMove shown w action.now made (string_bytes page.old) (string_bytes page.new) queues.new) }
{
    let told = queues.step(*action).ok();
    let read = shown_registers(shown, queues, action);
    write_told(page, shown.json, action, told, read)?;
    draw(
        page,
        shown.pictures,
        queues,
        at_once(shown.pictures, *action),
    )?;
    Ok(told.is_some())
}
