//! A list of moves, drawn one by one and made on the machine's queues.
ghost use Rattle.std.specs.Prelude.{◌≡◌, ◌≤◌, ◌+◌, ◌*◌, ◌↔◌, ◌⊎◌, false, true, IfErr, IfOk};
ghost use Rattle.ring_machine.specs.Queues.{AreQueues};
ghost use Rattle.refusals.specs.declared.errors.MachineError.TheVariants.{Memory, RingLength};
ghost use Rattle.schedules.specs.Drawing.{Draws, IsDrawn, Surely, allowed};

use crate::proposing::Proposer;
use ring_machine::{
    ControlStep, MachineError, Move, QueueNumber, Queues, RxStep, SegmentDescriptor, SegmentLength,
    TxStep,
};
use settings::SchedulePlan;
use std::alloc::Global;

/// A move of a list, and whether it happens at its place.
#[derive(Clone, Copy)]
pub struct Drawn {
    pub action: Move,
    pub happens: bool,
}

/// The number of draws for a move that happens, before falling back to one that always does.
const MOST_TRIES: usize = 256;

// Makes a move, and records whether it happened.
fn make(queues: &mut Queues, proposer: &mut Proposer, action: Move) -> Drawn
    ensures draws { Draws queues.old result queues.new }
    ensures action { result.action ≡ action }
    ensures kept { result.happens ≡ false → queues.new ≡ queues.old }
{
    let result = queues.step(action);
    let happens = result.is_ok();
    if let Ok(note) = result {
        proposer.made(&action, &note);
    }
    Drawn { action, happens }
}

// Makes a move that always happens: the controller of receive queue 0 loads the control word.
fn make_look(queues: &mut Queues, proposer: &mut Proposer) -> Drawn
    ensures draws { Draws queues.old result queues.new }
    ensures happens { Surely queues.old result }
{
    let queue = QueueNumber::new(0).unwrap();
    let look = RxStep::Control(ControlStep::LookAsked);
    make(queues, proposer, Move::Receive(queue, look))
}

// Draws moves until one happens.
fn draw_happening(queues: &mut Queues, proposer: &mut Proposer) -> Drawn
    ensures draws { Draws queues.old result queues.new }
    ensures happens { Surely queues.old result }
{
    for _ in 0..MOST_TRIES {
        if let Some(action) = proposer.propose(false) {
            let drawn = make(queues, proposer, action);
            if drawn.happens {
                return drawn;
            }
        }
    }
    make_look(queues, proposer)
}

// Draws the next move: one that happens, or any move if it may be refused.
fn draw_next(queues: &mut Queues, proposer: &mut Proposer, may_be_refused: bool) -> Drawn
    ensures draws { Draws queues.old result queues.new }
    ensures happens { may_be_refused ≡ false → Surely queues.old result }
{
    if may_be_refused && proposer.one_in(2) {
        if let Some(action) = proposer.propose(true) {
            return make(queues, proposer, action);
        }
    }
    draw_happening(queues, proposer)
}

// Whether one more move may be refused, after `drawn` moves of which `refused` were refused.
fn is_owed(plan: &SchedulePlan, drawn: u32, refused: u64) -> bool
    requires { refused ≤ drawn }
    ensures { result ≡ true → 100 * (refused + 1) ≤ allowed plan.now * (drawn + 1) }
{
    100 * (refused + 1) <= u64::from(allowed(plan)).saturating_mul(u64::from(drawn) + 1)
}

// The maximum percentage of moves that do not happen.
fn allowed(plan: &SchedulePlan) -> u32
    ensures { result ≡ allowed plan.now }
{
    match plan.driver {
        Some(_) => 0,
        None => plan.refused,
    }
}

/// Draws list `list` of this seed. Returns `RingLength` if such queues cannot exist, and `Memory` only if memory is
/// refused.
pub fn draw(
    alloc: Global,
    plan: &SchedulePlan,
    seed: u64,
    list: u64,
) -> Result<Vec<Drawn>, MachineError>
    ensures refused { (result ≡ Err RingLength) ↔ ¬ (AreQueues plan.now.pairs plan.now.ring) }
    ensures error { IfErr result (λ e. (e ≡ RingLength) ⊎ (e ≡ Memory)) }
    ensures drawn { IfOk result (λ l. IsDrawn plan.now l.items) }
{
    let _receive: Option<RxStep<SegmentLength>> = None;
    let _transmit: Option<TxStep<SegmentDescriptor>> = None;
    let _action: Option<Move> = None;
    let (pairs, ring) = (plan.pairs as usize, plan.ring as usize);
    let mut queues = Queues::new_with(alloc, pairs, ring, plan.enabled, plan.completion)?;
    let Ok(mut proposer) = Proposer::new(alloc, plan, seed, list) else {
        return Err(MachineError::Memory);
    };
    let mut drawn = Vec::new(alloc);
    let mut refused: u64 = 0;
    for k in 0..plan.moves {
        let next = draw_next(&mut queues, &mut proposer, is_owed(plan, k, refused));
        refused += u64::from(!next.happens);
        if drawn.push(next).is_err() {
            return Err(MachineError::Memory);
        }
    }
    Ok(drawn)
}
