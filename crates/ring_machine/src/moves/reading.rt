//! Reading moves.

ghost use Rattle.std.specs.Prelude.{◌≡◌, ◌↔◌, ◌<◌, ◌+◌, ℕ, Bool, [], ◌∷◌, codes, Ok, Some, IfErr};
ghost use Rattle.ring_machine.specs.code.Fields.{Spells, SpellsRx, SpellsTx};
ghost use Rattle.ring_machine.specs.text.Moves.{IsInRange, control_kind, text_of};
ghost use Rattle.ring_model.specs.shared.Agreement.{bit};
ghost use Rattle.ring_model.specs.transmit.Ring.{Posting};
ghost use Rattle.refusals.specs.declared.errors.MachineError.TheVariants.{Text};
ghost use Rattle.limits.specs.declared.profile.TheConstants.{MOST_PAIRS};
ghost use Rattle.ring_machine.specs.declared.moves.Move.{Move};
ghost use Rattle.ring_model.specs.declared.steps.ControlStep.{ControlStep};
ghost use Rattle.ring_model.specs.declared.steps.RxStep.{RxStep};
ghost use Rattle.ring_model.specs.declared.steps.TxStep.{TxStep};

use crate::moves::arguments::{SegmentDescriptor, SegmentLength};
use crate::moves::fields::arguments_in;
use crate::moves::{Move, QueueNumber};
use refusals::MachineError;
use ring_model::{ControlStep, RxStep, TxStep};
use text_lines::cut;

impl Move {
    /// Reads the move of a line, which must be exactly as `Display` prints it. Returns `Text` for anything else, also
    /// for an empty line or a comment. Allocates nothing.
    pub fn parse(line: &[u8]) -> Result<Move, MachineError>
        ensures exact { (m : Move) → (result ≡ Ok m) ↔ (IsInRange m × (line.now ≡ text_of m)) }
        ensures error { IfErr result (λ e. e ≡ Text) }
    {
        match read(line) {
            Some(read) => Ok(read),
            None => Err(MachineError::Text),
        }
    }
}

// The move of a line.
fn read(line: &[u8]) -> Option<Move>
    ensures { (m : Move) → (result ≡ Some m) ↔ (IsInRange m × (line.now ≡ text_of m)) }
{
    let (queue, rest) = cut(line, b' ');
    let (kind, rest) = cut(rest?, b' ');
    let arguments = arguments_in(rest)?;
    move_of(queue, kind, &arguments)
}

// The move with these fields.
fn move_of(queue: &[u8], kind: &[u8], arguments: &[u16]) -> Option<Move>
    ensures { (m : Move) → (result ≡ Some m) ↔ Spells queue.now kind.now arguments.now m }
{
    let [letter, digit] = queue else {
        return None;
    };
    let number = number_of(*digit)?;
    match letter {
        b'r' => Some(Move::Receive(number, rx_step(kind, arguments)?)),
        b't' => Some(Move::Transmit(number, tx_step(kind, arguments)?)),
        _ => None,
    }
}

// The queue number of a digit.
fn number_of(digit: u8) -> Option<QueueNumber>
    ensures { (q : ℕ) → (result ≡ Some q) ↔ ((q < MOST_PAIRS) × (digit ≡ 48 + q)) }
{
    if digit < b'0' {
        return None;
    }
    QueueNumber::new(digit - b'0')
}

// The receive step with these fields.
fn rx_step(kind: &[u8], arguments: &[u16]) -> Option<RxStep<SegmentLength>>
    ensures { (s : RxStep ℕ) → (result ≡ Some s) ↔ SpellsRx kind.now arguments.now s }
{
    match (kind, arguments) {
        (b"A1", [buffer]) => Some(RxStep::Post(*buffer)),
        (b"A5", [len, eop]) => store_of(*len, *eop),
        (_, []) => plain_rx_step(kind),
        _ => None,
    }
}

// The write-back (A5) with these arguments.
fn store_of(len: u16, eop: u16) -> Option<RxStep<SegmentLength>>
    ensures { (s : RxStep ℕ) → (result ≡ Some s) ↔ SpellsRx (codes "A5") (len ∷ eop ∷ []) s }
{
    let len = SegmentLength::new(len)?;
    let eop = bool_of(eop)?;
    Some(RxStep::Store(len, eop))
}

// The receive step of a kind without arguments.
fn plain_rx_step(kind: &[u8]) -> Option<RxStep<SegmentLength>>
    ensures { (s : RxStep ℕ) → (result ≡ Some s) ↔ SpellsRx kind.now [] s }
{
    match kind {
        b"A2" => Some(RxStep::Publish),
        b"A3" => Some(RxStep::Look),
        b"A4" => Some(RxStep::Fetch),
        b"A6" => Some(RxStep::Take),
        b"A7" => Some(RxStep::Head),
        b"C6" => Some(RxStep::Reclaim),
        b"C7" => Some(RxStep::StoreQuiet),
        b"C8" => Some(RxStep::LoadQuiet),
        b"C9" => Some(RxStep::ClearHead),
        b"C10" => Some(RxStep::ClearTail),
        b"C11" => Some(RxStep::ClearQuiet),
        _ => Some(RxStep::Control(control_of(kind)?)),
    }
}

// The transmit step with these fields.
fn tx_step(kind: &[u8], arguments: &[u16]) -> Option<TxStep<SegmentDescriptor>>
    ensures { (s : TxStep (Posting ℕ)) → (result ≡ Some s) ↔ SpellsTx kind.now arguments.now s }
{
    match (kind, arguments) {
        (b"B1", [number, len, eop, rs, paylen]) => post_of(*number, *len, *eop, *rs, *paylen),
        (_, []) => plain_tx_step(kind),
        _ => None,
    }
}

// The posting (B1) with these arguments.
fn post_of(
    number: u16,
    len: u16,
    eop: u16,
    rs: u16,
    paylen: u16,
) -> Option<TxStep<SegmentDescriptor>>
    ensures { (s : TxStep (Posting ℕ)) → (result ≡ Some s)
        ↔ SpellsTx (codes "B1") (number ∷ len ∷ eop ∷ rs ∷ paylen ∷ []) s }
{
    let eop = bool_of(eop)?;
    let rs = bool_of(rs)?;
    let descriptor = SegmentDescriptor::new(number, len, eop, rs, paylen)?;
    Some(TxStep::Post(descriptor))
}

// The transmit step of a kind without arguments.
fn plain_tx_step(kind: &[u8]) -> Option<TxStep<SegmentDescriptor>>
    ensures { (s : TxStep (Posting ℕ)) → (result ≡ Some s) ↔ SpellsTx kind.now [] s }
{
    match kind {
        b"B2" => Some(TxStep::Publish),
        b"B3" => Some(TxStep::Look),
        b"B4" => Some(TxStep::Fetch),
        b"B5" => Some(TxStep::Send),
        b"B6" => Some(TxStep::Report),
        b"B7" => Some(TxStep::LoadReport),
        b"B8" => Some(TxStep::Clean),
        b"C6" => Some(TxStep::Reclaim),
        b"C9" => Some(TxStep::ClearHead),
        b"C10" => Some(TxStep::ClearTail),
        b"C12" => Some(TxStep::ClearReport),
        _ => Some(TxStep::Control(control_of(kind)?)),
    }
}

// The step of this kind that enables or disables a queue.
fn control_of(kind: &[u8]) -> Option<ControlStep>
    ensures { (s : ControlStep) → (result ≡ Some s) ↔ (kind.now ≡ control_kind s) }
{
    match kind {
        b"C1" => Some(ControlStep::AskEnable),
        b"C2" => Some(ControlStep::LookAsked),
        b"C3" => Some(ControlStep::Answer),
        b"C4" => Some(ControlStep::LookAnswered),
        b"C5" => Some(ControlStep::AskDisable),
        _ => None,
    }
}

// The flag with the value 0 or 1.
fn bool_of(value: u16) -> Option<bool>
    ensures { (b : Bool) → (result ≡ Some b) ↔ (value ≡ bit b) }
{
    match value {
        0 => Some(false),
        1 => Some(true),
        _ => None,
    }
}
