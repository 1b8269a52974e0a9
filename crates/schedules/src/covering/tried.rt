//! The moves that a search tries in each state.
ghost use Rattle.std.specs.Prelude.{◌≡◌, IfSome, IsTrue};
ghost use Rattle.schedules.specs.Tried.{InScope, completion_of, is_data, receive_moves, rx_is_data, transmit_moves, tried_on, tx_is_data};

use ring_machine::{
    Completion, ControlStep, Move, QueueNumber, RxStep, SegmentDescriptor, SegmentLength, TxStep,
};

/// The queue that is searched.
#[derive(Clone, Copy, PartialEq, Eq)]
pub enum SearchedQueue {
    /// A receive queue.
    Receive,
    /// A transmit queue with this way to report.
    Transmit(Completion),
}

impl SearchedQueue {
    /// How the transmit queue of the pair reports, whether or not it is the searched queue.
    pub fn completion(self) -> Completion
        ensures { result ≡ completion_of self }
    {
        match self {
            SearchedQueue::Receive => Completion::Status,
            SearchedQueue::Transmit(completion) => completion,
        }
    }
}

/// The scope of a search.
#[derive(Clone, Copy, PartialEq, Eq)]
pub struct Scope {
    /// The queue that is searched.
    pub side: SearchedQueue,
    /// If set, the queue begins enabled, and only moves are made that silicon and its driver make too: none of the
    /// handshake, the quiet word, reclaiming, or renewal. Otherwise the queue begins never enabled, and all moves are
    /// made.
    pub device_only: bool,
}

impl Scope {
    /// Whether a move may be made.
    pub(crate) fn has(self, action: Move) -> bool {
        !self.device_only || is_data(action)
    }

    /// Whether these moves may be made.
    pub(crate) fn has_all(self, moves: &[Move]) -> bool
        ensures { IsTrue result → InScope self moves.now }
    {
        !self.device_only || moves.iter().all(|action| is_data(*action))
    }
}

fn rx_is_data(step: RxStep<SegmentLength>) -> bool
    ensures { result ≡ rx_is_data step }
{
    matches!(
        step,
        RxStep::Post(_)
            | RxStep::Publish
            | RxStep::Look
            | RxStep::Fetch
            | RxStep::Store(_, _)
            | RxStep::Take
            | RxStep::Head
    )
}

fn tx_is_data(step: TxStep<SegmentDescriptor>) -> bool
    ensures { result ≡ tx_is_data step }
{
    matches!(
        step,
        TxStep::Post(_)
            | TxStep::Publish
            | TxStep::Look
            | TxStep::Fetch
            | TxStep::Send
            | TxStep::Report
            | TxStep::LoadReport
            | TxStep::Clean
    )
}

/// Whether a move is one of data, which silicon and its driver make too.
pub fn is_data(action: Move) -> bool
    ensures { result ≡ is_data action }
{
    match action {
        Move::Receive(_, step) => rx_is_data(step),
        Move::Transmit(_, step) => tx_is_data(step),
    }
}

/// The number of moves tried in each state.
pub const MOVES_TRIED: usize = 19;

// Every kind of move of a receive queue, with one buffer number and one length, and with both values of EOP.
fn receive_moves(queue: QueueNumber, len: SegmentLength) -> [Move; MOVES_TRIED]
    ensures { result ≡ receive_moves queue len }
{
    let _transmit: Option<TxStep<SegmentDescriptor>> = None;
    [
        Move::Receive(queue, RxStep::Post(0)),
        Move::Receive(queue, RxStep::Publish),
        Move::Receive(queue, RxStep::Look),
        Move::Receive(queue, RxStep::Fetch),
        Move::Receive(queue, RxStep::Store(len, true)),
        Move::Receive(queue, RxStep::Store(len, false)),
        Move::Receive(queue, RxStep::Take),
        Move::Receive(queue, RxStep::Head),
        Move::Receive(queue, RxStep::Control(ControlStep::AskEnable)),
        Move::Receive(queue, RxStep::Control(ControlStep::LookAsked)),
        Move::Receive(queue, RxStep::Control(ControlStep::Answer)),
        Move::Receive(queue, RxStep::Control(ControlStep::LookAnswered)),
        Move::Receive(queue, RxStep::Control(ControlStep::AskDisable)),
        Move::Receive(queue, RxStep::Reclaim),
        Move::Receive(queue, RxStep::StoreQuiet),
        Move::Receive(queue, RxStep::LoadQuiet),
        Move::Receive(queue, RxStep::ClearHead),
        Move::Receive(queue, RxStep::ClearTail),
        Move::Receive(queue, RxStep::ClearQuiet),
    ]
}

// Every kind of move of a transmit queue, with postings in the middle of a frame, at its end, and at its end with RS.
fn transmit_moves(
    queue: QueueNumber,
    inner: SegmentDescriptor,
    last: SegmentDescriptor,
    asking: SegmentDescriptor,
) -> [Move; MOVES_TRIED]
    ensures { result ≡ transmit_moves queue inner last asking }
{
    let _receive: Option<RxStep<SegmentLength>> = None;
    [
        Move::Transmit(queue, TxStep::Post(inner)),
        Move::Transmit(queue, TxStep::Post(last)),
        Move::Transmit(queue, TxStep::Post(asking)),
        Move::Transmit(queue, TxStep::Publish),
        Move::Transmit(queue, TxStep::Look),
        Move::Transmit(queue, TxStep::Fetch),
        Move::Transmit(queue, TxStep::Send),
        Move::Transmit(queue, TxStep::Report),
        Move::Transmit(queue, TxStep::LoadReport),
        Move::Transmit(queue, TxStep::Clean),
        Move::Transmit(queue, TxStep::Control(ControlStep::AskEnable)),
        Move::Transmit(queue, TxStep::Control(ControlStep::LookAsked)),
        Move::Transmit(queue, TxStep::Control(ControlStep::Answer)),
        Move::Transmit(queue, TxStep::Control(ControlStep::LookAnswered)),
        Move::Transmit(queue, TxStep::Control(ControlStep::AskDisable)),
        Move::Transmit(queue, TxStep::Reclaim),
        Move::Transmit(queue, TxStep::ClearHead),
        Move::Transmit(queue, TxStep::ClearTail),
        Move::Transmit(queue, TxStep::ClearReport),
    ]
}

/// The moves that are tried in each state of such a queue, which is queue 0: every kind of move that it has.
pub fn moves_tried(side: SearchedQueue) -> Option<[Move; MOVES_TRIED]>
    ensures { IfSome result (λ moves. moves ≡ tried_on side) }
{
    let queue = QueueNumber::new(0)?;
    match side {
        SearchedQueue::Receive => Some(receive_moves(queue, SegmentLength::new(60)?)),
        SearchedQueue::Transmit(_) => Some(transmit_moves(
            queue,
            SegmentDescriptor::new(0, 60, false, false, 60)?,
            SegmentDescriptor::new(0, 60, true, false, 60)?,
            SegmentDescriptor::new(0, 60, true, true, 60)?,
        )),
    }
}
