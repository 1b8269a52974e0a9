//! The state that determines the next steps of a queue of 8.

use crate::covering::pairs::{controller_number, driver_number};
use crate::covering::tried::{Scope, SearchedQueue};
use ring_machine::{
    Completion, ControlStep, Move, Note, RxStep, SegmentDescriptor, SegmentLength, TxStep,
};
use ring_model::{ControllerState, DriverState, Handshake};

/// The state of driver and controller with a queue of 8, in counts from where the driver takes next, modulo 8.
///
/// It follows the outcomes of the queue's moves, so a fault here can only leave a state out; the queue alone decides
/// the effect of a move.
#[derive(Clone, Copy)]
pub(crate) struct QueueSummary {
    handshake: Handshake,
    /// The number of descriptors that are out.
    out: u8,
    /// How many of them are before the tail.
    tail: u8,
    /// How many are before the tail that the controller loaded last.
    known: u8,
    /// How many the controller has given back.
    used: u8,
    /// How many it has given back since the head of a receive queue was stored.
    unstored: u8,
    /// How many are reported, on a transmit queue.
    reported: u8,
    /// How many the driver has seen reported.
    seen: u8,
    /// Which of them end their frame, a bit each: as written back, or as posted.
    ends: u8,
    /// Which of them ask for a report.
    asks: u8,
    /// Whether the controller has fetched a descriptor and not given it back.
    held: bool,
    /// Whether the last one that it gave back ended its frame.
    whole: bool,
    /// Whether it owes a report.
    owed: bool,
    /// Whether it announced that it stores no more.
    quiet: bool,
    /// Whether a transmit queue reports by a head word, which is cleared last.
    by_head: bool,
}

// One place fewer, modulo 8.
fn before(count: u8) -> u8 {
    count.wrapping_sub(1) & 7
}

// One place more, modulo 8.
fn behind(count: u8) -> u8 {
    count.wrapping_add(1) & 7
}

// The bits with bit `place`, below 8, set to `set`.
fn with_bit(bits: u8, place: u8, set: bool) -> u8 {
    let bit = 1u8 << (place & 7);
    if set { bits | bit } else { bits & !bit }
}

fn has_bit(bits: u8, place: u8) -> bool {
    bits >> (place & 7) & 1 == 1
}

impl QueueSummary {
    // A queue in this handshake state with nothing out, which reports by status words.
    fn empty(handshake: Handshake) -> QueueSummary {
        QueueSummary {
            handshake,
            out: 0,
            tail: 0,
            known: 0,
            used: 0,
            unstored: 0,
            reported: 0,
            seen: 0,
            ends: 0,
            asks: 0,
            held: false,
            whole: true,
            owed: false,
            quiet: false,
            by_head: false,
        }
    }

    /// The first state of a search.
    pub(crate) fn first(scope: Scope) -> QueueSummary {
        QueueSummary {
            by_head: matches!(scope.side, SearchedQueue::Transmit(Completion::Head)),
            ..QueueSummary::empty(Handshake::first(scope.device_only))
        }
    }

    pub(crate) fn driver(&self) -> DriverState {
        self.handshake.driver
    }

    pub(crate) fn controller(&self) -> ControllerState {
        self.handshake.controller
    }

    /// A number that identifies the state within a search.
    pub(crate) fn key(&self) -> u64 {
        let flags = [self.held, self.whole, self.owed, self.quiet];
        let counts = [
            self.out,
            self.tail,
            self.known,
            self.used,
            self.unstored,
            self.reported,
            self.seen,
        ];
        let mut key = driver_number(self.driver()) as u64 * 3
            + controller_number(self.controller()) as u64;
        for value in [self.handshake.control, self.handshake.seen] {
            key = key << 2 | u64::from(value & 3);
        }
        for flag in flags {
            key = key << 1 | u64::from(flag);
        }
        for count in counts {
            key = key << 3 | u64::from(count & 7);
        }
        key << 16 | u64::from(self.ends) << 8 | u64::from(self.asks)
    }

    // The number of frames in flight: those stored or posted whose end is out, and one whose end is not there yet.
    fn frames(&self, all: u8, is_whole: bool) -> u32 {
        let ends = if all < 8 {
            self.ends & ((1u8 << (all & 7)).wrapping_sub(1))
        } else {
            self.ends
        };
        ends.count_ones().saturating_add(u32::from(!is_whole))
    }

    /// Whether this move would begin a third frame.
    pub(crate) fn is_too_much(&self, action: Move) -> bool {
        match action {
            Move::Receive(_, RxStep::Store(_, _)) => self.whole
                && self.frames(self.used, true) >= 2,
            Move::Transmit(_, TxStep::Post(_)) => {
                let is_whole = self.out == 0 || has_bit(self.ends, before(self.out));
                is_whole && self.frames(self.out, true) >= 2
            }
            Move::Receive(..) | Move::Transmit(..) => false,
        }
    }

    /// The state after a move with this note.
    pub(crate) fn after(self, action: Move, note: Note) -> QueueSummary {
        match action {
            Move::Receive(_, step) => self.received(step, note),
            Move::Transmit(_, step) => self.transmitted(step, note),
        }
    }

    fn received(self, step: RxStep<SegmentLength>, note: Note) -> QueueSummary {
        let _transmit: Option<TxStep<SegmentDescriptor>> = None;
        match step {
            RxStep::Post(_) => self.posted(false, false),
            RxStep::Publish => self.published(),
            RxStep::Look => self.looked(),
            RxStep::Fetch => self.fetched(),
            RxStep::Store(_, eop) => QueueSummary {
                ends: with_bit(self.ends, self.used, eop),
                used: behind(self.used),
                unstored: behind(self.unstored),
                whole: eop,
                held: false,
                ..self
            },
            RxStep::Take => match note {
                Note::Taken(Some(_)) => self.moved_on(),
                _ => self,
            },
            RxStep::Head => QueueSummary {
                unstored: 0,
                ..self
            },
            RxStep::Control(control) => self.after_control_step(control),
            RxStep::Reclaim => self.reclaimed(),
            RxStep::StoreQuiet => QueueSummary {
                quiet: true,
                ..self
            },
            RxStep::LoadQuiet => self,
            RxStep::ClearHead => self.cleared(DriverState::Cleared),
            RxStep::ClearTail => self.cleared(DriverState::Tailed),
            RxStep::ClearQuiet => QueueSummary {
                quiet: false,
                ..self.cleared(DriverState::New)
            },
        }
    }

    fn transmitted(self, step: TxStep<SegmentDescriptor>, note: Note) -> QueueSummary {
        let _receive: Option<RxStep<SegmentLength>> = None;
        match step {
            TxStep::Post(posted) => self.posted(posted.eop(), posted.rs()),
            TxStep::Publish => self.published(),
            TxStep::Look => self.looked(),
            TxStep::Fetch => self.fetched(),
            TxStep::Send => QueueSummary {
                whole: has_bit(self.ends, self.used),
                owed: has_bit(self.asks, self.used),
                used: behind(self.used),
                held: false,
                ..self
            },
            TxStep::Report => QueueSummary {
                reported: self.used,
                owed: false,
                ..self
            },
            TxStep::LoadReport => match note {
                Note::Reported(Some(_)) => self.seen_report(),
                _ => self,
            },
            TxStep::Clean => self.moved_on(),
            TxStep::Control(control) => self.after_control_step(control),
            TxStep::Reclaim => self.reclaimed(),
            TxStep::ClearHead => self.cleared(DriverState::Cleared),
            TxStep::ClearTail => self.cleared(if self.by_head {
                DriverState::Tailed
            } else {
                DriverState::New
            }),
            TxStep::ClearReport => self.cleared(DriverState::New),
        }
    }

    // The tail is behind the last descriptor that is out.
    fn published(self) -> QueueSummary {
        QueueSummary {
            tail: self.out,
            ..self
        }
    }

    // The controller knows the current tail.
    fn looked(self) -> QueueSummary {
        QueueSummary {
            known: self.tail,
            ..self
        }
    }

    // The controller holds the descriptor that it read.
    fn fetched(self) -> QueueSummary {
        QueueSummary { held: true, ..self }
    }

    // One more descriptor is out.
    fn posted(self, eop: bool, rs: bool) -> QueueSummary {
        QueueSummary {
            ends: with_bit(self.ends, self.out, eop),
            asks: with_bit(self.asks, self.out, rs),
            out: behind(self.out),
            ..self
        }
    }

    // The driver has taken the first descriptor that is out.
    fn moved_on(self) -> QueueSummary {
        QueueSummary {
            out: before(self.out),
            tail: before(self.tail),
            known: before(self.known),
            used: before(self.used),
            reported: self.reported.saturating_sub(1),
            seen: self.seen.saturating_sub(1),
            ends: self.ends >> 1,
            asks: self.asks >> 1,
            ..self
        }
    }

    // The driver sees the oldest report that was asked for and not seen.
    fn seen_report(self) -> QueueSummary {
        let later = self.asks >> (self.seen & 7) << (self.seen & 7);
        QueueSummary {
            seen: behind(later.trailing_zeros() as u8),
            ..self
        }
    }

    fn after_control_step(self, control: ControlStep) -> QueueSummary {
        let enables = matches!(control, ControlStep::Answer) && self.handshake.can_enable();
        let (used, known) = if enables {
            (0, 0)
        } else {
            (self.used, self.known)
        };
        QueueSummary {
            handshake: self.handshake.after_control_step(control),
            used,
            known,
            ..self
        }
    }

    // One buffer fewer is out of a disabled queue, of which only their number matters now.
    fn reclaimed(self) -> QueueSummary {
        QueueSummary {
            out: before(self.out),
            ..self.cleared(self.handshake.driver)
        }
    }

    // A disabled queue, with the driver's progress to the next epoch.
    fn cleared(self, driver: DriverState) -> QueueSummary {
        let handshake = Handshake {
            driver,
            ..self.handshake
        };
        QueueSummary {
            out: self.out,
            held: self.held,
            whole: self.whole,
            owed: self.owed,
            quiet: self.quiet,
            by_head: self.by_head,
            ..QueueSummary::empty(handshake)
        }
    }
}
