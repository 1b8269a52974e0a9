//! Rows of a driver's calls and their expected results.

use crate::YesOrNo;
use driver::DriverError;

/// A call of a driver or of the device beside it, or an inspection.
#[derive(Clone, Copy, Drop)]
pub(crate) enum Call<O> {
    Enable,
    AskDisable,
    FinishDisable,
    Reclaim,
    Renew,
    Batch,
    /// The device answers the driver's request: whether it serves then.
    Answer,
    /// How many descriptors can be posted.
    Room,
    /// How many buffers are in the stash.
    AtHand,
    /// How many packets are in the list.
    Listed,
    /// A call that only one direction has.
    Own(O),
}

/// The result of a call.
#[derive(Clone, Copy, PartialEq, Drop)]
pub(crate) enum Expected {
    True,
    False,
    Count(usize),
    Refused(DriverError),
}

impl YesOrNo for Expected {
    const YES: Expected = Expected::True;

    const NO: Expected = Expected::False;
}

/// Makes a call on a struct with fields `ring`, `driver`, `stash` and `packets` and methods `answer` and `own`, and
/// returns its result.
#[macro_export]
macro_rules! made {
    ($both:expr, $call:expr, $batch:ident) => {
        match $call {
            Call::Enable => $both
                .driver
                .enable(&$both.ring)
                .map_or_else(Expected::Refused, Expected::whether),
            Call::AskDisable => $both
                .driver
                .ask_disable(&$both.ring)
                .map_or_else(Expected::Refused, |()| Expected::True),
            Call::FinishDisable => match $both.driver.finish_disable(&$both.ring) {
                Some(left) => Expected::Count(left as usize),
                None => Expected::False,
            },
            Call::Reclaim => $both
                .driver
                .reclaim_into(&$both.ring, &mut $both.stash)
                .map_or_else(Expected::Refused, Expected::Count),
            Call::Renew => $both
                .driver
                .renew(&$both.ring)
                .map_or_else(Expected::Refused, |()| Expected::True),
            Call::Batch => $both
                .driver
                .$batch(&$both.ring, &mut $both.stash, &mut $both.packets)
                .map_or_else(Expected::Refused, Expected::Count),
            Call::Answer => Expected::whether($both.answer()),
            Call::Room => Expected::Count($both.driver.room() as usize),
            Call::AtHand => Expected::Count($both.stash.len()),
            Call::Listed => Expected::Count($both.packets.len()),
            Call::Own(own) => $both.own(own),
        }
    };
}
