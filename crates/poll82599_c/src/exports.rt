//! The exported functions: they make a ring, a queue, a worker's packets, a pool or counters, step the object that a
//! handle holds, and close it. They are grouped by task, so that both directions are side by side.

/// Steps the object of a handle in place, if it is of this kind. The value is that of the step, or `NO_OPERATION`.
macro_rules! step {
    ($handle:ident, $kind:ident($held:ident) => $step:expr) => {
        match $handle.lent() {
            None => NO_OPERATION,
            Some(end) => match end {
                End::$kind($held) => $step,
                _ => NO_OPERATION,
            },
        }
    };
}

/// The same for an export with a call record, whose `answer` gets the value.
macro_rules! step_call {
    ($handle:ident, $call:ident, $kind:ident($held:ident) => $step:expr) => {
        let Some(end) = $handle.lent() else {
            $call.answer = NO_OPERATION;
            return;
        };
        $call.answer = match end {
            End::$kind($held) => $step,
            _ => NO_OPERATION,
        };
    };
}

/// Steps the objects of two handles in place, if they are of these kinds. The value is that of the step, or `none`.
macro_rules! step_both {
    (
        $one:ident, $other:ident, $none:expr,
        $kind:ident($held:ident), $with:ident($has:ident) => $step:expr
    ) => {
        match $one.lent() {
            None => $none,
            Some(end) => match $other.lent() {
                None => $none,
                Some(other_end) => match (end, other_end) {
                    (End::$kind($held), End::$with($has)) => $step,
                    _ => $none,
                },
            },
        }
    };
}

mod calling;
mod closing;
mod counting;
mod handling;
mod making;
mod moving;
mod playing;
mod reading;
mod stepping;
mod supplying;
