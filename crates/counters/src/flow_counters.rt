//! The counters of a flow, in one list with their names.
ghost use Rattle.std.specs.Prelude.{◌≡◌, map};
ghost use Rattle.counters.specs.FlowCounters.{entries, entry_of, named};

use crate::driven::Driven;
use crate::tally::Tally;

/// How many counters a flow has.
pub const FLOW_COUNTERS: usize = 7;

/// The counters of a flow: those of its controller's side, and those of its driver's side.
#[derive(Clone, Copy, Debug, PartialEq, Eq, Default)]
pub struct FlowCounters {
    /// The outcomes of the frames that were offered.
    pub tally: Tally,
    /// The frames that were taken, and what became of them.
    pub driven: Driven,
}

/// A counter with its names. The field of [`Tally`] or [`Driven`] says what it counts.
#[derive(Clone, Copy)]
pub struct Counter {
    /// Its word in the line of a flow, if the line shows it.
    pub word: Option<&'static str>,
    /// Its key in the JSON object of a flow.
    pub key: &'static str,
    /// Its value.
    pub value: u64,
}

impl Counter {
    /// A counter whose word and key are the same.
    fn named(name: &'static str, value: u64) -> Counter
        ensures { entry_of result ≡ named name.entry.now value }
    {
        Counter {
            word: Some(name),
            key: name,
            value,
        }
    }
}

impl FlowCounters {
    /// All counters, in the order in which they are printed.
    pub fn entries(self) -> [Counter; FLOW_COUNTERS]
        ensures { map entry_of result ≡ entries self }
    {
        let FlowCounters { tally, driven } = self;
        [
            Counter::named("offered", tally.offered),
            Counter::named("stored", tally.stored),
            Counter::named("dropped", tally.dropped),
            Counter::named("oversize", tally.oversize),
            Counter::named("taken", driven.taken),
            Counter::named("posted", driven.posted),
            Counter {
                word: Some("tx-dropped"),
                key: "tx_dropped",
                value: driven.tx_dropped,
            },
        ]
    }
}
