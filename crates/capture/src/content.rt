//! The content of a capture.

ghost use Rattle.std.specs.Prelude.{◌≡◌, ◌≤◌, length};
ghost use Rattle.limits.specs.declared.profile.TheConstants.{MOST_SCRIPT_FRAMES};
ghost use Rattle.capture.specs.Reading.{Content};

use crate::header::TimeUnit;
use crate::record::CaptureRecord;
use std::marker::Model;

/// The records of a capture in order, at most [`MOST_SCRIPT_FRAMES`](limits::MOST_SCRIPT_FRAMES), and the unit of
/// their times. It borrows the bytes of the capture.
#[derive(Debug, Drop)]
pub struct Capture<'a> {
    unit: TimeUnit,
    records: Vec<CaptureRecord<'a>>,
}

impl<'a> Model for Capture<'a> {
    ghost Value = { Content };

    ghost view = { λ c. record { unit = c.unit; records = c.records.items } };

    ghost invariant = { λ c. length c.records.items ≤ MOST_SCRIPT_FRAMES };
}

impl<'a> Capture<'a> {
    // A capture with these records.
    pub(crate) fn new(unit: TimeUnit, records: Vec<CaptureRecord<'a>>) -> Self
        requires { length records.items ≤ MOST_SCRIPT_FRAMES }
        ensures { result ≡ record { unit = unit; records = records.entry.items } }
    {
        Capture { unit, records }
    }

    /// The unit of the fractions of a second in the records' times.
    pub fn unit(&self) -> TimeUnit
        ensures { result ≡ self.now.unit }
    {
        self.unit
    }

    /// The records in order.
    pub fn records(&self) -> &[CaptureRecord<'a>]
        ensures value { result.now ≡ self.now.records }
        ensures most { length result.now ≤ MOST_SCRIPT_FRAMES }
    {
        &self.records
    }
}
