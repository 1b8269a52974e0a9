//! The part of a capture that has been read.

ghost use Rattle.std.specs.Prelude.{◌≡◌, ◌+◌, ◌-◌, ◌<◌, ◌^◌, length, vec_len, ◌≤◌, Ok, IfErr, OnOk};
ghost use Rattle.limits.specs.declared.profile.TheConstants.{MOST_SCRIPT_FRAMES};
ghost use Rattle.capture.specs.CaptureError.{Fails};
ghost use Rattle.capture.specs.SoFar.{IsCounted, SoFar, nothing, with_entry};

use crate::entry::Entry;
use crate::options::Skipped;
use crate::record::CaptureRecord;
use limits::MOST_SCRIPT_FRAMES;
use refusals::CaptureError;
use std::alloc::Global;
use std::marker::Model;

/// The frames so far, the counts of records left out, and the number of records read.
#[derive(Drop)]
pub struct Gathered<'a> {
    records: Vec<CaptureRecord<'a>>,
    skipped: Skipped,
    number: u64,
}

impl<'a> Model for Gathered<'a> {
    ghost Value = { SoFar };

    ghost view = { λ g. record { records = g.records.items; skipped = g.skipped; number = g.number } };

    ghost invariant = { λ g. IsCounted (record { records = g.records.items; skipped = g.skipped; number = g.number }) };
}

impl<'a> Gathered<'a> {
    pub fn new(alloc: Global) -> Self
        ensures { result ≡ nothing }
    {
        Gathered {
            records: Vec::new(alloc),
            skipped: Skipped::default(),
            number: 0,
        }
    }

    /// The number of frames.
    pub fn frames(&self) -> usize
        ensures { result ≡ length self.now.records }
    {
        self.records.len()
    }

    /// Adds a record. With `skip`, counts a faulty record; without, refuses it.
    #[tactic(auto, unfolding(crate::specs::SoFar::with_entry))]
    pub fn add(&mut self, skip: bool, entry: Entry<'a>) -> Result<(), CaptureError>
        requires { self.old.number < 2 ^ 64 - 1 }
        ensures added { OnOk result (with_entry skip self.old entry.entry ≡ Ok self.new) }
        ensures counted { OnOk result (self.new.number ≡ self.old.number + 1) }
        ensures refused { IfErr result (λ e. Fails e (with_entry skip self.old entry.entry)) }
    {
        let number = self.number + 1;
        match entry {
            Entry::Frame(found) => {
                if self.records.len() == MOST_SCRIPT_FRAMES {
                    return Err(CaptureError::TooMany { number });
                }
                self.records.push(found).map_err(|_| CaptureError::Memory)?;
            }
            Entry::Faulty(faulty) => {
                if !skip {
                    return Err(faulty.fault.refusal(number));
                }
                self.skipped = self.skipped.with(faulty.fault);
            }
            Entry::Unread(refused) => return Err(refused),
        }
        self.number = number;
        Ok(())
    }

    /// The frames, and the counts of records left out.
    pub fn into_parts(self) -> (Vec<CaptureRecord<'a>>, Skipped)
        ensures frames { result.0.items ≡ self.entry.records }
        ensures skipped { result.1 ≡ self.entry.skipped }
        ensures most { vec_len result.0 ≤ MOST_SCRIPT_FRAMES }
    {
        (self.records, self.skipped)
    }
}
