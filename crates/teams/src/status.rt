//! The state of some work, with a pass of the stop word.
ghost use Rattle.std.specs.Prelude.{◌≡◌, ◌⊎◌, ◌<◌, ◌+◌, ◌-◌, true, false, None, Some};
ghost use Rattle.teams.specs.Rule.{whole_share};
ghost use Rattle.teams.specs.declared.ending.Ending.TheVariants.{Done, Refused, Stopped};
ghost use Rattle.teams.specs.Endings.{status_of, worse};

use crate::ending::Ending;
use crate::word::{StopPass, StopWord};
use refusals::ForwardError;
use std::marker::Model;
use std::sync::Wait;

/// The state of some work: `Done` as long as no refusal ended it. Its pass was the first to set the stop word exactly
/// if the work was refused, and has seen the word set if the work was stopped.
#[derive(Drop)]
pub(crate) struct WorkerStatus {
    pass: StopPass,
    ending: Ending,
}

impl Model for WorkerStatus {
    ghost use Rattle.teams.specs.Endings.{Status, status_of, Tells};

    ghost Value = { Status };

    ghost view = { λ s. status_of s.pass.word s.pass.share s.ending };

    ghost invariant = { λ s. Tells s.pass.firsts s.pass.seen s.ending };
}

impl WorkerStatus {
    /// Work that no refusal ended, with a pass that was never the first to set the stop word.
    pub(crate) fn new(pass: StopPass) -> WorkerStatus
        requires { pass.firsts ≡ 0 }
        ensures { result ≡ status_of pass.word pass.share Done }
    {
        WorkerStatus {
            pass,
            ending: Ending::Done,
        }
    }

    /// Work for another thread, with a share of 1 of this one's.
    pub(crate) fn split(&mut self, stop: &StopWord) -> WorkerStatus
        requires own { self.old.word ≡ stop.now }
        requires share { 1 < self.old.share }
        ensures kept { self.new ≡ status_of self.old.word (self.old.share - 1) self.old.ending }
        ensures part { result ≡ status_of self.old.word 1 Done }
    {
        WorkerStatus {
            pass: stop.split(&mut self.pass),
            ending: Ending::Done,
        }
    }

    /// Joins the state of other work into this one.
    pub(crate) fn join(&mut self, stop: &StopWord, other: WorkerStatus)
        requires own { self.old.word ≡ stop.now }
        requires other { other.word ≡ stop.now }
        ensures { self.new ≡ status_of self.old.word (self.old.share + other.share) (worse self.old.ending other.ending) }
    {
        let WorkerStatus { pass, ending } = other;
        stop.join(&mut self.pass, pass);
        self.ending = self.ending.and(ending);
    }

    /// Whether the stop word is set. If it is, this work is stopped.
    pub(crate) fn is_stopped<R: Wait>(&mut self, rt: &R, stop: &StopWord) -> bool
        requires own { self.old.word ≡ stop.now }
        ensures stopped { result ≡ true → self.new ≡ status_of self.old.word self.old.share (worse self.old.ending Stopped) }
        ensures goes_on { result ≡ false → self.new ≡ self.old }
    {
        let set = stop.is_set(rt, &mut self.pass);
        if set {
            self.ending = self.ending.and(Ending::Stopped);
        }
        set
    }

    /// Sets the stop word. This work ends with the refusal if it is the first to do so; otherwise it is stopped.
    pub(crate) fn refuse<R: Wait>(&mut self, rt: &R, stop: &StopWord, refusal: ForwardError)
        requires own { self.old.word ≡ stop.now }
        requires share { 0 < self.old.share }
        ensures { (self.new ≡ status_of self.old.word self.old.share (worse self.old.ending (Refused refusal))) ⊎ (self.new ≡ status_of self.old.word self.old.share (worse self.old.ending Stopped)) }
    {
        let ending = if stop.set(rt, &mut self.pass) {
            Ending::Refused(refusal)
        } else {
            Ending::Stopped
        };
        self.ending = self.ending.and(ending);
    }

    /// The refusal with which all work together ended, if any: that of the work which first set the stop word. Once all
    /// of the word's passes are back, the work that stopped the others is known.
    pub(crate) fn refusal<R: Wait>(mut self, rt: &R, stop: &StopWord) -> Option<ForwardError>
        requires own { self.word ≡ stop.now }
        requires whole { self.share ≡ whole_share }
        ensures done { result ≡ None → self.ending ≡ Done }
        ensures refused { (e : _) → result ≡ Some e → self.ending ≡ Refused e }
    {
        let _set = stop.look(rt, &mut self.pass);
        match self.ending {
            Ending::Done => None,
            Ending::Refused(refusal) => Some(refusal),
            Ending::Stopped => unreachable!(),
        }
    }
}
