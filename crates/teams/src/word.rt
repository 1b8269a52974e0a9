//! A word that is set once, and its passes.
//!
//! A new [`StopWord`] is not set. The holder of a [`StopPass`] may look at it and set it; the setter learns whether it
//! was the first. A pass knows whether the word was set when it last looked, and how often it was the first to set it.
//! A pass can be split, so that a part moves to another thread, and parts can be joined again. A pass with the whole
//! share knows of all passes: if it sees the word set, one of those joined into it was the first.
//!
//! Making a word allocates; no other call does. A call that looks or sets may wait for a thread that sets the word at
//! the same time.
ghost use Rattle.std.specs.Prelude.{◌≡◌, ◌<◌, ◌+◌, ◌-◌, true, false, IfOk};
ghost use Rattle.teams.specs.Passes.{first_pass, joined, part_of};
ghost use Rattle.teams.specs.Rule.{whole_share, worth};

use crate::rule::{
    Flag, GivesShare, JoinsPasses, Leaves, Looks, Once, PassKnowledge, Sets, may_leave, may_look,
    may_meet, may_open, may_part, may_set,
};
use crossbeam_utils::atomic::seq_cell::{Pass, RuledSeqCell};
use std::alloc::{AllocError, Global};
use std::marker::Model;
use std::sync::Wait;
use std::sync::atomic::{AtomicBool, Ordering};

/// The word, under its rule.
type StopCell = RuledSeqCell<Flag, PassKnowledge, Once, 1>;

/// A word that is set once. Threads share it.
#[derive(Drop)]
pub struct StopWord {
    word: StopCell,
    /// Set right after the word. While it is not set, `is_set` need not load the word, which is in separate memory,
    /// perhaps in a cache line that others write.
    hint: AtomicBool,
}

/// The right to look at a stop word and to set it. It has no bytes.
#[derive(Drop)]
pub struct StopPass {
    pass: Pass<Flag, PassKnowledge>,
}

impl Model for StopWord {
    ghost use Rattle.atomic_table.specs.Seated.{TableId};

    ghost Value = { TableId };

    ghost view = { λ s. s.word.table.shared.table_id };
}

impl Model for StopPass {
    ghost use Rattle.crossbeam_utils.specs.Seq.{cell_view};
    ghost use Rattle.teams.specs.Passes.{Passed, passed};

    ghost Value = { Passed };

    ghost view = { λ p. passed p.pass.table_id (cell_view p.pass) };
}

impl StopWord {
    /// A word that is not set, and the pass with the whole share of it. Fails only if memory was refused.
    pub fn new(alloc: Global) -> Result<(StopWord, StopPass), AllocError>
        ensures first { IfOk result (λ made. made.1 ≡ first_pass made.0) }
    {
        let clear = Flag { set: false };
        may_open(clear);
        let (word, pass) = StopCell::ruled(alloc, clear)?;
        let hint = AtomicBool::new(false);
        Ok((StopWord { word, hint }, StopPass { pass }))
    }

    /// Whether the word was found set. Takes one load if it is not, and may miss a setting that another thread is
    /// making.
    pub fn is_set<R: Wait>(&self, rt: &R, pass: &mut StopPass) -> bool
        requires own { pass.old.word ≡ self.now }
        ensures set { result ≡ true → pass.new ≡ record pass.old { seen = true } }
        ensures unset { result ≡ false → pass.new ≡ pass.old }
    {
        self.hint.load(Ordering::SeqCst) && self.look(rt, pass)
    }

    /// Whether the word is set. Once a pass has seen it set, it stays set. With the whole share, the word is set
    /// exactly if one of the passes joined into this one was the first to set it.
    pub fn look<R: Wait>(&self, rt: &R, pass: &mut StopPass) -> bool
        requires own { pass.old.word ≡ self.now }
        ensures set { result ≡ true → pass.new ≡ record pass.old { seen = true } }
        ensures unset { result ≡ false → pass.new ≡ pass.old }
        ensures stays { pass.old.seen ≡ true → result ≡ true }
        ensures whole { pass.old.share ≡ whole_share → pass.old.firsts ≡ worth result }
    {
        may_look(&pass.pass);
        self.word.load_as::<Looks, R>(rt, &mut pass.pass).set
    }

    /// Sets the word, and returns whether this was the first time.
    pub fn set<R: Wait>(&self, rt: &R, pass: &mut StopPass) -> bool
        requires own { pass.old.word ≡ self.now }
        requires share { 0 < pass.old.share }
        ensures set { pass.new ≡ record pass.old { firsts = pass.old.firsts + worth result; seen = true } }
        ensures once { pass.old.seen ≡ true → result ≡ false }
    {
        let now = Flag { set: true };
        may_set(&pass.pass, now);
        let was = self.word.swap_as::<Sets, R>(rt, &mut pass.pass, now);
        self.hint.store(true, Ordering::SeqCst);
        !was.set
    }

    /// Splits off a pass with a share of 1 of this one's. It has seen what this one has, and was never the first.
    pub fn split(&self, pass: &mut StopPass) -> StopPass
        requires own { pass.old.word ≡ self.now }
        requires share { 1 < pass.old.share }
        ensures kept { pass.new ≡ record pass.old { share = pass.old.share - 1 } }
        ensures part { result ≡ part_of pass.old }
    {
        may_part(&pass.pass);
        StopPass {
            pass: self.word.split_pass::<GivesShare>(&mut pass.pass),
        }
    }

    /// Joins another pass into this one, with its share and all that it knows.
    pub fn join(&self, pass: &mut StopPass, mut other: StopPass)
        requires own { pass.old.word ≡ self.now }
        requires other { other.word ≡ self.now }
        ensures joined { pass.new ≡ joined pass.old other }
    {
        // a pass that has made a step cannot be joined, but one that was just split off can
        may_leave(&other.pass);
        let rest = self.word.split_pass::<Leaves>(&mut other.pass);
        may_meet(&pass.pass, &rest);
        self.word.join_pass::<JoinsPasses>(&mut pass.pass, rest);
    }
}
